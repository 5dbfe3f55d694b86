//! Rows on which no step was made, which show the state at boot, and which frames are free.

ghost use Rattle.std.specs.Prelude.{◌≡◌, ◌≤◌, ◌+◌, IfOk, All, vec_capacity, vec_len, replicate, false};
ghost use Rattle.group_tree.specs.Bounds.{most_groups};
ghost use Rattle.step_rules.specs.State.{at_boot, free_in};
ghost use Rattle.zone_blocks.specs.Config.{most_cpus, most_frames};
ghost use Rattle.mem_core.specs.Rows.{state_in};
ghost use Rattle.mem_core.specs.Rooms.{FitsZone, SeatHasRoom, IsNewSeat};

use crate::phase_table::PhaseTable;
use crate::phases::is_free;
use crate::rows::Rows;
use crate::seat::{SeatRow, new_seat};
use group_tree::group::MAX_GROUPS;
use group_tree::tree::Tree;
use std::alloc::{AllocError, Global};
use step_rules::phase::Hold;

/// Seats that have nothing, the zone's own and one for each CPU.
fn new_seats(alloc: Global, frames: u32, cpus: u32) -> Result<Vec<SeatRow>, AllocError>
    requires frames { frames ≤ most_frames }
    requires cpus { cpus ≤ most_cpus }
    ensures number { IfOk result (λ seats. vec_len seats ≡ cpus + 1) }
    ensures rooms { IfOk result (λ seats. All (SeatHasRoom frames) seats.items) }
    ensures none { IfOk result (λ seats. All (IsNewSeat frames) seats.items) }
{
    let mut seats = Vec::with_capacity(alloc, cpus as usize + 1)?;
    for cpu in 0..cpus + 1 {
        let _ = cpu;
        let seat = new_seat(alloc, frames)?;
        seats.push_reserved(seat);
    }
    Ok(seats)
}

/// A flag for each group number, all off.
fn new_flags(alloc: Global) -> Result<Vec<bool>, AllocError>
    ensures items { IfOk result (λ flags. flags.items ≡ replicate most_groups false) }
    ensures number { IfOk result (λ flags. vec_len flags ≡ most_groups) }
{
    vec![in alloc; false; MAX_GROUPS]
}

/// No pages for each group number.
fn new_counts(alloc: Global) -> Result<Vec<u128>, AllocError>
    ensures items { IfOk result (λ counts. counts.items ≡ replicate most_groups 0) }
    ensures number { IfOk result (λ counts. vec_len counts ≡ most_groups) }
{
    vec![in alloc; 0; MAX_GROUPS]
}

impl Rows {
    /// Rows of this many frames and CPUs, with room for this many groups: all frames are free, the root is the only
    /// group, and the lock is free. All room that a step needs is reserved here.
    pub fn new(alloc: Global, frames: u32, cpus: u32, groups: u32) -> Result<Rows, AllocError>
        requires frames { frames ≤ most_frames }
        requires cpus { cpus ≤ most_cpus }
        requires groups { (1 ≤ groups) × (groups ≤ most_groups) }
        ensures fits { IfOk result FitsZone }
        ensures state { IfOk result (λ r. state_in r ≡ at_boot (record { frames = frames; cpus = cpus; groups = groups })) }
    {
        // What a failure has to drop grows from part to part, and with it the time of this function's check, so the parts
        // that are longest to drop come last.
        let killed = new_flags(alloc)?;
        let pending = new_counts(alloc)?;
        let phases = PhaseTable::new(alloc, frames)?;
        let tree = Tree::new(alloc, groups - 1)?;
        let seats = new_seats(alloc, frames, cpus)?;
        Ok(Rows {
            frames,
            cpus,
            groups,
            hold: Hold::Unheld,
            tree,
            killed,
            phases,
            seats,
            pending,
        })
    }

    /// Writes for each frame whether it is free.
    pub fn mark_free(&self, free: &mut Vec<bool>)
        requires room { self.now.frames ≤ vec_capacity free.old }
        ensures flags { free.new.items ≡ free_in (state_in self.now).zone (state_in self.now).phases }
        ensures room { vec_capacity free.new ≡ vec_capacity free.old }
    {
        free.clear();
        for frame in 0..self.frames {
            free.push_reserved(is_free(self.phase(frame)));
        }
    }
}
