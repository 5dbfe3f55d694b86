//! The parts of the first machine.

ghost use Rattle.std.specs.Prelude.{◌≡◌, ◌≤◌, true, false, replicate, length, IfOk};
ghost use Rattle.zone_blocks.specs.Areas.{AreMaximalBlocks};
ghost use Rattle.lru_lists.specs.Queue.{AreNowhere};
ghost use Rattle.group_charge.specs.{no_notes};
ghost use Rattle.mem_machine.specs.Machines.{boot_ledger, boot_room};
ghost use Rattle.mem_machine.specs.Start.{AreEmpty};
ghost use Rattle.mem_machine.specs.declared.frame_state.FrameState.TheVariants.{Free};
ghost use Rattle.group_tree.specs.Bounds.{most_groups};

use crate::frame_state::FrameState;
use group_charge::charges::Charges;
use group_charge::notes::Notes;
use group_tree::group::MAX_GROUPS;
use lru_lists::links::Links;
use lru_lists::lru::Lru;
use std::alloc::{AllocError, Global};
use std::cmp::min;
use zone_blocks::buddy::Buddy;

/// The parts of the first machine that take memory.
#[derive(Drop)]
pub(crate) struct Parts {
    pub(crate) zone: Buddy,
    pub(crate) frame_states: Vec<FrameState>,
    pub(crate) charges: Charges,
    pub(crate) links: Links,
    pub(crate) lists: Vec<Lru>,
    pub(crate) clean: Vec<u64>,
    pub(crate) sums: Vec<u32>,
    pub(crate) killed: Vec<bool>,
    pub(crate) notes: Notes,
}

/// All parts that take memory. What a failure has to drop grows from part to part, and with it the time of this
/// function's check, so the parts that are longest to drop come last.
pub(crate) fn new_parts(alloc: Global, frames: u32, groups: u32) -> Result<Parts, AllocError>
    ensures free { IfOk result (λ parts. parts.zone.free ≡ replicate frames true) }
    ensures areas { IfOk result (λ parts. AreMaximalBlocks parts.zone.free parts.zone.blocks) }
    ensures frame_states { IfOk result (λ parts. parts.frame_states.items ≡ replicate frames Free) }
    ensures frames { IfOk result (λ parts. length parts.links ≡ frames) }
    ensures nowhere { IfOk result (λ parts. AreNowhere parts.links) }
    ensures charges { IfOk result (λ parts. parts.charges ≡ boot_ledger groups) }
    ensures lists { IfOk result (λ parts. AreEmpty parts.lists.items (boot_room groups)) }
    ensures clean { IfOk result (λ parts. parts.clean.items ≡ replicate (boot_room groups) 0) }
    ensures sums { IfOk result (λ parts. parts.sums.items ≡ replicate (boot_room groups) 0) }
    ensures killed { IfOk result (λ parts. parts.killed.items ≡ replicate (boot_room groups) false) }
    ensures notes { IfOk result (λ parts. parts.notes ≡ no_notes) }
{
    let notes = Notes::new(alloc)?;
    let below = min(groups, MAX_GROUPS as u32).saturating_sub(1);
    let (lists, clean, sums, killed) = group_tables(alloc, below + 1)?;
    let charges = Charges::new(alloc, below)?;
    let (zone, frame_states, links) = frame_parts(alloc, frames)?;
    Ok(Parts {
        zone,
        frame_states,
        charges,
        links,
        lists,
        clean,
        sums,
        killed,
        notes,
    })
}

// The parts that have a place for each frame: the zone, the records and the links. All frames are free and on no list.
fn frame_parts(alloc: Global, frames: u32) -> Result<(Buddy, Vec<FrameState>, Links), AllocError>
    ensures free { IfOk result (λ parts. parts.0.free ≡ replicate frames true) }
    ensures areas { IfOk result (λ parts. AreMaximalBlocks parts.0.free parts.0.blocks) }
    ensures frame_states { IfOk result (λ parts. parts.1.items ≡ replicate frames Free) }
    ensures frames { IfOk result (λ parts. length parts.2 ≡ frames) }
    ensures nowhere { IfOk result (λ parts. AreNowhere parts.2) }
{
    let links = Links::new(alloc, frames)?;
    let frame_states = free_frame_states(alloc, frames)?;
    let zone = Buddy::new(alloc, frames)?;
    Ok((zone, frame_states, links))
}

// The tables with an entry for each of `room` group numbers: two empty lists, how many clean pages are on them, the
// pages booked to the group's stocks, and the mark of a killed group.
fn group_tables(
    alloc: Global,
    room: u32,
) -> Result<(Vec<Lru>, Vec<u64>, Vec<u32>, Vec<bool>), AllocError>
    requires { room ≤ most_groups }
    ensures lists { IfOk result (λ tables. AreEmpty tables.0.items room) }
    ensures clean { IfOk result (λ tables. tables.1.items ≡ replicate room 0) }
    ensures sums { IfOk result (λ tables. tables.2.items ≡ replicate room 0) }
    ensures killed { IfOk result (λ tables. tables.3.items ≡ replicate room false) }
{
    let killed = no_marks(alloc, room)?;
    let sums = no_sums(alloc, room)?;
    let clean = no_counts(alloc, room)?;
    let lists = empty_lists(alloc, room)?;
    Ok((lists, clean, sums, killed))
}

// A record for each frame, all free.
fn free_frame_states(alloc: Global, frames: u32) -> Result<Vec<FrameState>, AllocError>
    ensures { IfOk result (λ frame_states. frame_states.items ≡ replicate frames Free) }
{
    vec![in alloc; FrameState::Free; frames as usize]
}

// So many marks, all false.
fn no_marks(alloc: Global, room: u32) -> Result<Vec<bool>, AllocError>
    ensures { IfOk result (λ marks. marks.items ≡ replicate room false) }
{
    vec![in alloc; false; room as usize]
}

// So many sums, all 0.
fn no_sums(alloc: Global, room: u32) -> Result<Vec<u32>, AllocError>
    ensures { IfOk result (λ sums. sums.items ≡ replicate room 0) }
{
    vec![in alloc; 0; room as usize]
}

// So many counts, all 0.
fn no_counts(alloc: Global, room: u32) -> Result<Vec<u64>, AllocError>
    ensures { IfOk result (λ counts. counts.items ≡ replicate room 0) }
{
    vec![in alloc; 0; room as usize]
}

// Two empty lists for each of `room` group numbers.
fn empty_lists(alloc: Global, room: u32) -> Result<Vec<Lru>, AllocError>
    requires { room ≤ most_groups }
    ensures { IfOk result (λ lists. AreEmpty lists.items room) }
{
    let mut lists = Vec::with_capacity(alloc, room as usize)?;
    for owner in 0..room as u16 {
        lists.push_reserved(Lru::new(owner));
    }
    Ok(lists)
}
