//! What is behind the zone's lock, as rows. A call that reads returns what the state of the rules has, and one that
//! writes changes nothing but what its name says.

ghost use Rattle.std.specs.Prelude.{◌≡◌, ◌+◌, ◌-◌, ◌<◌, ◌≤◌, ◌^◌, Some, None, MatchOption, IfOk, length, vec_len};
ghost use Rattle.std.specs.List.{slice_get};
ghost use Rattle.step_rules.specs.State.{at_boot, front_of, with_at, is_cpu, is_frame};
ghost use Rattle.step_rules.specs.After.{with_listed, with_unlisted, paid, credited, with_back, with_report, absorbed};
ghost use Rattle.step_rules.specs.After.{filled, drained, with_phase, with_part, with_references, with_pending};
ghost use Rattle.mem_core.specs.Rows.{state_in};
ghost use Rattle.mem_core.specs.Rooms.{FitsZone};

use crate::phase_table::PhaseTable;
use crate::seat::{
    SeatRow, absorb_pages, credit, drain_stock, fill_stock, list_frame, pay_front, push_back_frame,
    report_pages, set_references, unlist_frame,
};
use group_tree::group::GroupId;
use group_tree::tree::Tree;
use step_rules::phase::{Hold, Phase};

/// What is behind the zone's lock, as plain lists and numbers.
#[derive(Drop)]
pub struct Rows {
    /// Frames of the zone, numbered from 0.
    pub frames: u32,
    /// CPUs, with the seats from 1 on.
    pub cpus: u32,
    /// Groups that the zone has room for.
    pub groups: u32,
    /// Who holds the lock.
    pub hold: Hold,
    /// The groups, with their limits.
    pub tree: Tree,
    /// For each group number whether the group is killed.
    pub killed: Vec<bool>,
    /// The phase of each frame.
    pub phases: PhaseTable,
    /// What is kept of each seat; the zone's own is the first.
    pub seats: Vec<SeatRow>,
    /// For each group number the pages that are pending.
    pub pending: Vec<u128>,
}

impl Rows {
    /// The seat is that of a CPU.
    pub fn is_cpu(&self, seat: u32) -> bool
        ensures { result ≡ is_cpu (state_in self.now).zone seat }
    {
        1 <= seat && seat <= self.cpus
    }

    /// The frame is one of the zone.
    pub fn is_frame(&self, frame: u32) -> bool
        ensures { result ≡ is_frame (state_in self.now).zone frame }
    {
        frame < self.frames
    }

    /// The phase of a frame; InZone if the zone doesn't have it.
    pub fn phase(&self, frame: u32) -> Phase
        ensures { result ≡ (state_in self.now).phases frame }
    {
        self.phases.get(frame)
    }

    /// Whether a group of this number is killed.
    #[tactic(auto, using(crate::proofs::Looking::past_default))]
    pub fn is_killed(&self, group: GroupId) -> bool
        ensures { result ≡ (state_in self.now).killed group }
    {
        let number = group.number() as usize;
        number < self.killed.len() && self.killed[number]
    }

    /// The pages that are pending for a group of this number.
    #[tactic(auto, using(crate::proofs::Looking::past_default))]
    pub fn pending(&self, group: GroupId) -> u128
        ensures { result ≡ (state_in self.now).pending group }
    {
        let number = group.number() as usize;
        if number < self.pending.len() {
            self.pending[number]
        } else {
            0
        }
    }

    /// What is kept of a seat, if it exists.
    #[tactic(auto, using(crate::proofs::Looking::got, std::proofs::lemmas::Option::slice_get_past))]
    pub fn seat(&self, seat: u32) -> Option<&SeatRow>
        ensures { MatchOption result (slice_get self.now.seats.items seat ≡ None)
            (λ s. slice_get self.now.seats.items seat ≡ Some s.now) }
    {
        if (seat as usize) < self.seats.len() {
            Some(&self.seats[seat as usize])
        } else {
            None
        }
    }

    /// The references of a seat on a frame.
    pub fn references(&self, seat: u32, frame: u32) -> u32
        ensures { result ≡ (state_in self.now).references seat frame }
    {
        match self.seat(seat) {
            None => 0,
            Some(row) => row.references.get(frame),
        }
    }

    /// The front of a CPU's list, or 0 if the list is empty.
    pub fn front(&self, cpu: u32) -> u32
        ensures { result ≡ front_of ((state_in self.now).parts cpu).list }
    {
        match self.seat(cpu) {
            None => 0,
            Some(row) => { if row.list.len() == 0 { 0 } else { row.list[0] } }
        }
    }

    /// How many frames are on a CPU's list.
    pub fn list_len(&self, cpu: u32) -> usize
        ensures { result ≡ length ((state_in self.now).parts cpu).list }
    {
        match self.seat(cpu) {
            None => 0,
            Some(row) => row.list.len(),
        }
    }

    /// How many fresh frames a CPU has.
    pub fn fresh_len(&self, cpu: u32) -> usize
        ensures { result ≡ length ((state_in self.now).parts cpu).fresh }
    {
        match self.seat(cpu) {
            None => 0,
            Some(row) => row.fresh.len(),
        }
    }

    /// How many back frames a CPU has.
    pub fn back_len(&self, cpu: u32) -> usize
        ensures { result ≡ length ((state_in self.now).parts cpu).back }
    {
        match self.seat(cpu) {
            None => 0,
            Some(row) => row.back.len(),
        }
    }

    /// The group of the last fill of a CPU's stock.
    pub fn stock_group(&self, cpu: u32) -> Option<GroupId>
        ensures { result ≡ ((state_in self.now).parts cpu).stock.group }
    {
        match self.seat(cpu) {
            None => None,
            Some(row) => row.group,
        }
    }

    /// The pages of a CPU's stock.
    pub fn stock_pages(&self, cpu: u32) -> u128
        ensures { result ≡ ((state_in self.now).parts cpu).stock.pages }
    {
        match self.seat(cpu) {
            None => 0,
            Some(row) => row.pages,
        }
    }

    /// Whether a CPU's stock was drained since its last fill.
    pub fn is_drained(&self, cpu: u32) -> bool
        ensures { result ≡ ((state_in self.now).parts cpu).stock.is_drained }
    {
        match self.seat(cpu) {
            None => false,
            Some(row) => row.is_drained,
        }
    }

    /// A CPU's book: the pages filled for it and neither drained nor absorbed.
    pub fn book(&self, cpu: u32) -> u128
        ensures { result ≡ ((state_in self.now).parts cpu).book }
    {
        match self.seat(cpu) {
            None => 0,
            Some(row) => row.book,
        }
    }

    /// The pages of fresh frames that a CPU passed back and didn't report.
    pub fn unreported(&self, cpu: u32) -> u128
        ensures { result ≡ ((state_in self.now).parts cpu).unreported }
    {
        match self.seat(cpu) {
            None => 0,
            Some(row) => row.unreported,
        }
    }

    /// The pages that a CPU reported and that aren't absorbed.
    pub fn reported(&self, cpu: u32) -> u128
        ensures { result ≡ ((state_in self.now).parts cpu).reported }
    {
        match self.seat(cpu) {
            None => 0,
            Some(row) => row.reported,
        }
    }

    /// The frames on a CPU's list, the front first.
    pub fn list(&self, cpu: u32) -> &[u32]
        ensures { result.now ≡ ((state_in self.now).parts cpu).list }
    {
        match self.seat(cpu) {
            None => &[],
            Some(row) => row.list.as_slice(),
        }
    }

    /// A CPU's fresh frames, the oldest first.
    pub fn fresh(&self, cpu: u32) -> &[u32]
        ensures { result.now ≡ ((state_in self.now).parts cpu).fresh }
    {
        match self.seat(cpu) {
            None => &[],
            Some(row) => row.fresh.as_slice(),
        }
    }

    /// A CPU's back frames, the oldest first.
    pub fn back(&self, cpu: u32) -> &[u32]
        ensures { result.now ≡ ((state_in self.now).parts cpu).back }
    {
        match self.seat(cpu) {
            None => &[],
            Some(row) => row.back.as_slice(),
        }
    }

    /// Sets who holds the lock.
    pub fn set_hold(&mut self, hold: Hold)
        requires fits { FitsZone self.old }
        ensures state { state_in self.new ≡ record (state_in self.old) { hold = hold } }
        ensures fits { FitsZone self.new }
    {
        self.hold = hold;
    }

    /// Sets the phase of a frame.
    pub fn set_phase(&mut self, frame: u32, phase: Phase)
        requires fits { FitsZone self.old }
        requires there { frame < self.old.frames }
        ensures state { state_in self.new ≡ with_phase (state_in self.old) frame phase }
        ensures fits { FitsZone self.new }
    {
        self.phases.set(frame, phase);
    }

    /// Sets how many pages are pending for a group: granted to it, and not yet placed, filled into a stock or
    /// ungranted.
    pub fn set_pending(&mut self, group: GroupId, pages: u128)
        requires fits { FitsZone self.old }
        ensures state { state_in self.new ≡ with_pending (state_in self.old) group pages }
        ensures fits { FitsZone self.new }
    {
        self.pending[group.number() as usize] = pages;
    }

    /// Sets whether a group is killed.
    pub fn set_killed(&mut self, group: GroupId, is_killed: bool)
        requires fits { FitsZone self.old }
        ensures state { state_in self.new
            ≡ record (state_in self.old) { killed = with_at (state_in self.old).killed group is_killed } }
        ensures fits { FitsZone self.new }
    {
        self.killed[group.number() as usize] = is_killed;
    }

    /// Sets the references of a seat on a frame.
    pub fn set_references(&mut self, seat: u32, frame: u32, count: u32)
        requires fits { FitsZone self.old }
        requires seat { seat ≤ self.old.cpus }
        requires there { frame < self.old.frames }
        requires few { count ≤ 255 }
        ensures state { state_in self.new ≡ with_references (state_in self.old) seat frame count }
        ensures fits { FitsZone self.new }
    {
        set_references(&mut self.seats[seat as usize], frame, count);
    }

    /// Puts a frame at the end of a CPU's list.
    pub fn list_frame(&mut self, cpu: u32, frame: u32)
        requires fits { FitsZone self.old }
        requires cpu { cpu ≤ self.old.cpus }
        requires room { length ((state_in self.old).parts cpu).list < self.old.frames }
        ensures state { state_in self.new
            ≡ with_part (state_in self.old) cpu (with_listed ((state_in self.old).parts cpu) frame) }
        ensures fits { FitsZone self.new }
    {
        list_frame(&mut self.seats[cpu as usize], frame);
    }

    /// Removes a frame from all of a CPU's lists; if it was fresh, one more page is unreported.
    pub fn unlist_frame(&mut self, cpu: u32, frame: u32, was_fresh: bool)
        requires fits { FitsZone self.old }
        requires cpu { cpu ≤ self.old.cpus }
        requires few { ((state_in self.old).parts cpu).unreported < 2 ^ 100 }
        ensures state { state_in self.new
            ≡ with_part (state_in self.old) cpu (with_unlisted ((state_in self.old).parts cpu) frame was_fresh) }
        ensures fits { FitsZone self.new }
    {
        unlist_frame(&mut self.seats[cpu as usize], frame, was_fresh);
    }

    /// Makes the front of a CPU's list fresh, paid with one page of its stock.
    pub fn pay(&mut self, cpu: u32)
        requires fits { FitsZone self.old }
        requires cpu { cpu ≤ self.old.cpus }
        requires some { 1 ≤ length ((state_in self.old).parts cpu).list }
        requires page { 1 ≤ ((state_in self.old).parts cpu).stock.pages }
        requires room { length ((state_in self.old).parts cpu).fresh < 32 }
        ensures state { state_in self.new ≡ with_part (state_in self.old) cpu (paid ((state_in self.old).parts cpu)) }
        ensures fits { FitsZone self.new }
    {
        pay_front(&mut self.seats[cpu as usize]);
    }

    /// Moves a fresh frame to the end of a CPU's list, and its page into the stock.
    pub fn credit(&mut self, cpu: u32, frame: u32)
        requires fits { FitsZone self.old }
        requires cpu { cpu ≤ self.old.cpus }
        requires room { length ((state_in self.old).parts cpu).list < self.old.frames }
        requires few { ((state_in self.old).parts cpu).stock.pages < 2 ^ 100 }
        ensures state { state_in self.new
            ≡ with_part (state_in self.old) cpu (credited ((state_in self.old).parts cpu) frame) }
        ensures fits { FitsZone self.new }
    {
        credit(&mut self.seats[cpu as usize], frame);
    }

    /// Puts a frame at the end of a CPU's back frames.
    pub fn push_back_frame(&mut self, cpu: u32, frame: u32)
        requires fits { FitsZone self.old }
        requires cpu { cpu ≤ self.old.cpus }
        requires room { length ((state_in self.old).parts cpu).back < 256 }
        ensures state { state_in self.new
            ≡ with_part (state_in self.old) cpu (with_back ((state_in self.old).parts cpu) frame) }
        ensures fits { FitsZone self.new }
    {
        push_back_frame(&mut self.seats[cpu as usize], frame);
    }

    /// Reports this many of a CPU's unreported pages. Sums of pages stay far below 2^100: each step adds less than
    /// 2^32, and there are fewer than 2^64 steps.
    pub fn report_pages(&mut self, cpu: u32, pages: u32)
        requires fits { FitsZone self.old }
        requires cpu { cpu ≤ self.old.cpus }
        requires enough { pages ≤ ((state_in self.old).parts cpu).unreported }
        requires few { ((state_in self.old).parts cpu).reported < 2 ^ 100 }
        ensures state { state_in self.new
            ≡ with_part (state_in self.old) cpu (with_report ((state_in self.old).parts cpu) pages) }
        ensures fits { FitsZone self.new }
    {
        report_pages(&mut self.seats[cpu as usize], pages);
    }

    /// Subtracts the pages that a CPU has reported from its book, and returns how many there were.
    pub fn absorb_pages(&mut self, cpu: u32) -> u128
        requires fits { FitsZone self.old }
        requires cpu { cpu ≤ self.old.cpus }
        requires booked { ((state_in self.old).parts cpu).reported ≤ ((state_in self.old).parts cpu).book }
        ensures pages { result ≡ ((state_in self.old).parts cpu).reported }
        ensures state { let part = (state_in self.old).parts cpu in state_in self.new
            ≡ with_part (state_in self.old) cpu (absorbed part part.reported) }
        ensures fits { FitsZone self.new }
    {
        absorb_pages(&mut self.seats[cpu as usize])
    }

    /// Fills this many pages into a CPU's stock, for a group.
    pub fn fill_stock(&mut self, cpu: u32, group: GroupId, pages: u32)
        requires fits { FitsZone self.old }
        requires cpu { cpu ≤ self.old.cpus }
        requires few { ((state_in self.old).parts cpu).book < 2 ^ 100 }
        ensures state { state_in self.new
            ≡ with_part (state_in self.old) cpu (filled ((state_in self.old).parts cpu) group pages) }
        ensures fits { FitsZone self.new }
    {
        fill_stock(&mut self.seats[cpu as usize], group, pages);
    }

    /// Drains all pages from a CPU's stock, and returns how many they are.
    pub fn drain_stock(&mut self, cpu: u32) -> u128
        requires fits { FitsZone self.old }
        requires cpu { cpu ≤ self.old.cpus }
        requires booked { ((state_in self.old).parts cpu).stock.pages ≤ ((state_in self.old).parts cpu).book }
        ensures pages { result ≡ ((state_in self.old).parts cpu).stock.pages }
        ensures state { let part = (state_in self.old).parts cpu in state_in self.new
            ≡ with_part (state_in self.old) cpu (drained part part.stock.pages) }
        ensures fits { FitsZone self.new }
    {
        drain_stock(&mut self.seats[cpu as usize])
    }
}
