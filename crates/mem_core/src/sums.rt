//! Sums and tests over all frames, seats and groups, each exact. Of what they add, the frames are counted as they
//! change, and seats and groups at each call.

ghost use Rattle.std.specs.Prelude.{◌≡◌, ◌+◌, ◌*◌, ◌^◌, ◌<◌, ◌≤◌, ℕ, length, IfNone, IfSome, IsTrue, true, if◌then◌else◌};
ghost use Rattle.group_tree.specs.{most_groups, has_group, in_subtree, has_room, PathHasRoom, IsLowestOver, is_in_subtree};
ghost use Rattle.step_rules.specs.{live_references, pins_of, frames_kept, stock_in_subtree};
ghost use Rattle.step_rules.specs.{pages_prepaid, pages_pending, usage_of, is_of_group, rests, nothing_passes};
ghost use Rattle.step_rules.specs.{no_frame_passes, no_page_pends};
ghost use Rattle.mem_core.specs.Rows.{state_in};
ghost use Rattle.zone_blocks.specs.Config.{most_frames};
ghost use Rattle.std.specs.List.{slice_index_or};
ghost use Rattle.mem_core.specs.Rooms.{FitsZone, IsBelowBounds};

use crate::phases::{is_passing, passes_back, passes_out};
use crate::rows::Rows;
use group_tree::group::{GroupId, MAX_GROUPS};
use zone_blocks::config::Config;

/// Whether the stock is of a group, and of this one.
pub fn is_of_group(stock: Option<GroupId>, group: GroupId) -> bool
    ensures { result ≡ is_of_group stock group }
{
    match stock {
        None => false,
        Some(of) => of.number() == group.number(),
    }
}

impl Rows {
    /// All references on a frame.
    #[tactic(auto, using(crate::proofs::Adding::sum_start, crate::proofs::Adding::sum_next))]
    pub fn live_references(&self, frame: u32) -> u32
        requires fits { FitsZone self.now }
        requires bounded { IsBelowBounds (state_in self.now) }
        ensures { result ≡ live_references (state_in self.now) frame }
    {
        let mut sum = 0u32;
        for seat in 0..self.cpus + 1 {
            sum += self.references(seat, frame);
        }
        sum
    }

    /// The references of a seat on all frames; a CPU's are its pins.
    pub fn pin_count(&self, seat: u32) -> u32
        requires fits { FitsZone self.now }
        requires bounded { IsBelowBounds (state_in self.now) }
        ensures pins { result ≡ pins_of (state_in self.now) seat }
        ensures bound { result ≤ 255 * most_frames }
    {
        match self.seat(seat) {
            None => 0,
            Some(row) => row.references.sum(),
        }
    }

    /// The frame is not in transit to or from the CPU.
    fn rests(&self, cpu: u32, frame: u32) -> bool
        ensures { result ≡ rests (state_in self.now) cpu frame }
    {
        !passes_out(self.phase(frame), cpu) && !passes_back(self.phase(frame), cpu)
    }

    /// No frame is in transit to or from the CPU. If the rows fit a zone that has the CPU, no frame is looked at.
    #[tactic(auto, using(crate::proofs::Adding::all_is, crate::proofs::Adding::all_not))]
    pub fn nothing_passes(&self, cpu: u32) -> bool
        ensures { result ≡ nothing_passes (state_in self.now) cpu }
    {
        if self.phases.len() == self.frames as usize && cpu <= Config::MAX_CPUS {
            return self.phases.in_transit(cpu) == 0;
        }
        for frame in 0..self.frames {
            if !self.rests(cpu, frame) {
                return false;
            }
        }
        true
    }

    /// No frame is in transit. If the rows fit the zone, no frame is looked at.
    #[tactic(auto, using(crate::proofs::Adding::all_is, crate::proofs::Adding::all_not))]
    pub fn no_frame_passes(&self) -> bool
        ensures { result ≡ no_frame_passes (state_in self.now) }
    {
        if self.phases.len() == self.frames as usize {
            return self.phases.at_rest() == self.frames;
        }
        for frame in 0..self.frames {
            if is_passing(self.phase(frame)) {
                return false;
            }
        }
        true
    }

    /// No page of any group is pending.
    #[tactic(auto, using(crate::proofs::Adding::all_is, crate::proofs::Adding::all_not))]
    pub fn no_page_pends(&self) -> bool
        requires fits { FitsZone self.now }
        ensures { result ≡ no_page_pends (state_in self.now) }
    {
        for number in 0..MAX_GROUPS {
            if self.pending[number] != 0 {
                return false;
            }
        }
        true
    }

    /// There is a group, and it is in the subtree.
    pub fn is_in_subtree(&self, group: GroupId, keeper: Option<GroupId>) -> bool
        ensures { result ≡ is_in_subtree self.now.tree group keeper }
    {
        match keeper {
            None => false,
            Some(below) => self.in_subtree(group, below),
        }
    }

    /// The second group is the first or below it, and both exist.
    #[tactic(auto, using(crate::proofs::Adding::above_there, crate::proofs::Adding::below_there))]
    pub fn in_subtree(&self, group: GroupId, below: GroupId) -> bool
        ensures { result ≡ in_subtree self.now.tree group below }
    {
        if !self.tree.contains(group) || !self.tree.contains(below) {
            return false;
        }
        self.tree.in_subtree(group, below)
    }

    // How many frames a group keeps, if it is in the subtree.
    fn kept_in_subtree(&self, kept: &[u32], group: GroupId, number: u32) -> u128
        requires number { number < most_groups }
        requires size { length kept.now ≡ most_groups + 1 }
        requires few { (k : ℕ) → slice_index_or kept.now k 0 ≤ most_frames }
        ensures kept { result ≡ (if in_subtree self.now.tree group number then slice_index_or kept.now
            (number + 1) 0 else 0) }
        ensures few { result ≤ most_frames }
    {
        match GroupId::of(number) {
            None => 0,
            Some(below) => {
                if self.in_subtree(group, below) {
                    u128::from(kept[below.number() as usize + 1])
                } else {
                    0
                }
            }
        }
    }

    // How many frames the group's subtree keeps.
    #[tactic(auto, using(crate::proofs::Adding::sum_start, crate::proofs::Adding::sum_next))]
    fn frames_kept(&self, group: GroupId) -> u128
        requires fits { FitsZone self.now }
        ensures kept { result ≡ frames_kept self.now.tree (state_in self.now).phases self.now.frames group }
        ensures few { result ≤ most_groups * most_frames }
    {
        let _groups = self.tree.groups(); // Called for its contract: no group's number is beyond the room.
        let mut sum = 0u128;
        let kept = self.phases.kept();
        for number in 0..self.tree.room() {
            sum += self.kept_in_subtree(kept, group, number);
        }
        sum
    }

    // The pages of a CPU's stock, if the stock is of a group of the subtree.
    fn stock_in_subtree(&self, group: GroupId, cpu: u32) -> u128
        requires bounded { IsBelowBounds (state_in self.now) }
        ensures pages { result ≡ stock_in_subtree self.now.tree group ((state_in self.now).parts cpu) }
        ensures few { result ≤ 2 ^ 96 }
    {
        if self.is_in_subtree(group, self.stock_group(cpu)) {
            self.stock_pages(cpu)
        } else {
            0
        }
    }

    // The pages in the stocks of the subtree's groups.
    #[tactic(auto, using(crate::proofs::Adding::sum_start, crate::proofs::Adding::sum_next))]
    fn pages_prepaid(&self, group: GroupId) -> u128
        requires fits { FitsZone self.now }
        requires bounded { IsBelowBounds (state_in self.now) }
        ensures pages { result ≡ pages_prepaid self.now.tree (state_in self.now).parts self.now.cpus group }
        ensures few { result ≤ 65 * 2 ^ 96 }
    {
        let mut sum = 0u128;
        for cpu in 0..self.cpus + 1 {
            sum += self.stock_in_subtree(group, cpu);
        }
        sum
    }

    // The pages pending for one group, if it is in the subtree.
    fn pending_in_subtree(&self, group: GroupId, number: u32) -> u128
        requires number { number < most_groups }
        requires bounded { IsBelowBounds (state_in self.now) }
        ensures pages { result ≡ (if in_subtree self.now.tree group number then (state_in self.now).pending
            number else 0) }
        ensures few { result ≤ 2 ^ 96 }
    {
        match GroupId::of(number) {
            None => 0,
            Some(below) => {
                if self.is_in_subtree(group, Some(below)) {
                    self.pending(below)
                } else {
                    0
                }
            }
        }
    }

    // The pages pending for the subtree's groups.
    #[tactic(auto, using(crate::proofs::Adding::sum_start, crate::proofs::Adding::sum_next))]
    fn pages_pending(&self, group: GroupId) -> u128
        requires bounded { IsBelowBounds (state_in self.now) }
        ensures pages { result ≡ pages_pending self.now.tree (state_in self.now).pending group }
        ensures few { result ≤ most_groups * 2 ^ 96 }
    {
        let _groups = self.tree.groups(); // Called for its contract: no group's number is beyond the room.
        let mut sum = 0u128;
        for number in 0..self.tree.room() {
            sum += self.pending_in_subtree(group, number);
        }
        sum
    }

    /// The usage of a group, in pages: the frames that its subtree keeps, the pages prepaid for it and those pending.
    pub fn usage(&self, group: GroupId) -> u128
        requires fits { FitsZone self.now }
        requires bounded { IsBelowBounds (state_in self.now) }
        ensures usage { result ≡ usage_of (state_in self.now) group }
        ensures few { result < 2 ^ 108 }
    {
        self.frames_kept(group) + self.pages_prepaid(group) + self.pages_pending(group)
    }

    // Whether the usage with this many more pages is at most the group's own limit.
    fn has_room(&self, group: GroupId, pages: u32) -> bool
        requires fits { FitsZone self.now }
        requires bounded { IsBelowBounds (state_in self.now) }
        requires there { IsTrue (has_group self.now.tree group) }
        ensures { result ≡ has_room self.now.tree (usage_of (state_in self.now)) group pages }
    {
        match self.tree.max(group) {
            None => true,
            Some(limit) => self.usage(group) + u128::from(pages) <= u128::from(limit),
        }
    }

    /// The lowest group, from this one up to the root, whose limit has no room for the pages.
    pub fn lowest_over(&self, group: GroupId, pages: u32) -> Option<GroupId>
        requires fits { FitsZone self.now }
        requires bounded { IsBelowBounds (state_in self.now) }
        requires there { IsTrue (has_group self.now.tree group) }
        ensures none { IfNone result (PathHasRoom self.now.tree (usage_of (state_in self.now)) group pages) }
        ensures some { IfSome result (IsLowestOver self.now.tree (usage_of (state_in self.now)) group pages) }
    {
        let _ = self.tree.groups(); // Called for its contract: they are those of a tree.
        for above in self.tree.ancestors(group) {
            if !self.has_room(above, pages) {
                return Some(above);
            }
        }
        None
    }
}
