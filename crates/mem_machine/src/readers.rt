//! Readers of the machine.

ghost use Rattle.std.specs.Prelude.{◌≡◌, ◌<◌, ◌≤◌, ◌↔◌, IsTrue};
ghost use Rattle.group_tree.specs.{most_groups, has_group, room_of};
ghost use Rattle.group_charge.specs.Charges.{current_of};
ghost use Rattle.zone_blocks.specs.Areas.{AreMaximalBlocks};
ghost use Rattle.mem_machine.specs.Clean.{clean_pages};
ghost use Rattle.mem_machine.specs.FrameStates.{frame_state_at, free_of, place_of, headed_unit};
ghost use Rattle.mem_machine.specs.Machines.{HeadsKeptUnit, IsConsistent, frames_charged, is_killed};

use crate::counts::Counts;
use crate::frame_state::{FrameState, Place};
use crate::machine::Machine;
use cpu_part::BootName;
use frame_word::Frame;
use group_charge::charges::Charges;
use group_tree::group::GroupId;
use step_rules::phase::ChargedUnit;
use zone_blocks::walk::Walk;

impl<N: BootName> Machine<N> {
    /// The place of the frame: free, lent to a CPU, or charged to a group.
    pub fn place(&self, frame: Frame) -> Place
        requires { frame < N.table.frames }
        ensures place { result ≡ place_of (frame_state_at self.now.frame_states frame) }
        ensures consistent { IsConsistent N.table self.now }
    {
        self.frame_states[frame.number() as usize].place()
    }

    /// The records of all frames, by their numbers.
    pub fn frame_states(&self) -> &[FrameState]
        ensures frame_states { result.now ≡ self.now.frame_states }
        ensures consistent { IsConsistent N.table self.now }
    {
        self.frame_states.as_slice()
    }

    /// The maximal free blocks, by order and then by address.
    pub fn blocks(&self) -> Walk<'_>
        ensures blocks { result ≡ self.now.blocks }
        ensures areas { AreMaximalBlocks (free_of self.now.frame_states) self.now.blocks }
    {
        self.zone.blocks()
    }

    /// The unit that the frame heads; None exactly if it heads none.
    pub fn unit(&self, frame: Frame) -> Option<ChargedUnit>
        requires { frame < N.table.frames }
        ensures { result ≡ headed_unit (frame_state_at self.now.frame_states frame) }
    {
        match self.frame_states[frame.number() as usize] {
            FrameState::Head(unit) => Some(unit),
            _ => None,
        }
    }

    /// Whether the frame heads a kept unit, which is on a list of its group.
    pub fn is_kept(&self, frame: Frame) -> bool
        requires { frame < N.table.frames }
        ensures { IsTrue result ↔ HeadsKeptUnit self.now frame }
    {
        self.links.home(frame.number()).is_some()
    }

    /// How many groups there may be at once, the root included. Their numbers are below this.
    pub fn room(&self) -> u32
        ensures groups { result ≡ room_of self.now.ledger.groups }
        ensures few { result ≤ most_groups }
    {
        self.charges.tree().room()
    }

    /// Whether the group of this number is killed.
    pub fn is_killed(&self, group: GroupId) -> bool
        ensures { result ≡ is_killed self.now.killed group }
    {
        match self.killed.get(group.number() as usize) {
            Some(killed) => *killed,
            None => false,
        }
    }

    /// The memory that the group and its descendants use now, in pages (memory.current).
    pub fn current(&self, group: GroupId) -> u32
        requires { IsTrue (has_group self.now.ledger.groups group) }
        ensures { result ≡ current_of self.now.ledger group }
    {
        self.charges.current(group)
    }

    /// The groups, and what is charged to them.
    pub fn charges(&self) -> &Charges
        ensures { result.now ≡ self.now.ledger }
    {
        &self.charges
    }

    /// How many units ended, were freed, or were missed since the boot.
    pub fn counts(&self) -> Counts
        ensures { result ≡ self.now.counts }
    {
        self.counts
    }

    /// How many clean pages the group keeps: those of the units on its two lists that aren't dirty.
    pub fn clean_pages(&self, group: GroupId) -> u64
        ensures { result ≡ clean_pages self.now group }
    {
        match self.clean.get(group.number() as usize) {
            Some(pages) => *pages,
            None => 0,
        }
    }

    /// Whether a reclaim begins with a pass of shares (`Choices::is_proportional`).
    pub fn is_proportional(&self) -> bool
        ensures choice { result ≡ self.now.is_proportional }
        ensures boot { result ≡ N.table.choices.is_proportional }
    {
        self.is_proportional
    }

    /// How many frames are charged to the group itself, those of units that aren't kept any more included. These are
    /// its pages without those booked to its stocks.
    pub fn frames_of(&self, group: GroupId) -> u64
        ensures { result ≡ frames_charged self.now.frame_states group }
    {
        if !self.charges.tree().contains(group) {
            return 0;
        }
        u64::from(self.charges.own_pages(group) - self.sums[group.number() as usize])
    }
}
