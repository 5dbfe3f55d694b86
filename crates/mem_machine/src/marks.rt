//! Noting the use of kept units on the lists of their groups.

ghost use Rattle.std.specs.Prelude.{◌<◌, []};
ghost use Rattle.boot_words.specs.Pasts.{IsHeld};
ghost use Rattle.mem_machine.specs.Machines.{HeadsKeptUnit};
ghost use Rattle.mem_machine.specs.Marks.{Dirties, TouchesUnit};
ghost use Rattle.mem_machine.specs.Local.{Makes};

use crate::frame_state::FrameState;
use crate::lists::count_dirt;
use crate::machine::Machine;
use cpu_part::BootName;
use frame_word::Frame;
use lru_lists::laws as list_laws;
use lru_lists::lru::Touched;

impl<N: BootName> Machine<N> {
    /// Notes that a kept unit was used. An inactive unit that isn't marked is marked. Any other unit moves, unmarked,
    /// to the newest end of its group's active list. `head` is the unit's head.
    pub fn touch(&mut self, head: Frame) -> Touched
        requires frame { head < N.table.frames }
        requires kept { HeadsKeptUnit self.old head }
        ensures touches { TouchesUnit head result self.old self.new }
        ensures steps { Makes N.table self.old [] self.new }
    {
        let at = head.number();
        let Some(home) = self.links.home(at) else {
            unreachable!()
        };
        list_laws::others_stay_linked();
        list_laws::one_of_all_changes();
        let mut lists = self.lists[home.owner as usize];
        let touched = lists.touch(&mut self.links, at);
        self.lists[home.owner as usize] = lists;
        touched
    }

    /// Notes whether the pages of a kept unit are dirty. `head` is the unit's head.
    pub fn set_dirty(&mut self, head: Frame, is_dirty: bool)
        requires frame { head < N.table.frames }
        requires kept { HeadsKeptUnit self.old head }
        ensures dirties { Dirties head is_dirty self.old self.new }
        ensures steps { Makes N.table self.old [] self.new }
    {
        let at = head.number();
        let Some(home) = self.links.home(at) else {
            unreachable!()
        };
        let FrameState::Head(unit) = self.frame_states[at as usize] else {
            unreachable!()
        };
        let _frames = self.links.frames(); // Fewer than 2^32, so that the count doesn't overflow.
        let was_dirty = self.links.is_dirty(at);
        count_dirt(&mut self.clean, unit.group, unit.order, was_dirty, is_dirty);
        let lists = self.lists[home.owner as usize];
        list_laws::others_stay_linked();
        list_laws::one_of_all_changes();
        lists.set_dirty(&mut self.links, at, is_dirty);
    }
}
