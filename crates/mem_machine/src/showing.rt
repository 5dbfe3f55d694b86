//! What the machine shows of a group's kept units.

ghost use Rattle.std.specs.Prelude.{◌≡◌, ◌+◌, ◌<◌};
ghost use Rattle.step_rules.specs.State.{most_references};
ghost use Rattle.boot_words.specs.{own_past, zone_of_boot, LoadsReferences};
ghost use Rattle.mem_machine.specs.Machines.{HeadsKeptUnit, entries_in};
ghost use Rattle.mem_machine.specs.Resting.{Rests};

use crate::machine::Machine;
use cpu_part::{BootName, Tables};
use frame_word::Frame;
use group_tree::group::GroupId;
use lru_lists::record::LruList;
use lru_lists::walk::Walk;

impl<N: BootName> Machine<N> {
    /// The units of one of a group's lists, from the oldest to the newest.
    pub fn entries(&self, group: GroupId, list: LruList) -> Walk<'_>
        ensures { result ≡ entries_in self.now group list }
    {
        self.lists_of(group).entries(&self.links, list)
    }

    /// How many references other than the zone's a kept unit has, by one load of its word: the pins of all CPUs at the
    /// moment of that load. CPUs may pin and unpin the unit before and after it. Nothing changes, and no step is made.
    /// `head` is the unit's head.
    pub fn pins_on(&mut self, tables: &Tables<N>, head: Frame) -> u32
        requires rests { Rests N.table self.old }
        requires frame { head < N.table.frames }
        requires kept { HeadsKeptUnit self.old head }
        ensures pins { LoadsReferences (zone_of_boot N.table) (own_past self.old.run.past) head (result + 1) }
        ensures most { result < most_references }
        ensures machine { self.new ≡ self.old }
    {
        tables.words.references(&mut self.past, head) as u32 - 1
    }
}
