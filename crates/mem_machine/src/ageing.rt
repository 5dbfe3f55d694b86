//! The two lists of a group: ageing, renewing and walking them.

ghost use Rattle.std.specs.Prelude.{◌≡◌, ◌<◌, [], Some, length};
ghost use Rattle.lru_lists.specs.declared.record.LruList.TheVariants.{Inactive};
ghost use Rattle.lru_lists.specs.declared.record.LruList.{LruList};
ghost use Rattle.lru_lists.specs.Lists.{AreLinked, entries_of, first_entry, entry_after};
ghost use Rattle.mem_machine.specs.Machines.{home_of};
ghost use Rattle.mem_machine.specs.Ageing.{AgesGroup, RenewsUnit, entries_in};
ghost use Rattle.mem_machine.specs.Local.{Makes};

use crate::machine::Machine;
use cpu_part::BootName;
use frame_word::Frame;
use group_tree::group::GroupId;
use lru_lists::laws as list_laws;
use lru_lists::lru::Lru;
use lru_lists::record::{Entry, LruList};

impl<N: BootName> Machine<N> {
    // The two lists of the group. Those of a number that the boot made no room for are empty.
    pub(crate) fn lists_of(&self, group: GroupId) -> Lru
        ensures linked { AreLinked self.now.links result }
        ensures owner { result.owner ≡ group }
        ensures entries { (list : LruList) → entries_of self.now.links result list ≡ entries_in self.now group list }
    {
        match self.lists.get(group.number() as usize) {
            Some(lists) => *lists,
            None => Lru::new(group.number() as u16),
        }
    }

    /// Moves the oldest active units of a group, unmarked, to the newest end of its inactive list. They are as few as
    /// leave the active list no longer than the inactive one.
    pub fn age(&mut self, group: GroupId)
        ensures ages { AgesGroup group self.old self.new }
        ensures steps { Makes N.table self.old [] self.new }
    {
        let owner = group.number() as usize;
        if owner >= self.lists.len() {
            return; // There is no room for the group, so it has no unit.
        }
        list_laws::others_stay_linked();
        list_laws::one_of_all_changes();
        self.lists[owner].age(&mut self.links);
    }

    /// Moves an inactive unit of a group, unmarked, to the newest end of the group's inactive list. `head` is the
    /// unit's head.
    pub fn renew(&mut self, group: GroupId, head: Frame)
        requires frame { head < N.table.frames }
        requires home { home_of self.old.links head ≡ Some (record { owner = group; list = Inactive }) }
        ensures renews { RenewsUnit group head self.old self.new }
        ensures steps { Makes N.table self.old [] self.new }
    {
        let at = head.number();
        let owner = group.number() as usize;
        list_laws::others_stay_linked();
        list_laws::one_of_all_changes();
        self.lists[owner].renew(&mut self.links, at);
    }

    /// How many units are on one of a group's lists.
    pub fn list_len(&self, group: GroupId, list: LruList) -> u32
        ensures { result ≡ length (entries_in self.now group list) }
    {
        self.lists_of(group).len(list)
    }

    /// The oldest unit of one of a group's lists; None exactly if that list is empty.
    pub fn oldest(&self, group: GroupId, list: LruList) -> Option<Entry>
        ensures { result ≡ first_entry (entries_in self.now group list) }
    {
        self.lists_of(group).oldest(&self.links, list)
    }

    /// The next newer unit on the list of the group that holds this one; None exactly if this is the newest. A walk
    /// over a list calls `oldest` first, and then `newer` from each unit to the next.
    pub fn newer(&self, group: GroupId, list: LruList, head: Frame) -> Option<Entry>
        requires frame { head < N.table.frames }
        requires home { home_of self.now.links head ≡ Some (record { owner = group; list = list }) }
        ensures { result ≡ entry_after head (entries_in self.now group list) }
    {
        self.lists_of(group).newer(&self.links, head.number())
    }
}
