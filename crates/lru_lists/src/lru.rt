//! The two lists of one owner, such as a group: its inactive and its active units, each from the oldest to the
//! newest.

ghost use Rattle.std.specs.Prelude.{◌≡◌, ◌≢◌, ◌<◌, ◌++◌, [], ◌∷◌, false, List, None, Some, IfSome, length, map, take};
ghost use Rattle.std.specs.Prelude.{drop, option_map};
ghost use Rattle.lru_lists.specs.Queue.{link_at, nowhere, unlinked, SameUse};
ghost use Rattle.lru_lists.specs.declared.record.Link.{Link};
ghost use Rattle.lru_lists.specs.declared.record.LruList.{LruList};
ghost use Rattle.lru_lists.specs.declared.record.LruList.TheVariants.{Inactive};
ghost use Rattle.lru_lists.specs.Lists.{AreLinked, HasNoUnits, IsOnNone, ChangesOwn, MovesOnly, KeepsUnits, SameOwners};
ghost use Rattle.lru_lists.specs.Lists.{Touches, Ages, inactive_of, active_of, entries_of, entries_without, changed_at};
ghost use Rattle.lru_lists.specs.Lists.{dirtied, marked, list_of, entry_of, is_marked_by_touch, home_in, queue_of};
ghost use Rattle.lru_lists.specs.Lists.{with_queue, first_entry, entry_after};

use crate::links::Links;
use crate::queue::Queue;
use crate::record::{Entry, Home, LruList};
use crate::walk::Walk;

/// The effect of a touch.
#[derive(Clone, Copy, PartialEq, Eq)]
pub enum Touched {
    /// The unit stays on the inactive list and is now marked.
    Marked,
    /// The unit is now at the newest end of the active list, unmarked.
    Active,
}

/// The ends and the lengths of an owner's two lists. The units themselves are linked through `Links`.
#[derive(Clone, Copy, PartialEq, Eq)]
pub struct Lru {
    /// The number by which a frame's record names the owner.
    pub owner: u16,
    /// The inactive list.
    pub inactive: Queue,
    /// The active list.
    pub active: Queue,
}

impl Lru {
    /// The empty lists of an owner, linked through any records that name this owner nowhere. Such are the records
    /// from `Links::new`, and those from which each unit of the owner was removed.
    pub fn new(owner: u16) -> Lru
        ensures owner { result.owner ≡ owner }
        ensures linked { (links : List Link) → HasNoUnits links owner → AreLinked links result }
        ensures empty { (links : List Link) (list : LruList) → entries_of links result list ≡ [] }
    {
        Lru {
            owner,
            inactive: Queue::EMPTY,
            active: Queue::EMPTY,
        }
    }

    // What the record of a unit on one of the lists says of its place.
    fn home(&self, list: LruList) -> Home
        ensures { result ≡ home_in self.now list }
    {
        Home {
            owner: self.owner,
            list,
        }
    }

    fn queue(&self, list: LruList) -> Queue
        ensures { result ≡ queue_of self.now list }
    {
        match list {
            LruList::Inactive => self.inactive,
            LruList::Active => self.active,
        }
    }

    fn set_queue(&mut self, list: LruList, queue: Queue)
        ensures { self.new ≡ with_queue self.old list queue }
    {
        match list {
            LruList::Inactive => self.inactive = queue,
            LruList::Active => self.active = queue,
        }
    }

    // Appends a unit that is on no list at the newest end of one of the two, unmarked.
    fn push(&mut self, links: &mut Links, list: LruList, unit: u32)
        requires frame { unit < length links.old }
        requires away { IsOnNone links.old unit }
        requires linked { AreLinked links.old self.old }
        ensures linked { AreLinked links.new self.new }
        ensures owner { self.new.owner ≡ self.old.owner }
        ensures entries { entries_of links.new self.new list
            ≡ entries_of links.old self.old list ++ marked false (entry_of links.old unit) ∷ [] }
        ensures other { (m : LruList) → m ≢ list → entries_of links.new self.new m ≡ entries_of links.old self.old m }
        ensures unit { (link_at links.new unit).home ≡ Some (home_in self.old list) }
        ensures moves { MovesOnly links.old links.new self.old.owner unit }
        ensures used { SameUse links.old links.new unit }
        ensures dirt { (link_at links.new unit).is_dirty ≡ (link_at links.old unit).is_dirty }
    {
        let mut queue = self.queue(list);
        links.push_newest(&mut queue, self.home(list), unit);
        self.set_queue(list, queue);
    }

    // Removes a unit from the one of the two lists that holds it. It stays marked and dirty as it was.
    fn unlink_keeping_flags(&mut self, links: &mut Links, list: LruList, unit: u32)
        requires linked { AreLinked links.old self.old }
        requires unit { (link_at links.old unit).home ≡ Some (home_in self.old list) }
        ensures linked { AreLinked links.new self.new }
        ensures owner { self.new.owner ≡ self.old.owner }
        ensures entries { entries_of links.new self.new list
            ≡ entries_without unit (entries_of links.old self.old list) }
        ensures other { (m : LruList) → m ≢ list → entries_of links.new self.new m ≡ entries_of links.old self.old m }
        ensures unit { link_at links.new unit ≡ unlinked (link_at links.old unit) }
        ensures moves { MovesOnly links.old links.new self.old.owner unit }
        ensures used { SameUse links.old links.new unit }
    {
        let mut queue = self.queue(list);
        links.unlink_keeping_flags(&mut queue, self.home(list), unit);
        self.set_queue(list, queue);
    }

    /// Which of the two lists holds the frame; None exactly if neither does.
    pub fn list_of(&self, links: &Links, frame: u32) -> Option<LruList>
        requires { frame < length links.now }
        ensures { result ≡ list_of links.now self.now.owner frame }
    {
        match links.link(frame).home {
            Some(home) if home.owner == self.owner => Some(home.list),
            _ => None,
        }
    }

    /// Appends a unit that is on no list of any owner at the newest end of the inactive list, clean and unmarked. The
    /// unit is named by its first frame, which is below `Links::frames`. `Links::home` says whether a list already
    /// holds it.
    pub fn add(&mut self, links: &mut Links, unit: u32)
        requires frame { unit < length links.old }
        requires away { IsOnNone links.old unit }
        requires linked { AreLinked links.old self.old }
        ensures linked { AreLinked links.new self.new }
        ensures owner { self.new.owner ≡ self.old.owner }
        ensures inactive { inactive_of links.new self.new
            ≡ inactive_of links.old self.old ++ record { number = unit; is_marked = false; is_dirty = false } ∷ [] }
        ensures active { active_of links.new self.new ≡ active_of links.old self.old }
        ensures others { ChangesOwn links.old links.new self.old.owner }
        ensures moves { MovesOnly links.old links.new self.old.owner unit }
        ensures used { SameUse links.old links.new unit }
        ensures dirt { (link_at links.new unit).is_dirty ≡ false }
        ensures joined { (link_at links.new unit).home ≡ Some (home_in self.old Inactive) }
    {
        links.clear(unit);
        self.push(links, LruList::Inactive, unit);
    }

    // The one of the two lists that holds the unit.
    fn list(&self, links: &Links, unit: u32) -> LruList
        requires frame { unit < length links.now }
        requires on { list_of links.now self.now.owner unit ≢ None }
        ensures { list_of links.now self.now.owner unit ≡ Some result }
    {
        self.list_of(links, unit).unwrap()
    }

    // Moves a unit from the list that holds it to the newest end of one of the two, unmarked.
    fn move_to(&mut self, links: &mut Links, list: LruList, unit: u32)
        requires frame { unit < length links.old }
        requires on { list_of links.old self.old.owner unit ≢ None }
        requires linked { AreLinked links.old self.old }
        ensures linked { AreLinked links.new self.new }
        ensures owner { self.new.owner ≡ self.old.owner }
        ensures gained { entries_of links.new self.new list
            ≡ entries_without unit (entries_of links.old self.old list) ++ marked false (entry_of links.old unit) ∷ [] }
        ensures lost { (m : LruList) → m ≢ list
            → entries_of links.new self.new m ≡ entries_without unit (entries_of links.old self.old m) }
        ensures keeps { KeepsUnits links.old links.new self.old.owner }
        ensures owners { SameOwners links.old links.new }
    {
        let from = self.list(links, unit);
        self.unlink_keeping_flags(links, from, unit);
        self.push(links, list, unit);
    }

    /// Removes a unit from the one of the two lists that holds it. Its mark and its dirt are cleared.
    pub fn unlink_and_clear(&mut self, links: &mut Links, unit: u32)
        requires frame { unit < length links.old }
        requires on { list_of links.old self.old.owner unit ≢ None }
        requires linked { AreLinked links.old self.old }
        ensures linked { AreLinked links.new self.new }
        ensures owner { self.new.owner ≡ self.old.owner }
        ensures inactive { inactive_of links.new self.new ≡ entries_without unit (inactive_of links.old self.old) }
        ensures active { active_of links.new self.new ≡ entries_without unit (active_of links.old self.old) }
        ensures forgotten { link_at links.new unit ≡ nowhere }
        ensures others { ChangesOwn links.old links.new self.old.owner }
        ensures moves { MovesOnly links.old links.new self.old.owner unit }
        ensures used { SameUse links.old links.new unit }
    {
        let list = self.list(links, unit);
        self.unlink_keeping_flags(links, list, unit);
        links.clear(unit);
    }

    // Whether a touch marks the unit and doesn't move it.
    fn is_marked_by_touch(&self, links: &Links, unit: u32) -> bool
        requires frame { unit < length links.now }
        requires on { list_of links.now self.now.owner unit ≢ None }
        ensures { result ≡ is_marked_by_touch (list_of links.now self.now.owner unit)
            (link_at links.now unit).is_marked }
    {
        match self.list(links, unit) {
            LruList::Inactive => !links.link(unit).is_marked,
            LruList::Active => false,
        }
    }

    /// Notes a use of a unit on one of the two lists. An unmarked unit on the inactive list becomes marked. Any other
    /// moves to the newest end of the active list, unmarked. In Linux, too, a unit needs two touches to become active
    /// (Gorman, "Understanding the Linux Virtual Memory Manager", chapter 10).
    pub fn touch(&mut self, links: &mut Links, unit: u32) -> Touched
        requires frame { unit < length links.old }
        requires on { list_of links.old self.old.owner unit ≢ None }
        requires linked { AreLinked links.old self.old }
        ensures linked { AreLinked links.new self.new }
        ensures owner { self.new.owner ≡ self.old.owner }
        ensures touches { Touches links.old self.old unit result links.new self.new }
        ensures others { ChangesOwn links.old links.new self.old.owner }
        ensures owners { SameOwners links.old links.new }
    {
        if self.is_marked_by_touch(links, unit) {
            links.set_marked(unit, true);
            Touched::Marked
        } else {
            self.move_to(links, LruList::Active, unit);
            Touched::Active
        }
    }

    /// Moves a unit of the inactive list to its newest end, unmarked: the second chance of a marked unit.
    pub fn renew(&mut self, links: &mut Links, unit: u32)
        requires frame { unit < length links.old }
        requires on { list_of links.old self.old.owner unit ≡ Some Inactive }
        requires linked { AreLinked links.old self.old }
        ensures linked { AreLinked links.new self.new }
        ensures owner { self.new.owner ≡ self.old.owner }
        ensures inactive { inactive_of links.new self.new
            ≡ entries_without unit (inactive_of links.old self.old) ++ marked false (entry_of links.old unit) ∷ [] }
        ensures active { active_of links.new self.new ≡ active_of links.old self.old }
        ensures others { ChangesOwn links.old links.new self.old.owner }
        ensures owners { SameOwners links.old links.new }
    {
        self.move_to(links, LruList::Inactive, unit);
    }

    /// Sets whether the pages of a unit on one of the two lists are dirty.
    pub fn set_dirty(&self, links: &mut Links, unit: u32, is_dirty: bool)
        requires frame { unit < length links.old }
        requires on { list_of links.old self.now.owner unit ≢ None }
        requires linked { AreLinked links.old self.now }
        ensures linked { AreLinked links.new self.now }
        ensures entries { (list : LruList)
            → entries_of links.new self.now list
            ≡ changed_at unit (dirtied is_dirty) (entries_of links.old self.now list) }
        ensures others { ChangesOwn links.old links.new self.now.owner }
        ensures used { SameUse links.old links.new unit }
        ensures dirt { (link_at links.new unit).is_dirty ≡ is_dirty }
        ensures home { (link_at links.new unit).home ≡ (link_at links.old unit).home }
    {
        links.set_dirty(unit, is_dirty);
    }

    fn entry(links: &Links, unit: Option<u32>) -> Option<Entry>
        requires { IfSome unit (λ u. u < length links.now) }
        ensures { result ≡ option_map (entry_of links.now) unit }
    {
        Some(entry_at(links, unit?))
    }

    /// How many units one of the lists holds. The number is right for all records that link both lists.
    pub fn len(&self, list: LruList) -> u32
        ensures { (links : List Link) → AreLinked links self.now → result ≡ length (entries_of links self.now list) }
    {
        self.queue(list).length
    }

    /// The oldest unit of one of the lists; None exactly if the list is empty.
    pub fn oldest(&self, links: &Links, list: LruList) -> Option<Entry>
        requires { AreLinked links.now self.now }
        ensures { result ≡ first_entry (entries_of links.now self.now list) }
    {
        Lru::entry(links, self.queue(list).oldest)
    }

    /// The unit just after this one on the list that holds it; None exactly if this is the newest. To walk a list,
    /// call `oldest`, then `newer` until it returns None.
    pub fn newer(&self, links: &Links, unit: u32) -> Option<Entry>
        requires frame { unit < length links.now }
        requires on { list_of links.now self.now.owner unit ≢ None }
        requires linked { AreLinked links.now self.now }
        ensures { (list : LruList) → list_of links.now self.now.owner unit ≡ Some list
            → result ≡ entry_after unit (entries_of links.now self.now list) }
    {
        Lru::entry(links, links.link(unit).newer)
    }

    /// The units of one of the lists, from the oldest to the newest.
    pub fn entries<'a>(&self, links: &'a Links, list: LruList) -> Walk<'a>
        requires { AreLinked links.now self.now }
        ensures { result ≡ entries_of links.now self.now list }
    {
        Walk::over(links, self.queue(list))
    }

    // Moves the oldest active unit to the newest end of the inactive list, unmarked.
    fn demote(&mut self, links: &mut Links)
        requires some { 0 < self.old.active.length }
        requires linked { AreLinked links.old self.old }
        ensures linked { AreLinked links.new self.new }
        ensures owner { self.new.owner ≡ self.old.owner }
        ensures inactive { inactive_of links.new self.new
            ≡ inactive_of links.old self.old ++ map (marked false) (take 1 (active_of links.old self.old)) }
        ensures active { active_of links.new self.new ≡ drop 1 (active_of links.old self.old) }
        ensures keeps { KeepsUnits links.old links.new self.old.owner }
        ensures owners { SameOwners links.old links.new }
    {
        let oldest = self.active.oldest.unwrap();
        self.move_to(links, LruList::Inactive, oldest);
    }

    /// Moves the oldest active unit to the newest end of the inactive list, unmarked, as long as the active list has
    /// more units than the inactive one.
    pub fn age(&mut self, links: &mut Links)
        requires { AreLinked links.old self.old }
        ensures linked { AreLinked links.new self.new }
        ensures owner { self.new.owner ≡ self.old.owner }
        ensures ages { Ages links.old self.old links.new self.new }
        ensures others { ChangesOwn links.old links.new self.old.owner }
        ensures owners { SameOwners links.old links.new }
    {
        while self.inactive.length < self.active.length {
            self.demote(links);
        }
    }
}

// The unit of this number, as an entry of the list that holds it.
pub(crate) fn entry_at(links: &Links, number: u32) -> Entry
    requires { number < length links.now }
    ensures { result ≡ entry_of links.now number }
{
    let link = links.link(number);
    Entry {
        number,
        is_marked: link.is_marked,
        is_dirty: link.is_dirty,
    }
}
