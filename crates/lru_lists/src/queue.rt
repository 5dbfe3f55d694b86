//! One list: its ends and its length. Its units are linked through their records.

ghost use Rattle.std.specs.Prelude.{◌≡◌, ◌<◌, ◌-◌, ◌^◌, ◌++◌, [], ◌∷◌, None, Some, IfSome, length};
ghost use Rattle.lru_lists.specs.Queue.{link_at, units_of, list_without, IsLinked, StaysElsewhere, SameUse};
ghost use Rattle.lru_lists.specs.Queue.{newest_link, unlinked, pushed_queue, queue_without};

use crate::links::Links;
use crate::record::{Home, Link};

/// The ends and the length of one list.
#[derive(Clone, Copy, PartialEq, Eq)]
pub struct Queue {
    /// The oldest unit, or None if the list is empty.
    pub oldest: Option<u32>,
    /// The newest unit, or None if the list is empty.
    pub newest: Option<u32>,
    /// How many units are on the list.
    pub length: u32,
}

impl Queue {
    /// The empty list.
    pub const EMPTY: Queue = Queue {
        oldest: None,
        newest: None,
        length: 0,
    };
}

impl Queue {
    // The ends and the length after the unit was appended at the newest end.
    fn pushed(self, unit: u32) -> Queue
        requires { self.length < 2 ^ 32 - 1 }
        ensures { result ≡ pushed_queue self unit }
    {
        let oldest = match self.newest {
            Some(_) => self.oldest,
            None => Some(unit),
        };
        Queue {
            oldest,
            newest: Some(unit),
            length: self.length + 1,
        }
    }

    // The ends and the length after the unit between these two was removed.
    fn without(self, older: Option<u32>, newer: Option<u32>) -> Queue
        requires { 0 < self.length }
        ensures { result ≡ queue_without self older newer }
    {
        let oldest = match older {
            Some(_) => self.oldest,
            None => newer,
        };
        let newest = match newer {
            Some(_) => self.newest,
            None => older,
        };
        Queue {
            oldest,
            newest,
            length: self.length - 1,
        }
    }
}

// Appends a unit that is on no list at the newest end of this one, unmarked.
pub(crate) fn push_newest(links: &mut Links, queue: &mut Queue, home: Home, unit: u32)
    requires frames { length links.old < 2 ^ 32 }
    requires unit { unit < length links.old }
    requires away { (link_at links.old unit).home ≡ None }
    requires linked { IsLinked links.old home queue.old (units_of links.old queue.old) }
    ensures units { units_of links.new queue.new ≡ units_of links.old queue.old ++ unit ∷ [] }
    ensures linked { IsLinked links.new home queue.new (units_of links.new queue.new) }
    ensures unit { link_at links.new unit ≡ newest_link home queue.old.newest (link_at links.old unit).is_dirty }
    ensures others { StaysElsewhere links.old links.new home unit }
    ensures used { SameUse links.old links.new unit }
{
    let is_dirty = links.link(unit).is_dirty;
    links.set_newer(queue.newest, Some(unit));
    let link = Link {
        home: Some(home),
        older: queue.newest,
        newer: None,
        is_marked: false,
        is_dirty,
    };
    links.put(unit, link);
    *queue = queue.pushed(unit);
}

// Removes a unit from the list that holds it. It stays marked and dirty as it was.
pub(crate) fn unlink_keeping_flags(links: &mut Links, queue: &mut Queue, home: Home, unit: u32)
    requires frames { length links.old < 2 ^ 32 }
    requires linked { IsLinked links.old home queue.old (units_of links.old queue.old) }
    requires unit { (link_at links.old unit).home ≡ Some home }
    ensures units { units_of links.new queue.new ≡ list_without unit (units_of links.old queue.old) }
    ensures linked { IsLinked links.new home queue.new (units_of links.new queue.new) }
    ensures unit { link_at links.new unit ≡ unlinked (link_at links.old unit) }
    ensures others { StaysElsewhere links.old links.new home unit }
    ensures used { SameUse links.old links.new unit }
{
    let link = links.link(unit);
    let older = link.older;
    let newer = link.newer;
    links.set_newer(older, newer);
    links.set_older(newer, older);
    let unlinked = Link {
        home: None,
        older: None,
        newer: None,
        is_marked: link.is_marked,
        is_dirty: link.is_dirty,
    };
    links.put(unit, unlinked);
    *queue = queue.without(older, newer);
}
