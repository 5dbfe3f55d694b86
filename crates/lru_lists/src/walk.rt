//! The walk over one list.

ghost use Rattle.std.specs.Iterator.{YieldsFirst, item_count};
ghost use Rattle.std.specs.Prelude.{List};

use crate::links::Links;
use crate::lru::entry_at;
use crate::queue::Queue;
use crate::record::Entry;
use std::marker::Model;

/// The units that are left of a walk over a list, from the oldest to the newest. A contract sees them as a list.
#[derive(Drop)]
pub struct Walk<'a> {
    links: &'a Links,
    next: Option<u32>,
    left: u32,
}

impl<'a> Model for Walk<'a> {
    ghost use Rattle.std.specs.Prelude.{List, ◌<◌, All, length, map};
    ghost use Rattle.lru_lists.specs.declared.record.Entry.{Entry};
    ghost use Rattle.lru_lists.specs.Queue.{units_from};
    ghost use Rattle.lru_lists.specs.Lists.{entry_of};

    ghost Value = { List Entry };

    ghost view = { λ w. map (entry_of w.links.now) (units_from w.links.now w.next w.left) };

    ghost invariant = { λ w. All (λ unit. unit < length w.links.now) (units_from w.links.now w.next w.left) };
}

impl<'a> Walk<'a> {
    ghost use Rattle.std.specs.Prelude.{◌≡◌, ◌<◌, All, length, map};
    ghost use Rattle.lru_lists.specs.Queue.{units_of};
    ghost use Rattle.lru_lists.specs.Lists.{entry_of};

    // A walk over the list with these ends and this length, whose units are frames.
    pub(crate) fn over(links: &'a Links, queue: Queue) -> Walk<'a>
        requires { All (λ unit. unit < length links.now) (units_of links.now queue) }
        ensures { result ≡ map (entry_of links.now) (units_of links.now queue) }
    {
        Walk {
            links,
            next: queue.oldest,
            left: queue.length,
        }
    }
}

impl Iterator for Walk<'_> {
    type Item = Entry;

    ghost next_gives = { YieldsFirst (λ entries. entries) };

    ghost remaining = { item_count (λ entries. entries) };

    fn next(&mut self) -> Option<Entry> {
        if self.left == 0 {
            return None;
        }
        let unit = self.next?;
        self.next = self.links.link(unit).newer;
        self.left -= 1;
        Some(entry_at(self.links, unit))
    }
}
