//! The inactive and the active list: the lines that the README of `lru_lists` shows.

ghost use Rattle.std.specs.Prelude.{◌≡◌, ◌<◌, length};
ghost use Rattle.lru_lists.specs.Lists.{AreLinked};

use crate::calls::expect_true;
use lru_lists::links::Links;
use lru_lists::lru::{Lru, Touched};
use lru_lists::record::LruList;
use std::process::Abort;

#[test]
fn a_second_touch_moves_a_unit(rt: HostRuntime) {
    let mut links = Links::new(rt.alloc(), 16).expect(&rt, "memory");
    let mut lru = Lru::new(7);
    lru.add(&mut links, 3);
    touches_unit_3(&rt, &mut lru, &mut links, Touched::Marked);
    touches_unit_3(&rt, &mut lru, &mut links, Touched::Active);
    expect_true(&rt, lru.list_of(&links, 3) == Some(LruList::Active));
    lru.age(&mut links);
    expect_true(&rt, lru.list_of(&links, 3) == Some(LruList::Inactive));
}

// Touches unit 3, which must be on a list. The touch must give this answer.
fn touches_unit_3(rt: &impl Abort, lru: &mut Lru, links: &mut Links, answer: Touched)
    requires { (3 < length links.old) × AreLinked links.old lru.old }
    ensures linked { AreLinked links.new lru.new }
    ensures frames { length links.new ≡ length links.old }
{
    assert!(rt; lru.list_of(links, 3).is_some());
    expect_true(rt, lru.touch(links, 3) == answer);
}
