//! A set of a million numbers, asked for the nearest lower member.

use crate::calls::expect_true;
use bit_levels::levels::BitLevels;
use std::process::Abort;

// A bound whose value no proof knows.
fn bound() -> usize {
    1_000_000
}

fn put(set: &mut BitLevels, number: usize, value: bool) {
    if number < set.len() {
        set.set(number, value);
    }
}

// The greatest member below the number must be this one.
fn tells_last_below(rt: &impl Abort, set: &BitLevels, number: usize, member: Option<usize>) {
    assert!(rt; number <= set.len());
    expect_true(rt, set.last_below(number) == member);
}

// Asks for the members below some numbers, in a set of three.
fn ask_each_bound(rt: &impl Abort, set: &BitLevels) {
    let members = [
        (bound(), Some(700_000)),
        (700_000, Some(64)),
        (64, Some(3)),
        (3, None),
    ];
    for (number, member) in members {
        tells_last_below(rt, set, number, member);
    }
}

#[test]
fn the_nearest_lower_member(rt: HostRuntime) {
    let mut set = BitLevels::new(rt.alloc(), bound()).expect(&rt, "memory");
    tells_last_below(&rt, &set, bound(), None);
    for number in [3, 64, 700_000] {
        put(&mut set, number, true);
    }
    ask_each_bound(&rt, &set);
    put(&mut set, 64, false);
    tells_last_below(&rt, &set, 700_000, Some(3));
}
