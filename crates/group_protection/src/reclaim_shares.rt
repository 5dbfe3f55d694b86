//! What each group gives of the pages that a reclaim wants.

ghost use Rattle.std.specs.Prelude.{◌≡◌, ◌*◌, ◌/◌, ◌%◌, ◌<◌, ◌≤◌, slice_index};
ghost use Rattle.group_tree.specs.Bounds.{most_groups};
ghost use Rattle.group_protection.specs.Shares.{groups_ahead, is_ahead, reclaim_share, sum_below};

use group_tree::group::{GroupId, MAX_GROUPS};
use std::marker::Model;

/// The shares of a reclaim, in pages. Each group gives in proportion to what it may give, rounded down. The pages that
/// then lack come from the groups with the greatest remainders, one each, and from the lower number among equals.
#[derive(Debug, Drop)]
pub struct Shares {
    // By number; of numbers below `room` alone.
    available: [u32; MAX_GROUPS],
    room: usize,
    want: u64,
    // What all groups may give.
    total: u64,
    // What rounding down leaves of each group's part, by number. Kept because each share compares all of them.
    remainders: [u64; MAX_GROUPS],
    // How many groups give a page more than their part rounded down.
    lacking: u64,
}

impl Model for Shares {
    ghost use Rattle.std.specs.Prelude.{◌≡◌, ℕ, ◌<◌, ◌≤◌, slice_index};
    ghost use Rattle.group_tree.specs.Bounds.{most_groups};
    ghost use Rattle.group_protection.specs.Shares.{Sharing, pages_lacking, remainder, sum_below};

    ghost Value = { Sharing };

    ghost view = { λ s. record { room = s.room; available = s.available; want = s.want } };

    ghost invariant = { λ s.
        (s.total ≡ sum_below s.room (slice_index s.available))
        × ((group : ℕ) → group < s.room
        → slice_index s.remainders group ≡ remainder s.room (slice_index s.available) s.want group)
        × (s.lacking ≡ pages_lacking s.room (slice_index s.available) s.want)
        × (s.room ≤ most_groups) };
}

// What all groups may give.
fn total_of(available: &[u32; MAX_GROUPS], room: usize) -> u64
    requires { room ≤ most_groups }
    ensures { result ≡ sum_below room (slice_index available.now) }
{
    let mut sum = 0;
    for number in 0..room {
        sum += u64::from(available[number]);
    }
    sum
}

// A group's part of the pages that are shared out, rounded down.
fn whole_part(shared: u64, available: u32, total: u64) -> u64
    requires { shared ≤ total }
    ensures part { result ≡ shared * available / total }
    ensures at_most { result ≤ available }
{
    if total == 0 {
        return 0;
    }
    (u128::from(shared) * u128::from(available) / u128::from(total)) as u64
}

// What rounding down leaves of that part.
fn remainder(shared: u64, available: u32, total: u64) -> u64
    requires { shared ≤ total }
    ensures { result ≡ shared * available % total }
{
    if total == 0 {
        return 0;
    }
    (u128::from(shared) * u128::from(available) % u128::from(total)) as u64
}

impl Shares {
    /// The shares if the group of each number below `room` may give `available` pages, and `want` pages are wanted of all
    /// together.
    pub fn new(available: [u32; MAX_GROUPS], room: u32, want: u64) -> Shares
        requires room { room ≤ most_groups }
        ensures room { result.room ≡ room }
        ensures available { result.available ≡ available }
        ensures want { result.want ≡ want }
    {
        let room = room as usize;
        let total = total_of(&available, room);
        let shared = want.min(total);
        let mut remainders = [0; MAX_GROUPS];
        let mut given = 0;
        for number in 0..room {
            given += whole_part(shared, available[number], total);
            remainders[number] = remainder(shared, available[number], total);
        }
        Shares {
            available,
            room,
            want,
            total,
            remainders,
            lacking: shared - given,
        }
    }

    // How many numbers groups may have.
    fn room(&self) -> usize
        ensures room { result ≡ self.now.room }
        ensures most { result ≤ most_groups }
    {
        self.room
    }

    // Whether the other group gives a page that lacks before this group does.
    fn is_ahead(&self, other: usize, group: usize) -> bool
        requires { (other < self.now.room) × (group < self.now.room) }
        ensures { result ≡ is_ahead self.now.room (slice_index self.now.available) self.now.want other group }
    {
        let _room = self.room(); // Called for its contract.
        let theirs = self.remainders[other];
        let own = self.remainders[group];
        own < theirs || (theirs == own && other < group)
    }

    // How many groups do so.
    fn groups_ahead(&self, group: usize) -> u64
        requires { group < self.now.room }
        ensures { result ≡ groups_ahead self.now.room (slice_index self.now.available) self.now.want group }
    {
        let mut ahead = 0;
        for other in 0..self.room() {
            ahead += u64::from(self.is_ahead(other, group));
        }
        ahead
    }

    /// The share of the group, in pages. It is at most what the group may give.
    pub fn share(&self, group: GroupId) -> u64
        requires { group < self.now.room }
        ensures { result ≡ reclaim_share self.now.room (slice_index self.now.available) self.now.want group }
    {
        let _room = self.room(); // Called for its contract.
        let number = group.number() as usize;
        let shared = self.want.min(self.total);
        let part = whole_part(shared, self.available[number], self.total);
        part + u64::from(self.groups_ahead(number) < self.lacking)
    }
}
