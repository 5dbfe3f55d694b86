//! The group of each CPU's stock.

ghost use Rattle.std.specs.Prelude.{◌≡◌, ◌<◌, None, Some, replicate, slice_set};
ghost use Rattle.std.specs.List.{slice_index_or};

use group_tree::group::GroupId;
use std::marker::Model;

/// The most CPUs that a boot has.
pub(crate) const MAX_CPUS: usize = 64;

/// The group of each CPU's stock, by the index of the CPU: that of CPU 1 is 0. A contract sees a list, which has None
/// for a stock that was never filled.
#[derive(Drop)]
pub(crate) struct StockOwners {
    groups: [Option<GroupId>; MAX_CPUS],
}

impl Model for StockOwners {
    ghost use Rattle.std.specs.Prelude.{◌≡◌, ℕ, List, Option, length};

    ghost Value = { List (Option ℕ) };

    ghost view = { λ owners. owners.groups };

    ghost invariant = { λ owners. length owners.groups ≡ 64 };
}

impl StockOwners {
    /// No stock was filled yet.
    pub(crate) fn new() -> StockOwners
        ensures { result ≡ replicate 64 None }
    {
        StockOwners {
            groups: [None; MAX_CPUS],
        }
    }

    /// The group of this CPU's stock.
    pub(crate) fn group(&self, cpu: usize) -> Option<GroupId>
        requires { cpu < 64 }
        ensures { result ≡ slice_index_or self.now cpu None }
    {
        self.groups[cpu]
    }

    /// The CPU's stock is of this group from now on.
    pub(crate) fn set(&mut self, cpu: usize, group: GroupId)
        requires { cpu < 64 }
        ensures { self.new ≡ slice_set self.old cpu (Some group) }
    {
        self.groups[cpu] = Some(group);
    }
}
