//! A group and its number.

ghost use Rattle.std.specs.Prelude.{◌≡◌, ◌<◌, SomeIff};
ghost use Rattle.group_tree.specs.Bounds.{most_groups};

use crate::path::PathText;
use std::marker::Model;

/// The most groups that a tree may have room for, the root included.
pub const MAX_GROUPS: usize = 1024;

/// The number of a group, below [`MAX_GROUPS`]; the root has 0. It takes two bytes because the record of each frame holds one.
#[derive(Clone, Copy, Debug, PartialEq, Eq, PartialOrd, Ord, Hash)]
pub struct GroupId {
    number: u16,
}

impl Model for GroupId {
    ghost use Rattle.std.specs.Prelude.{ℕ, ◌<◌};

    ghost Value = { ℕ };

    ghost view = { λ g. g.number };

    ghost use Rattle.group_tree.specs.Bounds.{most_groups};

    ghost invariant = { λ g. g.number < most_groups };

    ghost inverse = { λ n. record { number = n } };
}

impl GroupId {
    /// The group of this number, or None if the number is [`MAX_GROUPS`] or above.
    pub fn of(number: u32) -> Option<GroupId>
        ensures { SomeIff result (number < most_groups) number }
    {
        if (number as usize) < MAX_GROUPS {
            Some(GroupId {
                number: number as u16,
            })
        } else {
            None
        }
    }

    /// The root of the tree.
    pub fn root() -> GroupId
        ensures { result ≡ 0 }
    {
        GroupId { number: 0 }
    }

    /// The group's number, below [`MAX_GROUPS`].
    pub fn number(self) -> u32
        ensures value { result ≡ self }
        ensures below { result < most_groups }
    {
        u32::from(self.number)
    }
}

/// A group as the tree keeps it.
#[derive(Clone, Copy, Debug, PartialEq, Eq)]
pub struct Group {
    /// The group's number.
    pub number: GroupId,
    /// The group's path, from the root.
    pub path: PathText,
    /// The limit of the group's usage (memory.max), in pages, or None if it has no limit.
    pub limit: Option<u32>,
    /// memory.oom.group: whether the group is killed as a whole.
    pub oom_group: bool,
    /// Of the root, how many groups may exist below it (cgroup.max.descendants); of the others 0.
    pub descendants: u32,
}
