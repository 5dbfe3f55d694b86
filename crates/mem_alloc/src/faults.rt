//! Why nothing was allocated.

use group_tree::group::GroupId;

/// Why nothing was allocated. Then no frame was allocated, and no page was charged.
#[derive(Clone, Copy, Debug, PartialEq, Eq)]
pub enum AllocFault {
    /// The limit of this group has no room for the pages, after all that `make_room` does.
    Over(GroupId),
    /// No frame, or no block of the order or above, is free, even after rounds of reclaim from all groups.
    NoFrames,
    /// The group that asks for the pages was killed: before, or with a victim whose limit had no room for these pages.
    RequesterKilled,
}
