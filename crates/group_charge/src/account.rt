//! What is kept for one group.

use group_tree::event::EventCounts;
use group_tree::group::GroupId;

/// The account of one group.
#[derive(Clone, Copy, Debug, PartialEq, Eq)]
pub struct Account {
    /// The group's number.
    pub group: GroupId,
    /// The pages charged to the group itself.
    pub pages: u32,
    /// The greatest usage since the group was made, in pages.
    pub peak: u32,
    /// The events of the group and of all groups below it.
    pub events: EventCounts,
    /// The events of the group itself.
    pub events_local: EventCounts,
}
