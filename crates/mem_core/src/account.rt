//! The account of one group number.

use group_tree::event::EventCounts;

/// The account of a group: its peak and its event counts since it was made.
#[derive(Clone, Copy, PartialEq, Eq)]
pub struct Account {
    /// The greatest usage, in pages (memory.peak).
    pub peak: u128,
    /// The events of the group and of all groups below it (memory.events).
    pub events: EventCounts,
    /// The events of the group itself (memory.events.local).
    pub events_local: EventCounts,
}
