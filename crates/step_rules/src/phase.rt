//! The phases in the life of a frame, and who holds the zone's lock.

use group_tree::group::GroupId;
use zone_blocks::order::Order;

/// Who holds the zone's lock.
#[derive(Clone, Copy, PartialEq, Eq)]
pub enum Hold {
    /// Nobody: the lock is free.
    Unheld,
    /// This CPU, whose visit isn't open.
    HeldBy(u32),
    /// This CPU, whose visit is open.
    Visiting(u32),
}

/// What was charged at once: a block of one or more frames, and the group that keeps it.
#[derive(Clone, Copy, PartialEq, Eq)]
pub struct ChargedUnit {
    /// The group that keeps the frames.
    pub group: GroupId,
    /// A unit of order k has 2^k frames; the head is the first.
    pub order: Order,
}

/// Where a frame that is lent to a CPU is: in transit, or on the list.
#[derive(Clone, Copy, PartialEq, Eq)]
pub enum Way {
    /// The zone passed it, and the CPU hasn't taken it in.
    PassingOut,
    /// It is on the CPU's list.
    OnList,
    /// The CPU passed it back, and the zone hasn't collected it.
    PassingBack,
}

/// The stage of a charged unit, by its head.
#[derive(Clone, Copy, PartialEq, Eq)]
pub enum Stage {
    /// Fresh at this CPU: the CPU paid a page for the frame, which has had no reference since.
    FreshAt(u32),
    /// Passed back by this CPU as a fresh frame, and not collected yet.
    FreshPassing(u32),
    /// In the zone's hand, collected as a fresh frame.
    Collected,
    /// In the zone's hand, newly placed.
    Bare,
    /// It has references, and is in no hand.
    Live,
    /// This CPU made the last put and owns the frame: a back frame.
    BackAt(u32),
    /// Passed back by this CPU as a back frame, and not collected yet.
    BackPassing(u32),
    /// In the zone's hand, after its last reference was dropped.
    AwaitsReturn,
}

/// The phase of a frame.
#[derive(Clone, Copy, PartialEq, Eq)]
pub enum Phase {
    /// In the zone's free areas.
    InZone,
    /// Lent to a CPU.
    Lent { cpu: u32, way: Way },
    /// The head of a charged unit.
    Head { unit: ChargedUnit, stage: Stage },
    /// In a charged unit of this group, and not its head.
    Tail(GroupId),
}
