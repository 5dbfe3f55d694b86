//! The conditions of the table of rules: those that each step has to meet.

use crate::quantity::Quantity;
use group_tree::group::GroupId;
use group_tree::path::PathText;
use std::marker::Model;

/// What a frame has to be.
#[derive(Clone, Copy)]
pub enum PlaceTest {
    /// Free.
    Free,
    /// In transit to this CPU.
    OutTo(u32),
    /// The first of this CPU's list, or fresh or back there.
    Passable(u32),
    /// In transit back from this CPU.
    BackFrom(u32),
    /// Fresh at this CPU.
    FreshAt(u32),
    /// The head of a unit in the zone's hand.
    InHand,
    /// The head of a unit.
    Head,
    /// The head of a unit that may be returned.
    Returnable,
}

/// The path of a step that makes a group. A contract sees it as its text.
#[derive(Drop)]
pub struct NewPath<'a> {
    pub text: &'a PathText,
}

impl<'a> Model for NewPath<'a> {
    ghost use Rattle.std.specs.Prelude.{ℕ, List};

    ghost Value = { List ℕ };

    ghost view = { λ path. path.text.now };
}

/// A condition of a step.
#[derive(Drop)]
pub enum Condition<'a> {
    /// The seat is a CPU's.
    Cpu(u32),
    /// The seat is the zone's.
    ZoneSeat(u32),
    /// The seat is a CPU's, or the zone's while a CPU holds the lock.
    AnySeat(u32),
    /// A CPU holds the lock.
    Locked,
    /// The lock is free.
    Unlocked,
    /// This CPU holds the lock, and no visit is open.
    HeldBy(u32),
    /// The visit of this CPU is open.
    Visited(u32),
    /// The frame is the zone's.
    Frame(u32),
    /// The group exists.
    Group(GroupId),
    /// No page is pending.
    NonePending,
    /// No frame is in transit.
    NonePassing,
    /// No frame is in transit to or from this CPU.
    NonePassingAt(u32),
    /// The number is this one or more.
    AtLeast(Quantity, u32),
    /// The number is less than this one.
    Below(Quantity, u32),
    /// The number is 0.
    IsZero(Quantity),
    /// This number is 1 or more.
    OneUp(u32),
    /// This number is 255 or less.
    UpTo255(u32),
    /// The frame is in this place.
    InPlace(u32, PlaceTest),
    /// The CPU's stock has no page, and its book is 0 or its stock is of the group.
    TakesFill(u32, GroupId),
    /// The group isn't killed.
    NotKilled(GroupId),
    /// The group isn't the root.
    NotRoot(GroupId),
    /// No group is below this one.
    NoChild(GroupId),
    /// A group of this path can be made.
    Makeable(NewPath<'a>),
}
