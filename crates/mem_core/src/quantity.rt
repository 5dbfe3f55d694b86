//! The numbers that the rules look at.

use group_tree::group::GroupId;

/// A number of the state that the rules look at.
#[derive(Clone, Copy, PartialEq, Eq)]
pub enum Quantity {
    /// The references of a seat on a frame.
    Own { seat: u32, frame: u32 },
    /// All references on a frame.
    References(u32),
    /// The references and back frames of a CPU.
    Pins(u32),
    /// The frames on a CPU's list.
    Listed(u32),
    /// The fresh frames of a CPU.
    Fresh(u32),
    /// The pages of fresh frames that a CPU passed back and didn't report.
    Unreported(u32),
    /// The pages that a CPU reported.
    Reported(u32),
    /// The pages in a CPU's stock.
    InStock(u32),
    /// The pages pending for a group.
    Pending(GroupId),
    /// The usage of a group.
    Usage(GroupId),
}
