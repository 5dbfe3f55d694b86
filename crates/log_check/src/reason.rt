//! The reasons.

use group_tree::fault::Fault;
use group_tree::group::GroupId;
use group_tree::path::PathText;
use mem_core::quantity::Quantity;
use step_rules::phase::{Hold, Phase};
use zone_blocks::block::Block;
use zone_blocks::order::Order;

/// Why a step isn't legal as it was answered: what a person should look at first. Each kind is a sentence of the table
/// of reasons.
#[derive(Clone, Copy)]
pub enum Reason {
    /// The seat isn't a CPU's.
    NoCpu(u32),
    /// The seat isn't the zone's.
    NoZoneSeat(u32),
    /// Who holds the lock.
    Lock(Hold),
    /// The frame isn't the zone's.
    NoFrame(u32),
    /// There is no such group.
    NoGroup(GroupId),
    /// A number.
    Number {
        what: Quantity,
        count: u128,
    },
    /// What a frame is.
    Place {
        frame: u32,
        phase: Phase,
    },
    /// A frame isn't the first of a CPU's list.
    NotFirst {
        frame: u32,
        cpu: u32,
    },
    /// The unit that a frame heads is collected, and its group isn't killed.
    Unkilled {
        frame: u32,
        group: GroupId,
    },
    /// A frame has 1 to 255 references.
    BadCount,
    /// A CPU's stock: the group of its last fill, and whether it was drained since.
    Stock {
        cpu: u32,
        group: Option<GroupId>,
        is_drained: bool,
    },
    /// A CPU's book isn't 0, and its stock is of this group.
    Book {
        cpu: u32,
        group: Option<GroupId>,
    },
    /// The group is killed.
    Killed(GroupId),
    /// The group is the root.
    Root,
    /// A group is below this one.
    Child(GroupId),
    /// The tree refuses to make the group.
    Refused(Fault),
    /// The step may be made.
    MayBeMade,
    /// The step has one answer, which is Done.
    OnlyDone,
    /// The lowest group without room, by its path, usage and limit, for this many pages more.
    NoRoom {
        path: PathText,
        usage: u128,
        pages: u32,
        limit: u32,
    },
    /// Each limit on the path from the group up has room for this many pages more.
    Room {
        group: GroupId,
        pages: u32,
    },
    /// The block is free.
    FreeBlock(Block),
    /// No block of the order is free.
    NoFreeBlock(Order),
    /// The zone has no such block.
    NoBlock(Block),
    /// Another order was asked for.
    OtherOrder(Order),
    /// The least number that no group has.
    LeastNumber(GroupId),
}
