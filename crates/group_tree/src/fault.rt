//! Why a request is refused.

ghost use Rattle.std.specs.Prelude.{◌≡◌};
ghost use Rattle.group_tree.specs.Faults.{number_of, name_of};

use crate::group::GroupId;
use thiserror::Error;

/// The refusals, in the order of their numbers, which begin at 1.
#[derive(Clone, Copy, Debug, PartialEq, Eq, Error)]
pub enum Fault {
    /// The path to make has no parent group.
    #[error("the parent group is not there")]
    NoParent,
    /// A group with the path to make exists already.
    #[error("the group is there already")]
    Exists,
    /// The path is malformed, or it is the root's: the root can neither be made nor removed.
    #[error("the path is malformed or that of the root")]
    BadName,
    /// As many groups exist as the tree has room for.
    #[error("there is no room for one more group")]
    TreeFull,
    /// The path is well-formed but has more than 8 names.
    #[error("the path has more than 8 names")]
    TooDeep,
    /// No group has the path.
    #[error("the group is not there")]
    NoGroup,
    /// The group to remove has children.
    #[error("the group has children")]
    HasChildren,
    /// Pages are still charged to the group to remove.
    #[error("the group still has pages")]
    Busy,
    /// The CPU holds as many references as it may.
    #[error("the CPU holds too many references")]
    PinsFull,
    /// The group has no file of that name. The root has no files at all.
    #[error("the group has no such file")]
    NoFile,
    /// The file cannot be written.
    #[error("the file cannot be written")]
    ReadOnly,
    /// The text is not a value of the file: a limit, a flag or an amount.
    #[error("the text is no limit")]
    BadLimit,
    /// The value is above 2^64 - 1: a limit, or an amount.
    #[error("the limit is too great a number")]
    BadNumber,
    /// A size of the configuration is out of its range.
    #[error("the configuration is out of range")]
    BadConfig,
    /// The charge would take a group over its limit.
    #[error("the charge goes over the limit of a group")]
    OverLimit {
        /// The group whose limit has no room.
        group: GroupId,
    },
    /// The zone has no free block of the order or above.
    #[error("the zone has no free block that is great enough")]
    NoFrames,
    /// Reclaim freed fewer pages than the caller asked for.
    #[error("fewer pages were given back than asked")]
    Again,
    /// The group that the call is for was killed.
    #[error("the group was killed")]
    Killed,
    /// The order is above 10.
    #[error("the order is above 10")]
    BadOrder,
    /// The frame is not the head of a kept unit.
    #[error("the frame is not the head of a kept unit")]
    NotKept,
    /// The CPU holds no reference on the frame.
    #[error("the CPU holds no reference on the frame")]
    NotPinned,
    /// The file cannot be read.
    #[error("the file cannot be read")]
    WriteOnly,
}

impl Fault {
    /// The number of the refusal, from 1 to 22.
    pub fn number(&self) -> u32
        ensures { result ≡ number_of self.now }
    {
        match self {
            Fault::NoParent => 1,
            Fault::Exists => 2,
            Fault::BadName => 3,
            Fault::TreeFull => 4,
            Fault::TooDeep => 5,
            Fault::NoGroup => 6,
            Fault::HasChildren => 7,
            Fault::Busy => 8,
            Fault::PinsFull => 9,
            Fault::NoFile => 10,
            Fault::ReadOnly => 11,
            Fault::BadLimit => 12,
            Fault::BadNumber => 13,
            Fault::BadConfig => 14,
            Fault::OverLimit { .. } => 15,
            Fault::NoFrames => 16,
            Fault::Again => 17,
            Fault::Killed => 18,
            Fault::BadOrder => 19,
            Fault::NotKept => 20,
            Fault::NotPinned => 21,
            Fault::WriteOnly => 22,
        }
    }

    /// The name of the refusal, as answers print it.
    pub fn name(&self) -> &'static str
        ensures { result.now ≡ name_of self.now }
    {
        match self {
            Fault::NoParent => "NoParent",
            Fault::Exists => "Exists",
            Fault::BadName => "BadName",
            Fault::TreeFull => "TreeFull",
            Fault::TooDeep => "TooDeep",
            Fault::NoGroup => "NoGroup",
            Fault::HasChildren => "HasChildren",
            Fault::Busy => "Busy",
            Fault::PinsFull => "PinsFull",
            Fault::NoFile => "NoFile",
            Fault::ReadOnly => "ReadOnly",
            Fault::BadLimit => "BadLimit",
            Fault::BadNumber => "BadNumber",
            Fault::BadConfig => "BadConfig",
            Fault::OverLimit { .. } => "OverLimit",
            Fault::NoFrames => "NoFrames",
            Fault::Again => "Again",
            Fault::Killed => "Killed",
            Fault::BadOrder => "BadOrder",
            Fault::NotKept => "NotKept",
            Fault::NotPinned => "NotPinned",
            Fault::WriteOnly => "WriteOnly",
        }
    }
}
