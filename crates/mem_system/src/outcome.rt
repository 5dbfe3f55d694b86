//! The outcome of a command.

ghost use Rattle.std.specs.Prelude.{◌≡◌};
ghost use Rattle.mem_system.specs.declared.outcome.Outcome.TheVariants.{Text};
ghost use Rattle.mem_system.specs.Outcomes.{HasItsGroups, shown_text};

use control_files::file::{File, file_text};
use control_files::stat::MemoryStat;
use control_files::text::ArrayText;
use group_charge::charges::Charges;
use group_tree::fault::Fault;
use group_tree::group::GroupId;

/// The outcome of a command. It holds no text: while the lock is held, the charges give the path of a group and the text
/// of a file, to a caller that needs their bytes.
#[derive(Clone, Copy, PartialEq, Eq)]
pub enum Outcome {
    /// The group that was made.
    Group(GroupId),
    /// The first frame of what was allocated.
    Frame(u32),
    /// It was done.
    Done,
    /// This file of the group was read: `shown_text` gives its text.
    Text(GroupId, File),
    /// memory.stat was read, with these sums: `stat_text` gives its text. The charges don't have the sums.
    Stat(MemoryStat),
    /// The frame is free.
    Free,
    /// The frame is lent to this CPU.
    Lent(u32),
    /// The frame is charged to this group.
    Charged(GroupId),
    /// The unit is now marked, on the inactive list of its group.
    Marked,
    /// The unit is now at the newest end of its group's active list, unmarked.
    Active,
    /// This many references of CPUs are left on the unit: it stays charged, and isn't kept any more.
    Left(u64),
    /// The unit was freed, and its pages were uncharged from its group.
    Returned,
    /// The limit of this group has no room.
    OverLimit(GroupId),
    /// The command is refused for this reason.
    Refused(Fault),
}

/// The text of the file of the group that an outcome shows, by the charges that the command left.
pub fn shown_text(charges: &Charges, group: GroupId, file: File) -> ArrayText
    requires { HasItsGroups charges.now (Text group file) }
    ensures { result ≡ shown_text charges.now group file }
{
    match file_text(charges, group, file) {
        Ok(text) => text,
        Err(_) => unreachable!(),
    }
}
