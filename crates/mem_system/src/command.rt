//! The commands that a CPU gives under the lock, and how they are executed.

ghost use Rattle.mem_machine.specs.Local.{KeepsVisit, VisitDoes};
ghost use Rattle.mem_system.specs.Outcomes.{HasItsGroups};
ghost use Rattle.mem_system.specs.Commands.{Executes, FreshAfter, ListAndFreshStayWithin, MayExecute, NamesWhatExists};

use crate::allocations::allocate;
use crate::files::{read_file, write_setting};
use crate::groups::{make_group, remove_group};
use crate::outcome::Outcome;
use crate::owners::report_place;
use crate::releases::release_frame;
use crate::setting::Setting;
use crate::units::{note_dirt, touch_frame};
use control_files::file::File;
use cpu_part::{BootName, CpuLists, Tables};
use group_tree::group::GroupId;
use mem_machine::Machine;
use zone_blocks::config::Config;

/// A command of a CPU that is served under the lock: groups are numbers, and each exists.
#[derive(Clone, Copy, PartialEq, Eq)]
pub enum LockedCommand<'a> {
    /// Makes the group of this path, which may be any bytes.
    Mkdir { path: &'a [u8] },
    /// Removes the group, which has no child. Its stocks are drained and its clean units reclaimed first. If pages are
    /// still charged to it then, it is refused with `Busy`.
    Rmdir { group: GroupId },
    /// Sets something of the group. If the group's usage is above its new memory.max, the stocks of its subtree are
    /// drained and its clean units reclaimed. Then victims are killed until the usage is within the limit or no victim
    /// is left. A write of memory.oom.group changes only what later kills do. The root is refused with `NoFile`.
    Write { group: GroupId, setting: Setting },
    /// Reads the text of a file of the group, which isn't the root. One that can't be read is refused with `WriteOnly`.
    Read { group: GroupId, file: File },
    /// Settles the CPU, and does nothing else.
    Settle,
    /// Reports the place of the frame of this number.
    Owner { frame: u32 },
    /// Notes that the kept unit that this frame heads was used.
    Touch { frame: u32 },
    /// Notes that the pages of the kept unit that this frame heads are dirty.
    Dirty { frame: u32 },
    /// Notes that the pages of the kept unit that this frame heads are clean.
    Clean { frame: u32 },
    /// Releases the kept unit that this frame heads.
    Release { frame: u32 },
    /// Allocates a block of this order for the group; order 0 is a single frame. One above 10 is refused with
    /// `BadOrder`.
    Alloc { group: GroupId, order: u32 },
}

// Executes the command inside the visit.
#[inline(always)]
pub(crate) fn execute<N: BootName>(
    machine: &mut Machine<N>,
    tables: &Tables<N>,
    cpu: &mut CpuLists<N>,
    sizes: Config,
    cmd: &LockedCommand<'_>,
) -> Outcome
    requires names { NamesWhatExists N.table machine.old.ledger.groups cmd.now }
    requires visit { MayExecute N.table sizes machine.old cpu.old }
    ensures executed { VisitDoes N.table (Executes sizes cmd.now result) machine.old cpu.old machine.new cpu.new }
    ensures groups { HasItsGroups machine.new.ledger result }
    ensures stays { KeepsVisit N.table cpu.old machine.new cpu.new }
    ensures fresh { FreshAfter cmd.now result cpu.new.fresh }
    ensures at_most_high { ListAndFreshStayWithin sizes cpu.old cpu.new }
{
    match cmd {
        LockedCommand::Mkdir { path } => make_group(machine, tables, path),
        LockedCommand::Rmdir { group } => remove_group(machine, tables, *group),
        LockedCommand::Write { group, setting } => write_setting(machine, tables, *group, *setting),
        LockedCommand::Read { group, file } => read_file(machine, *group, *file),
        LockedCommand::Settle => Outcome::Done,
        LockedCommand::Owner { frame } => report_place(machine, tables, *frame),
        LockedCommand::Touch { frame } => touch_frame(machine, tables, *frame),
        LockedCommand::Dirty { frame } => note_dirt(machine, tables, *frame, true),
        LockedCommand::Clean { frame } => note_dirt(machine, tables, *frame, false),
        LockedCommand::Release { frame } => release_frame(machine, tables, cpu, sizes, *frame),
        LockedCommand::Alloc { group, order } => allocate(
            machine, tables, cpu, sizes, *group, *order,
        ),
    }
}
