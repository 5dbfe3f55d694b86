//! Laws of commands: what each function ensures holds of every command served as the definitions say.

ghost use Rattle.mem_system.specs.CommandLaws.{EndsLeaveEmptyWords, OnlyCommandsKill, OnlyReclaimFallsShort};
ghost use Rattle.mem_system.specs.CommandLaws.{ReleasesCutLists};
ghost use Rattle.mem_system.specs.Counted.{VisitsFindCounts};
ghost use Rattle.mem_system.specs.KillLaws.{BootsMayKillNobody, CommandsKillOverLimits, CommandsKillWholeSets};
ghost use Rattle.mem_system.specs.KillLaws.{WritesOverALimitTriedAll};
ghost use Rattle.mem_system.specs.Laws.{CommandsKillLast, CommandsTryAllWithoutMin};
ghost use Rattle.mem_system.specs.Lost.{ConsistentMachinesLoseNoUnit};

/// A command kills nobody before it tried everything else that memory.min doesn't keep.
pub fn commands_kill_last()
    ensures { CommandsKillLast }
{}

/// In a tree without memory.min that is everything else.
pub fn commands_try_all_without_min()
    ensures { CommandsTryAllWithoutMin }
{}

/// A command kills whole sets, each right after everything else was tried: all groups that die with a victim die before
/// any other group.
pub fn commands_kill_whole_sets()
    ensures { CommandsKillWholeSets }
{}

/// A Write kills only while the usage is above the limit that its value writes. An Alloc kills only while its own pages,
/// at most 8, have no room under a limit on its group's path. No other command kills.
pub fn commands_kill_over_limits()
    ensures { CommandsKillOverLimits }
{}

/// If the boot chose that no group is killed, no command kills.
pub fn boots_may_kill_nobody()
    ensures { BootsMayKillNobody }
{}

/// If the boot chose that no group is killed, a Write that leaves the usage above the limit that it wrote tried
/// everything else: all stocks of the subtree are drained, and each clean unit was tried that memory.min doesn't keep.
pub fn writes_over_a_limit_tried_all()
    ensures { WritesOverALimitTriedAll }
{}

/// Of all steps of a visit, only those of the command itself kill a group.
pub fn only_commands_kill()
    ensures { OnlyCommandsKill }
{}

/// A Write that is refused changes nothing, unless it is one of memory.reclaim that is refused with `Again`.
pub fn only_reclaim_falls_short()
    ensures { OnlyReclaimFallsShort }
{}

/// A Release leaves at most `high` frames in the CPU's list, if there were at most as many.
pub fn releases_cut_lists()
    ensures { ReleasesCutLists }
{}

/// When the table is closed, no page and no CPU's reference is left in any word.
pub fn ends_leave_empty_words()
    ensures { EndsLeaveEmptyWords }
{}

/// No unit is lost while nobody holds the lock, whatever all CPUs did since. The head of each charged unit is on a list
/// of its group, or a CPU has it: as a back frame, or by a reference. Each frame lent to a CPU is on that CPU's list or
/// fresh there.
pub fn no_unit_is_lost()
    ensures { ConsistentMachinesLoseNoUnit }
{}

/// A visit finds all counts as the last one left them, however many steps CPUs made without the lock since: the peak and
/// the event counts of each group, and how many units ended, were freed or were missed.
pub fn visits_find_counts()
    ensures { VisitsFindCounts }
{}
