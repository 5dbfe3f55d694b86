//! Laws: each function's `ensures` clause is a statement about all runs, machines and CPU parts.

ghost use Rattle.mem_history.specs.Whole.{LinesFollow, FastLinesFollow, TheHolderIsShown, TheSameIsShown};
ghost use Rattle.mem_history.specs.Kept.{ABootAgrees, ABootIsShown, CurrentIsKept, TheWholeIsPromised};
ghost use Rattle.mem_history.specs.Leading.{FastCallsLead};

/// The run without steps shows a new boot.
pub fn a_boot_is_shown()
    ensures { ABootIsShown }
{}

/// The ledger of a new boot agrees with the run without steps: the root's peak is 0, and so is each count.
pub fn a_boot_agrees()
    ensures { ABootAgrees }
{}

/// If a run shows the machine and all parts, it still does if only the lock was taken or released since, or if the
/// machine's past saw more of others' steps.
pub fn the_same_is_shown()
    ensures { TheSameIsShown }
{}

/// Suppose a run shows the machine and all parts, and a CPU has taken the lock. Then the run with that Lock shows this CPU
/// the machine. `calls_interleave` of `mem_machine` begins with such a run.
pub fn the_holder_is_shown()
    ensures { TheHolderIsShown }
{}

/// Suppose a run shows the machine and all parts, and a line is served under the lock. If the run with Lock, the line's
/// steps and Unlock is legal, it shows the machine and all parts after the line. If the peaks and event counts of the
/// ledger were those of the run, they are those of the longer run then.
pub fn lines_follow()
    ensures { LinesFollow }
{}

/// The same holds for a step that takes no lock.
pub fn fast_lines_follow()
    ensures { FastLinesFollow }
{}

/// Suppose a run shows the machine and all parts. Then a fast call that changes a list or a reference makes its CPU's part
/// what one step after the run makes it. These calls are: a get answered Held, a put, an allocation that gets a fresh
/// frame, and a drop that lists one again.
pub fn fast_calls_lead()
    ensures { FastCallsLead }
{}

/// If a run shows the machine and all parts, then the ledger's usage of each group is the frames that the group and
/// its descendants keep by the run, plus the pages prepaid for them.
pub fn current_is_kept()
    ensures { CurrentIsKept }
{}

/// If a run shows the machine and all parts, then the promise holds of what these show.
pub fn the_whole_is_promised()
    ensures { TheWholeIsPromised }
{}
