//! Laws: each function's `ensures` clause is a statement about all visits of a run.

ghost use Rattle.load_run.specs.Threads.{PastsBegin, RunsShowFinds, RunsShowVisits};

/// A CPU's past is a beginning of its past after more steps of it.
pub fn pasts_begin()
    ensures { PastsBegin }
{}

/// A run shows what a CPU's look behind the lock found, if the CPU's past after the look is a beginning of it.
pub fn runs_show_finds()
    ensures { RunsShowFinds }
{}

/// A run shows what a visit found and left, if the CPU's past after the visit is a beginning of it.
pub fn runs_show_visits()
    ensures { RunsShowVisits }
{}
