//! Laws of kills and of refills: what each function ensures holds of every call made as the definitions say.

ghost use Rattle.mem_alloc.specs.KillLaws.{ChargesKillOverLimits, ChargesKillWholeSets};
ghost use Rattle.mem_alloc.specs.Laws.{ChargesKillLast, ChargesTryAllWithoutMin, KillsEndInTime, RefillsAreWhole};
ghost use Rattle.mem_alloc.specs.Laws.{RefusedChargesTriedAll};

/// A charge kills nobody before it tried everything else that memory.min doesn't keep.
pub fn charges_kill_last()
    ensures { ChargesKillLast }
{}

/// In a tree without memory.min that is everything else.
pub fn charges_try_all_without_min()
    ensures { ChargesTryAllWithoutMin }
{}

/// A charge kills whole sets, each right after everything else was tried: all groups that die with a victim die before
/// any other group.
pub fn charges_kill_whole_sets()
    ensures { ChargesKillWholeSets }
{}

/// A charge kills only while its own pages have no room under a limit on the path of its group.
pub fn charges_kill_over_limits()
    ensures { ChargesKillOverLimits }
{}

/// Kills for a limit don't stop while more kills could still help.
pub fn kills_end_in_time()
    ensures { KillsEndInTime }
{}

/// If the boot allows no kills, a charge is refused for a limit only after everything else was tried: all stocks of the
/// limit's subtree are drained, and each clean unit was tried that memory.min doesn't keep.
pub fn refused_charges_tried_all()
    ensures { RefusedChargesTriedAll }
{}

/// A refill adds as many frames as it may.
pub fn refills_are_whole()
    ensures { RefillsAreWhole }
{}
