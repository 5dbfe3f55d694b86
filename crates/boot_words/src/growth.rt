//! Laws of the run so far, which follows from the pasts of all seats.

ghost use Rattle.boot_words.specs.Growth.{ABootHasNoSteps, GainsGoOn, TheRunSoFarIsLegal};

/// At first, when no past has a step, the run so far has none.
pub fn a_boot_has_no_steps()
    ensures { ABootHasNoSteps }
{}

/// If a CPU and the zone gain steps, the run so far goes on by them.
pub fn gains_go_on()
    ensures { GainsGoOn }
{}

/// If each past is a beginning of a legal run after which no step of its seat follows, the run so far is legal too, and
/// leads to the same state.
pub fn the_run_so_far_is_legal()
    ensures { TheRunSoFarIsLegal }
{}
