//! Laws: each function's `ensures` clause is a statement about all lines that were served.

ghost use Rattle.script_replay.specs.History.{LegalLinesAreShown, LegalLinesKeepIt};
ghost use Rattle.script_replay.specs.Lines.{AllLinesGoOn, QuietGetsAreSteps};

/// Whatever the run so far was before lines that were served, it goes on by the steps of all of them, in their order.
pub fn all_lines_go_on()
    ensures { AllLinesGoOn }
{}

/// If a run shows the state before lines and goes on legally with their steps, it shows the state after them.
pub fn legal_lines_are_shown()
    ensures { LegalLinesAreShown }
{}

/// If the ledger has the peaks and event counts of that run besides, the promise holds after each of the lines.
pub fn legal_lines_keep_it()
    ensures { LegalLinesKeepIt }
{}

/// A get that is answered `zero` or `full` is one step of the run, which no log has, and changes nothing.
pub fn quiet_gets_are_steps()
    ensures { QuietGetsAreSteps }
{}
