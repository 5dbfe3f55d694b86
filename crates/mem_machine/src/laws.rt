//! Laws of every run, machine and CPU: each function ensures one.

ghost use Rattle.mem_machine.specs.Interleaving.{CallsInterleave};
ghost use Rattle.mem_machine.specs.Agreeing.{LedgersAgree};

use step_rules::laws as rules;

/// What a call's list of steps means, whatever other CPUs do meanwhile. Suppose that a run shows the CPU the machine
/// before the call. The run goes on with the call's steps, with any allowed steps of other CPUs between them. Then it
/// shows the CPU the machine after the call. Each answer in the list is the one that the whole state decides.
pub fn calls_interleave()
    ensures { CallsInterleave }
{
    rules::local_runs_interleave();
}

/// What a call does to peaks and event counts. Suppose that a run shows the CPU the machine before the call, and that
/// the ledger has each group's peak and event counts of that run. The run goes on with the call's steps, with any
/// allowed steps of other CPUs between them. Then the ledger after the call has the peaks and event counts of the
/// longer run.
pub fn ledgers_agree()
    ensures { LedgersAgree }
{}
