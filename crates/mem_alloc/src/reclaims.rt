//! Rounds of reclaim from the units of all groups, if no frame is free.

ghost use Rattle.std.specs.Prelude.{◌<◌};
ghost use Rattle.boot_words.specs.Pasts.{IsHeld};
ghost use Rattle.mem_reclaim.specs.{FreesBySteps, ReclaimsRound, Keeps, MissedAll};

use cpu_part::{BootName, Tables};
use group_tree::group::GroupId;
use mem_machine::{Machine, prove_charges};
use mem_reclaim::reclaim_round;

// Makes the round of this number, from 1, in which `want` pages are wanted from the units of all groups, and returns
// how many were freed. The round is noted. If they are fewer, each clean unit that is still kept was tried and missed,
// or memory.min protects it.
pub(crate) fn reclaim_anywhere<N: BootName>(
    machine: &mut Machine<N>,
    tables: &Tables<N>,
    number: u32,
    want: u64,
) -> u64
    requires held { IsHeld N.table machine.old.run.past }
    ensures reclaims { FreesBySteps N.table result machine.old machine.new (ReclaimsRound 0 number want) }
    ensures missed { result < want → MissedAll 0 machine.old machine.new }
    ensures keeps { Keeps N.table machine.old machine.new }
{
    prove_charges(machine.charges());
    reclaim_round(machine, tables, GroupId::root(), number, want).pages
}
