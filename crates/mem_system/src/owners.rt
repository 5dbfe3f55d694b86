//! The command Owner.

ghost use Rattle.std.specs.Prelude.{◌<◌};
ghost use Rattle.mem_system.specs.Outcomes.{HasItsGroups};
ghost use Rattle.mem_system.specs.Owners.{ReportsPlace};

use crate::outcome::Outcome;
use cpu_part::{BootName, Tables};
use mem_machine::{Machine, Place, prove_charges};

// The place of the frame: free, lent to a CPU, or charged to a group.
pub(crate) fn report_place<N: BootName>(
    machine: &Machine<N>,
    tables: &Tables<N>,
    frame: u32,
) -> Outcome
    requires { frame < N.table.frames }
    ensures place { ReportsPlace machine.now frame result }
    ensures groups { HasItsGroups machine.now.ledger result }
{
    let frame = tables.words.frame(frame).unwrap();
    match machine.place(frame) {
        Place::Free => Outcome::Free,
        Place::Lent(cpu) => Outcome::Lent(cpu),
        Place::Charged(group) => {
            prove_charges(machine.charges());
            Outcome::Charged(group)
        }
    }
}
