//! Serving commands under the lock.

ghost use Rattle.mem_system.specs.Outcomes.{HasItsGroups};
ghost use Rattle.mem_system.specs.Commands.{IsSettled, IsSettledAfter, NamesWhatExists};
ghost use Rattle.mem_system.specs.Lost.{LosesNoUnit};
ghost use Rattle.mem_system.specs.Shown.{SettlesCaller};
ghost use Rattle.mem_system.specs.TextCommands.{IsOfZone, ServesText};
ghost use Rattle.mem_system.specs.Visits.{EndsVisit, IsServed, locked_state};

use crate::command::{LockedCommand, execute};
use crate::cpus::Cpu;
use crate::lock::Locked;
use crate::outcome::Outcome;
use crate::text_command::TextCommand;
use cpu_part::{BootName, Tables};

/// Serves one command of the CPU, whose caller keeps others out. The CPU takes the lock in the run. Earlier notes are
/// forgotten, the CPU's visit is opened, its fresh and back frames are settled, the command is executed, the visit is
/// shut, and the lock is released. The notes are now of the limits without room that the command met, of what was tried
/// there, and of who was killed. What the command names exists: a frame of the zone, or a group. The result is an
/// outcome without texts, which the charges give while the lock is held.
#[inline(always)]
pub fn serve_outcome<N: BootName>(
    locked: &mut Locked<N>,
    tables: &Tables<N>,
    cpu: &mut Cpu<N>,
    cmd: &LockedCommand<'_>,
) -> Outcome
    requires { NamesWhatExists N.table locked.old.machine.ledger.groups cmd.now }
    ensures served { IsServed N.table cmd.now result (locked_state locked.old cpu.old)
        (locked_state locked.new cpu.new) }
    ensures groups { HasItsGroups locked.new.machine.ledger result }
    ensures settled { IsSettledAfter cmd.now result cpu.new.part }
    ensures ends { EndsVisit N.table (locked_state locked.old cpu.old) (locked_state locked.new cpu.new) }
    ensures lost { LosesNoUnit N.table locked.new.machine }
{
    locked.machine.lock(tables, &cpu.part, &mut cpu.past);
    locked.machine.forget_notes();
    locked.machine.open(tables, &cpu.part);
    locked.machine.settle(tables, &mut cpu.part);
    let outcome = execute(
        &mut locked.machine,
        tables,
        &mut cpu.part,
        locked.sizes,
        cmd,
    );
    locked.machine.shut(tables, &cpu.part);
    locked.machine.unlock(tables, &cpu.part, &mut cpu.past);
    locked.machine.prove_consistent();
    outcome
}

/// Serves one command of the CPU that texts give. It looks up what the command stands for, in the same hold of the lock,
/// and serves that as `serve_outcome` does. If it stands for none, it is refused, and the CPU is settled all the same. A
/// frame that the command names is a frame of the zone.
#[inline(always)]
pub fn serve_text<N: BootName>(
    locked: &mut Locked<N>,
    tables: &Tables<N>,
    cpu: &mut Cpu<N>,
    command: &TextCommand<'_>,
) -> Outcome
    requires { IsOfZone N.table command.now }
    ensures served { ServesText N.table command.now result (locked_state locked.old cpu.old)
        (locked_state locked.new cpu.new) }
    ensures groups { HasItsGroups locked.new.machine.ledger result }
    ensures ends { EndsVisit N.table (locked_state locked.old cpu.old) (locked_state locked.new cpu.new) }
    ensures lost { LosesNoUnit N.table locked.new.machine }
{
    match command.resolve(locked.charges()) {
        Ok(cmd) => serve_outcome(locked, tables, cpu, &cmd),
        Err(fault) => {
            let _done = serve_outcome(locked, tables, cpu, &LockedCommand::Settle);
            Outcome::Refused(fault)
        }
    }
}

/// Serves `Settle`: settles the CPU, and does nothing else.
pub fn serve_settle<N: BootName>(locked: &mut Locked<N>, tables: &Tables<N>, cpu: &mut Cpu<N>)
    ensures served { SettlesCaller N.table (locked_state locked.old cpu.old) (locked_state locked.new cpu.new) }
    ensures settled { IsSettled cpu.new.part }
    ensures ends { EndsVisit N.table (locked_state locked.old cpu.old) (locked_state locked.new cpu.new) }
{
    let _settled = serve_outcome(locked, tables, cpu, &LockedCommand::Settle);
}
