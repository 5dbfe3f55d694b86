//! Serving one command for the CPU of a number, by value of what lies behind the lock, with its answer as a value.

ghost use Rattle.std.specs.Prelude.{◌≡◌, ◌≤◌, IsTrue, List, Some, length, ℕ};
ghost use Rattle.std.specs.Borrow.{Bor};
ghost use Rattle.group_tree.specs.Groups.{has_group, number_at};
ghost use Rattle.script_lines.specs.declared.line.Command.TheVariants.{Alloc};
ghost use Rattle.script_replay.specs.Commands.{HasValueAnswer};
ghost use Rattle.script_replay.specs.Lines.{system_state};
ghost use Rattle.script_replay.specs.Ranges.{CpuCommandInRange};
ghost use Rattle.script_replay.specs.ValueAnswers.{NamesItsGroups, SaysCommand};

use crate::replays::prove_sound;
use crate::server::{serve_alloc_of, serve_command};
use cpu_part::{BootName, Tables};
use group_tree::group::GroupId;
use mem_system::{Cpu, Locked};
use reply_texts::LineAnswer;
use script_lines::line::Command;

/// Serves a command for the CPU of this number, from 1, as `replay` does, and returns its answer as a value. All that
/// the command names is there, and it isn't `show`, `blocks`, `stock` or `units`. No memory is taken.
///
/// It is inlined with all that it calls for a Get or a Put, so that a caller that names one of them has its steps
/// alone: no command and no answer is built in memory to be matched.
#[inline(always)]
pub fn serve_value<N: BootName>(
    locked: &mut Locked<N>,
    tables: &Tables<N>,
    cpus: &mut [Cpu<N>],
    cpu: u32,
    command: &Command<'_>,
) -> LineAnswer
    requires there { CpuCommandInRange N.table.frames (length cpus.old) cpu command.now }
    requires has_value { HasValueAnswer command.now }
    ensures answer { SaysCommand N.table cpu command.now
        (system_state locked.old cpus.old) (system_state locked.new cpus.new) result }
    ensures groups { NamesItsGroups locked.new.machine.ledger result }
{
    let at = (cpu - 1) as usize;
    let value = serve_command(locked, tables, &mut cpus[at], command, false);
    prove_sound(locked);
    value
}

/// Serves an Alloc of this order for an existing group, at the CPU of this number, as `serve_value` does for each path of
/// that group. It looks up no path. No memory is taken.
#[inline(always)]
pub fn alloc_value<N: BootName>(
    locked: &mut Locked<N>,
    tables: &Tables<N>,
    cpus: &mut [Cpu<N>],
    cpu: u32,
    group: GroupId,
    order: u32,
) -> LineAnswer
    requires low { 1 ≤ cpu }
    requires high { cpu ≤ length cpus.old }
    requires there { IsTrue (has_group locked.old.machine.ledger.groups group) }
    ensures answer { (path : Bor (List ℕ)) → number_at locked.old.machine.ledger.groups path.now ≡ Some group
        → SaysCommand N.table cpu (Alloc path order)
        (system_state locked.old cpus.old) (system_state locked.new cpus.new) result }
    ensures groups { NamesItsGroups locked.new.machine.ledger result }
{
    let at = (cpu - 1) as usize;
    let value = serve_alloc_of(locked, tables, &mut cpus[at], group, order, false);
    prove_sound(locked);
    value
}
