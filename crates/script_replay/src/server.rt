//! Serving one command of a CPU, by value of what lies behind the lock. The answer is a value.

ghost use Rattle.std.specs.Prelude.{◌≡◌, IsTrue, List, None, Some, ℕ};
ghost use Rattle.std.specs.Borrow.{Bor};
ghost use Rattle.group_tree.specs.Groups.{has_group, number_at};
ghost use Rattle.mem_machine.specs.Showing.{stock_left};
ghost use Rattle.mem_system.specs.Visits.{locked_state};
ghost use Rattle.script_lines.specs.declared.line.Command.TheVariants.{Alloc};
ghost use Rattle.reply_texts.specs.declared.line_answer.LineAnswer.TheVariants.{Settled};
ghost use Rattle.script_replay.specs.Answers.{ServesAnswer};
ghost use Rattle.script_replay.specs.Commands.{frame_path};
ghost use Rattle.script_replay.specs.Ranges.{CommandInRange};
ghost use Rattle.script_replay.specs.Terms.{terms};
ghost use Rattle.script_replay.specs.ValueAnswers.{NamesItsGroups};

use crate::commands::frame_path;
use crate::locked_commands::{alloc_under_lock, serve_under_lock};
use crate::unlocked_commands::{alloc_in_order, try_in_order, watch_paid, watch_unlocked};
use cpu_part::{BootName, Fast, Tables};
use group_tree::fault::Fault;
use group_tree::group::GroupId;
use mem_system::{Cpu, Locked};
use reply_texts::{LineAnswer, UnlockedAnswer};
use script_lines::line::Command;

// Serves a command.
#[inline(always)]
pub(crate) fn serve_command<N: BootName>(
    locked: &mut Locked<N>,
    tables: &Tables<N>,
    cpu: &mut Cpu<N>,
    command: &Command<'_>,
    is_explained: bool,
) -> LineAnswer
    requires in_range { CommandInRange N.table.frames command.now }
    ensures answer { ServesAnswer (terms N.table is_explained) command.now
        (locked_state locked.old cpu.old) (locked_state locked.new cpu.new) result }
    ensures groups { NamesItsGroups locked.new.machine.ledger result }
    ensures last { result ≡ Settled → cpu.new.last ≡ stock_left N.table locked.new.machine cpu.new.part.number }
{
    match frame_path(command) {
        Some(path) => serve_frame(locked, tables, cpu, path, is_explained),
        None => serve_other(locked, tables, cpu, command, is_explained),
    }
}

// Serves another command than an Alloc of a single frame. It is tried without the lock first.
#[inline(always)]
fn serve_other<N: BootName>(
    locked: &mut Locked<N>,
    tables: &Tables<N>,
    cpu: &mut Cpu<N>,
    command: &Command<'_>,
    is_explained: bool,
) -> LineAnswer
    requires in_range { CommandInRange N.table.frames command.now }
    requires other { frame_path command.now ≡ None }
    ensures answer { ServesAnswer (terms N.table is_explained) command.now
        (locked_state locked.old cpu.old) (locked_state locked.new cpu.new) result }
    ensures groups { NamesItsGroups locked.new.machine.ledger result }
    ensures last { result ≡ Settled → cpu.new.last ≡ stock_left N.table locked.new.machine cpu.new.part.number }
{
    let cpu_number = cpu.number();
    if let Some(said) = try_in_order(locked, tables, cpu, command) {
        watch_unlocked(locked, cpu_number, command, &said);
        return LineAnswer::Unlocked(said);
    }
    serve_under_lock(locked, tables, cpu, command, is_explained)
}

// Takes a single frame for the group of this path.
fn serve_frame<N: BootName>(
    locked: &mut Locked<N>,
    tables: &Tables<N>,
    cpu: &mut Cpu<N>,
    path: &[u8],
    is_explained: bool,
) -> LineAnswer
    ensures answer { ServesAnswer (terms N.table is_explained) (Alloc path.entry 0)
        (locked_state locked.old cpu.old) (locked_state locked.new cpu.new) result }
    ensures groups { NamesItsGroups locked.new.machine.ledger result }
    ensures last { result ≡ Settled → cpu.new.last ≡ stock_left N.table locked.new.machine cpu.new.part.number }
{
    let Some(group) = locked.find(path) else {
        return LineAnswer::Unlocked(UnlockedAnswer::Refused(Fault::NoGroup));
    };
    serve_frame_of(locked, tables, cpu, group, is_explained)
}

// Takes a single frame for an existing group, if possible without the lock. It looks up no path.
pub(crate) fn serve_frame_of<N: BootName>(
    locked: &mut Locked<N>,
    tables: &Tables<N>,
    cpu: &mut Cpu<N>,
    group: GroupId,
    is_explained: bool,
) -> LineAnswer
    requires there { IsTrue (has_group locked.old.machine.ledger.groups group) }
    ensures answer { (path : Bor (List ℕ)) → number_at locked.old.machine.ledger.groups path.now ≡ Some group
        → ServesAnswer (terms N.table is_explained) (Alloc path 0)
        (locked_state locked.old cpu.old) (locked_state locked.new cpu.new) result }
    ensures groups { NamesItsGroups locked.new.machine.ledger result }
    ensures last { result ≡ Settled → cpu.new.last ≡ stock_left N.table locked.new.machine cpu.new.part.number }
{
    let cpu_number = cpu.number();
    match alloc_in_order(locked, tables, cpu, group) {
        Fast::Got(frame) => {
            watch_paid(locked, cpu_number, group);
            LineAnswer::Unlocked(UnlockedAnswer::Fast(Fast::Got(frame)))
        }
        _ => alloc_under_lock(locked, tables, cpu, group, 0, is_explained),
    }
}

// Serves an Alloc of this order for an existing group: of a single frame without the lock, if possible. It looks up no
// path.
#[inline(always)]
pub(crate) fn serve_alloc_of<N: BootName>(
    locked: &mut Locked<N>,
    tables: &Tables<N>,
    cpu: &mut Cpu<N>,
    group: GroupId,
    order: u32,
    is_explained: bool,
) -> LineAnswer
    requires there { IsTrue (has_group locked.old.machine.ledger.groups group) }
    ensures answer { (path : Bor (List ℕ)) → number_at locked.old.machine.ledger.groups path.now ≡ Some group
        → ServesAnswer (terms N.table is_explained) (Alloc path order)
        (locked_state locked.old cpu.old) (locked_state locked.new cpu.new) result }
    ensures groups { NamesItsGroups locked.new.machine.ledger result }
{
    if order == 0 {
        serve_frame_of(locked, tables, cpu, group, is_explained)
    } else {
        alloc_under_lock(locked, tables, cpu, group, order, is_explained)
    }
}
