//! The commands under the lock. By value, the machine's watch takes the Lock before a command and the Unlock after it.

ghost use Rattle.std.specs.Prelude.{◌≡◌, ◌∷◌, [], IsTrue, List, None, Some, ℕ};
ghost use Rattle.std.specs.Borrow.{Bor};
ghost use Rattle.group_tree.specs.Groups.{has_group, number_at};
ghost use Rattle.step_rules.specs.After.{cpu_makes};
ghost use Rattle.boot_words.specs.Pasts.{own_past};
ghost use Rattle.step_rules.specs.declared.step.Action.TheVariants.{Lock, Unlock};
ghost use Rattle.step_rules.specs.declared.step.Answer.TheVariants.{Done};
ghost use Rattle.mem_machine.specs.Showing.{stock_left};
ghost use Rattle.mem_system.specs.Visits.{locked_state};
ghost use Rattle.script_lines.specs.declared.line.Command.TheVariants.{Alloc};
ghost use Rattle.script_replay.specs.Answers.{AnswersLocked, OnlyWatched, ServesUnderLock, locked_with_detail_notes};
ghost use Rattle.script_replay.specs.Commands.{OnlySettles, locked_command_of};
ghost use Rattle.script_replay.specs.Ranges.{CommandInRange};
ghost use Rattle.script_replay.specs.ValueAnswers.{NamesItsGroups};

use crate::commands::locked_command_of;
use cpu_part::{BootName, Tables};
use group_tree::group::GroupId;
use mem_system::{Cpu, Locked, LockedCommand, serve_outcome, serve_settle, serve_text};
use reply_texts::LineAnswer;
use script_lines::line::Command;
use step_rules::step::{Action, Answer};

// The watch takes the Lock of this CPU. It is asked first whether it is on, because an action has room for a path, and
// building one for each line costs.
#[inline(always)]
#[tactic(auto, using(crate::proofs::Taking::unwatched))]
fn watch_lock<N: BootName>(locked: &mut Locked<N>, cpu: u32)
    ensures { OnlyWatched (cpu_makes cpu Lock Done ∷ []) locked.old locked.new }
{
    if !locked.watch().is_on() {
        return;
    }
    locked.take_step(cpu, Action::Lock, Answer::Done);
}

// The watch takes the step by which this CPU gets the lock for a command. Details are noted from now on exactly if the
// command is explained.
#[inline(always)]
fn begin_command<N: BootName>(locked: &mut Locked<N>, cpu: u32, is_explained: bool)
    ensures watched { OnlyWatched (cpu_makes cpu Lock Done ∷ []) (locked_with_detail_notes locked.old is_explained)
        locked.new }
    ensures zone { (own_past locked.old.machine.run.past).number ≡ 0 }
{
    locked.prove_quiet();
    locked.set_detail_notes(is_explained);
    watch_lock(locked, cpu);
}

// The watch takes the step by which the CPU of this number gives the lock back.
#[inline(always)]
#[tactic(auto, using(crate::proofs::Taking::unwatched))]
fn end_command<N: BootName>(locked: &mut Locked<N>, cpu: u32)
    ensures { OnlyWatched (cpu_makes cpu Unlock Done ∷ []) locked.old locked.new }
{
    if !locked.watch().is_on() {
        return;
    }
    locked.take_step(cpu, Action::Unlock, Answer::Done);
}

// Serves a command while no other CPU can: carries out its `TextCommand`, or only settles the CPU. In the run the
// CPU takes the lock and gives it back here.
#[inline(always)]
#[tactic(auto, using(crate::proofs::InRange::locked_command_in_zone))]
pub(crate) fn serve_locked<N: BootName>(
    locked: &mut Locked<N>,
    tables: &Tables<N>,
    cpu: &mut Cpu<N>,
    command: &Command<'_>,
) -> LineAnswer
    requires in_range { CommandInRange N.table.frames command.now }
    requires settles { locked_command_of command.now ≡ None → OnlySettles command.now }
    ensures answers { AnswersLocked N.table command.now result (locked_state locked.old cpu.old)
        (locked_state locked.new cpu.new) }
    ensures groups { NamesItsGroups locked.new.machine.ledger result }
    ensures last { cpu.new.last ≡ stock_left N.table locked.new.machine cpu.new.part.number }
{
    match locked_command_of(command) {
        Some(cmd) => LineAnswer::Served(serve_text(locked, tables, cpu, &cmd)),
        None => {
            serve_settle(locked, tables, cpu);
            LineAnswer::Settled
        }
    }
}

// Serves a command under the lock. Reclaimed units are noted exactly if the command is explained.
#[inline(always)]
pub(crate) fn serve_under_lock<N: BootName>(
    locked: &mut Locked<N>,
    tables: &Tables<N>,
    cpu: &mut Cpu<N>,
    command: &Command<'_>,
    is_explained: bool,
) -> LineAnswer
    requires in_range { CommandInRange N.table.frames command.now }
    requires settles { locked_command_of command.now ≡ None → OnlySettles command.now }
    ensures served { ServesUnderLock N.table is_explained command.now result
        (locked_state locked.old cpu.old) (locked_state locked.new cpu.new) }
    ensures groups { NamesItsGroups locked.new.machine.ledger result }
    ensures last { cpu.new.last ≡ stock_left N.table locked.new.machine cpu.new.part.number }
{
    let cpu_number = cpu.number();
    begin_command(locked, cpu_number, is_explained);
    let value = serve_locked(locked, tables, cpu, command);
    end_command(locked, cpu_number);
    value
}

// Serves an Alloc of this order for this group under the lock. It looks up no path.
#[inline(always)]
pub(crate) fn alloc_under_lock<N: BootName>(
    locked: &mut Locked<N>,
    tables: &Tables<N>,
    cpu: &mut Cpu<N>,
    group: GroupId,
    order: u32,
    is_explained: bool,
) -> LineAnswer
    requires there { IsTrue (has_group locked.old.machine.ledger.groups group) }
    ensures served { (path : Bor (List ℕ)) → number_at locked.old.machine.ledger.groups path.now ≡ Some group
        → ServesUnderLock N.table is_explained (Alloc path order) result
        (locked_state locked.old cpu.old) (locked_state locked.new cpu.new) }
    ensures groups { NamesItsGroups locked.new.machine.ledger result }
    ensures last { cpu.new.last ≡ stock_left N.table locked.new.machine cpu.new.part.number }
{
    let cpu_number = cpu.number();
    begin_command(locked, cpu_number, is_explained);
    let outcome = serve_outcome(locked, tables, cpu, &LockedCommand::Alloc { group, order });
    end_command(locked, cpu_number);
    LineAnswer::Served(outcome)
}
