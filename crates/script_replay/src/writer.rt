//! The text of a command's answer, written from what the command left.

ghost use Rattle.std.specs.Prelude.{◌≡◌, ◌++◌, ◌&&◌, IfOk};
ghost use Rattle.std.specs.String.{string_bytes};
ghost use Rattle.mem_machine.specs.Showing.{stock_left};
ghost use Rattle.mem_system.specs.Visits.{locked_state};
ghost use Rattle.reply_texts.specs.Answers.{answer_text};
ghost use Rattle.reply_texts.specs.declared.line_answer.LineAnswer.TheVariants.{Settled};
ghost use Rattle.script_replay.specs.Answers.{AddsText, IsAnswerText, IsSettledText, IsUnitsText, explanation_if, is_noted};
ghost use Rattle.script_replay.specs.Commands.{OnlySettles, head_named, path_removed};
ghost use Rattle.script_replay.specs.Ranges.{CommandInRange};
ghost use Rattle.script_replay.specs.Reasons.{borrower_of, fault_in, reasoned_text};
ghost use Rattle.script_replay.specs.ValueAnswers.{NamesItsGroups};

use crate::commands::path_removed;
use crate::reasons::write_reason;
use cpu_part::{BootName, Tables};
use group_charge::charges::Charges;
use group_tree::fault::Fault;
use machine_texts::{write_blocks, write_explanation, write_show};
use mem_system::{Cpu, Locked, write_own_stock, write_units_at};
use reply_texts::{LineAnswer, UnlockedAnswer, write_outcome, write_settled, write_unlocked};
use script_lines::line::Command;
use std::alloc::AllocError;

// Adds the text of a command's answer. If `is_explained` is true, a refusal is followed by its reason, and what was
// drained, reclaimed and killed for the command comes last.
pub(crate) fn write_answer<N: BootName>(
    locked: &mut Locked<N>,
    tables: &Tables<N>,
    cpu: &Cpu<N>,
    command: &Command<'_>,
    value: &LineAnswer,
    is_explained: bool,
    text: &mut String,
) -> Result<(), AllocError>
    requires in_range { CommandInRange N.table.frames command.now }
    requires groups { NamesItsGroups locked.old.machine.ledger value.now }
    requires settles { value.now ≡ Settled → OnlySettles command.now }
    requires last { value.now ≡ Settled → cpu.now.last ≡ stock_left N.table locked.old.machine cpu.now.part.number }
    ensures told { AddsText result text.old text.new (λ told.
        IsAnswerText N.table is_explained command.now value.now told (locked_state locked.old cpu.now)) }
    ensures stays { locked.new ≡ locked.old }
{
    match value {
        LineAnswer::Settled => write_settled_cpu(locked, tables, cpu, command, is_explained, text),
        _ => write_value(locked, tables, command, value, is_explained, text),
    }
}

// Adds what a command writes that only settled its CPU.
fn write_settled_cpu<N: BootName>(
    locked: &mut Locked<N>,
    tables: &Tables<N>,
    cpu: &Cpu<N>,
    command: &Command<'_>,
    is_explained: bool,
    text: &mut String,
) -> Result<(), AllocError>
    requires settles { OnlySettles command.now }
    requires last { cpu.now.last ≡ stock_left N.table locked.old.machine cpu.now.part.number }
    ensures told { AddsText result text.old text.new (λ told.
        IsSettledText N.table is_explained command.now told (locked_state locked.old cpu.now)) }
    ensures stays { locked.new ≡ locked.old }
{
    match *command {
        Command::Blocks => write_blocks(locked.machine(), text),
        Command::Show => write_show(locked.machine(), text),
        Command::Stock => write_own_stock(locked, cpu, text),
        Command::Units { path } => write_units_or_refusal(locked, tables, path, is_explained, text),
        _ => write_settled(text),
    }
}

// Adds the kept units of the group of this path, or the refusal if no group has it.
fn write_units_or_refusal<N: BootName>(
    locked: &mut Locked<N>,
    tables: &Tables<N>,
    path: &[u8],
    is_explained: bool,
    text: &mut String,
) -> Result<(), AllocError>
    ensures told { AddsText result text.old text.new (λ told.
        IsUnitsText N.table is_explained path.now told locked.old.machine) }
    ensures stays { locked.new ≡ locked.old }
{
    let is_there = write_units_at(locked, tables, path, text)?;
    if is_there {
        return Ok(());
    }
    let refused = LineAnswer::Unlocked(UnlockedAnswer::Refused(Fault::NoGroup));
    write_value(
        locked,
        tables,
        &Command::Units { path },
        &refused,
        is_explained,
        text,
    )
}

// Adds the text of an answer, with its reason and its explanation.
fn write_value<N: BootName>(
    locked: &Locked<N>,
    tables: &Tables<N>,
    command: &Command<'_>,
    value: &LineAnswer,
    is_explained: bool,
    text: &mut String,
) -> Result<(), AllocError>
    requires in_range { CommandInRange N.table.frames command.now }
    requires groups { NamesItsGroups locked.now.machine.ledger value.now }
    ensures { IfOk result (λ _. string_bytes text.new ≡ string_bytes text.old
        ++ (reasoned_text is_explained (answer_text locked.now.machine.ledger value.now) (fault_in value.now)
        (borrower_of (head_named command.now) locked.now.machine)
        ++ explanation_if (is_noted value.now && is_explained) (path_removed command.now) locked.now.machine)) }
{
    write_plainly(locked.charges(), value, text)?;
    if !is_explained {
        return Ok(());
    }
    write_reason(locked, tables, command, value, text)?;
    explain(locked, command, value, text)
}

// Adds the text of an answer alone.
fn write_plainly(charges: &Charges, value: &LineAnswer, text: &mut String) -> Result<(), AllocError>
    requires { NamesItsGroups charges.now value.now }
    ensures { IfOk result (λ _.
        string_bytes text.new ≡ string_bytes text.old ++ answer_text charges.now value.now) }
{
    match value {
        LineAnswer::Served(outcome) => write_outcome(charges, outcome, text),
        LineAnswer::Settled => write_settled(text),
        LineAnswer::Unlocked(said) => write_unlocked(said, text),
    }
}

// Adds what a command that was served under the lock drained, reclaimed and killed.
fn explain<N: BootName>(
    locked: &Locked<N>,
    command: &Command<'_>,
    value: &LineAnswer,
    text: &mut String,
) -> Result<(), AllocError>
    ensures { IfOk result (λ _. string_bytes text.new ≡ string_bytes text.old
        ++ explanation_if (is_noted value.now) (path_removed command.now) locked.now.machine) }
{
    match value {
        LineAnswer::Served(_) => {
            let machine = locked.machine();
            let (notes, left_out) = (machine.notes(), machine.notes_left_out());
            let tree = machine.charges().tree();
            write_explanation(tree, path_removed(command), notes, left_out, text)
        }
        LineAnswer::Settled => Ok(()),
        LineAnswer::Unlocked(_) => Ok(()),
    }
}
