//! Why a command is refused, as an explained answer says it.

ghost use Rattle.std.specs.Prelude.{◌≡◌, ◌<◌, ◌++◌, IfOk, IfSome};
ghost use Rattle.std.specs.String.{string_bytes};
ghost use Rattle.reply_texts.specs.declared.line_answer.LineAnswer.TheVariants.{Served};
ghost use Rattle.script_replay.specs.Commands.{head_named};
ghost use Rattle.script_replay.specs.Ranges.{CommandInRange};
ghost use Rattle.script_replay.specs.Reasons.{borrower_of, fault_in, refusal_reason_text};

use crate::commands::head_named;
use cpu_part::{BootName, Tables};
use group_tree::fault::Fault;
use machine_texts::write_refused;
use mem_machine::{Machine, Place};
use mem_system::{Locked, Outcome};
use reply_texts::{LineAnswer, UnlockedAnswer};
use script_lines::line::Command;
use std::alloc::AllocError;

// Adds the reason of a refusal. It adds nothing if the answer is none.
#[tactic(auto, using(crate::proofs::InRange::head_in_zone))]
pub(crate) fn write_reason<N: BootName>(
    locked: &Locked<N>,
    tables: &Tables<N>,
    command: &Command<'_>,
    value: &LineAnswer,
    text: &mut String,
) -> Result<(), AllocError>
    requires in_range { CommandInRange N.table.frames command.now }
    ensures { IfOk result (λ _. string_bytes text.new ≡ string_bytes text.old
        ++ refusal_reason_text (fault_in value.now)
        (borrower_of (head_named command.now) locked.now.machine)) }
{
    let Some(fault) = fault_in(value) else {
        return Ok(());
    };
    let borrower = borrower_of(locked.machine(), tables, head_named(command));
    write_refused(&fault, borrower, text)
}

// The refusal that an answer is, if it is one.
fn fault_in(value: &LineAnswer) -> Option<Fault>
    ensures { result ≡ fault_in value.now }
{
    match value {
        LineAnswer::Served(outcome) => fault_of(outcome),
        LineAnswer::Unlocked(UnlockedAnswer::Refused(fault)) => Some(*fault),
        _ => None,
    }
}

// The refusal that an outcome is, if it is one.
fn fault_of(outcome: &Outcome) -> Option<Fault>
    ensures { result ≡ fault_in (Served outcome.now) }
{
    match *outcome {
        Outcome::OverLimit(group) => Some(Fault::OverLimit { group }),
        Outcome::Refused(fault) => Some(fault),
        _ => None,
    }
}

// The CPU that the frame is lent to, if there is a frame, and it is lent.
fn borrower_of<N: BootName>(
    machine: &Machine<N>,
    tables: &Tables<N>,
    head: Option<u32>,
) -> Option<u32>
    requires { IfSome head (λ frame. frame < N.table.frames) }
    ensures { result ≡ borrower_of head machine.now }
{
    let Some(number) = head else {
        return None;
    };
    let frame = tables.words.frame(number).unwrap();
    match machine.place(frame) {
        Place::Lent(cpu) => Some(cpu),
        _ => None,
    }
}
