//! The result of a check as text.

ghost use Rattle.std.specs.Prelude.{◌≡◌, ◌++◌, IfOk, codes, decimal, flat_map};
ghost use Rattle.log_check.specs.ReasonTexts.{reason_text, said};
ghost use Rattle.log_check.specs.declared.verdict.LogVerdict.TheVariants.{Legal};
ghost use Rattle.log_check.specs.Texts.{count_text, due_text, end_text, free_text, holder_text, illegal_text, left_text};
ghost use Rattle.log_check.specs.Texts.{step_place_text, legal_text, verdict_text};

use crate::number::push_number;
use crate::reason::Reason;
use crate::verdict::{IllegalStep, LogEnd, LogVerdict};
use crate::write_reason;
use log_lines::write_answer;
use std::alloc::AllocError;
use step_rules::step::Answer;

/// Appends the lines that say what a log is. It fails only if memory runs out.
pub fn write_verdict(verdict: &LogVerdict, text: &mut Vec<u8>) -> Result<(), AllocError>
    ensures { IfOk result (λ _. text.new.items ≡ text.old.items ++ verdict_text verdict.now) }
{
    match verdict {
        LogVerdict::Legal { steps, free, end } => write_legal(*steps, *free, end, text),
        LogVerdict::NotLegal(illegal) => write_illegal(illegal, text),
        LogVerdict::LeftOut {
            steps,
            count,
            first,
        } => write_left_out(*steps, *count, first, text),
        LogVerdict::BadLine { line, fault } => {
            say(b"bad line ", *line, fault.ending().as_bytes(), text)
        }
    }
}

// Appends the lines for a legal log.
fn write_legal(steps: u64, free: u64, end: &LogEnd, text: &mut Vec<u8>) -> Result<(), AllocError>
    ensures { IfOk result (λ _. text.new.items ≡ text.old.items ++ verdict_text (Legal steps free end.now)) }
{
    write_steps(steps, text)?;
    write_free(free, text)?;
    write_end(end, text)
}

fn write_steps(steps: u64, text: &mut Vec<u8>) -> Result<(), AllocError>
    ensures { IfOk result (λ _. text.new.items ≡ text.old.items ++ legal_text steps) }
{
    say(b"legal: ", steps, b" steps, the promise holds\n", text)
}

fn write_free(free: u64, text: &mut Vec<u8>) -> Result<(), AllocError>
    ensures { IfOk result (λ _. text.new.items ≡ text.old.items ++ free_text free) }
{
    say(b"free: the lock was free after ", free, b" of them\n", text)
}

// Appends what a log leaves at its end.
fn write_end(end: &LogEnd, text: &mut Vec<u8>) -> Result<(), AllocError>
    ensures { IfOk result (λ _. text.new.items ≡ text.old.items ++ end_text end.now) }
{
    write_left(end, text)?;
    write_holder(end.holder, text)
}

// Appends how many units and pages are left.
fn write_left(end: &LogEnd, text: &mut Vec<u8>) -> Result<(), AllocError>
    ensures { IfOk result (λ _. text.new.items ≡ text.old.items ++ left_text end.now) }
{
    say(
        b"left: ",
        u64::from(end.units),
        b" units without references, ",
        text,
    )?;
    say_pages(end.pending, b" pages pending", text)
}

// Appends a number between two texts.
fn say(before: &[u8], number: u64, after: &[u8], text: &mut Vec<u8>) -> Result<(), AllocError>
    ensures { IfOk result (λ _. text.new.items ≡ text.old.items ++ said before.now number after.now) }
{
    text.extend_from_slice(before)?;
    push_number(number, text)?;
    text.extend_from_slice(after)
}

// Appends a number of pages and a text.
fn say_pages(pages: u128, after: &[u8], text: &mut Vec<u8>) -> Result<(), AllocError>
    ensures { IfOk result (λ _. text.new.items ≡ text.old.items ++ (decimal pages ++ after.now)) }
{
    push_number(pages, text)?;
    text.extend_from_slice(after)
}

// Appends who holds the lock at the end.
fn write_holder(holder: Option<u32>, text: &mut Vec<u8>) -> Result<(), AllocError>
    ensures { IfOk result (λ _. text.new.items ≡ text.old.items ++ holder_text holder) }
{
    match holder {
        None => text.extend_from_slice(b"\n"),
        Some(cpu) => say(b", locked by CPU ", u64::from(cpu), b"\n", text),
    }
}

// Appends the lines for a log with steps that aren't legal: each that is kept, and how many there are.
fn write_left_out(
    steps: u64,
    count: u64,
    first: &[IllegalStep],
    text: &mut Vec<u8>,
) -> Result<(), AllocError>
    ensures { IfOk result (λ _. text.new.items
        ≡ text.old.items ++ (flat_map illegal_text first.now ++ count_text count steps)) }
{
    write_each(first, text)?;
    write_count(count, steps, text)
}

fn write_each(first: &[IllegalStep], text: &mut Vec<u8>) -> Result<(), AllocError>
    ensures { IfOk result (λ _. text.new.items ≡ text.old.items ++ flat_map illegal_text first.now) }
{
    for illegal in first {
        write_illegal(illegal, text)?;
    }
    Ok(())
}

// Appends how many of the steps aren't legal.
fn write_count(count: u64, steps: u64, text: &mut Vec<u8>) -> Result<(), AllocError>
    ensures { IfOk result (λ _. text.new.items ≡ text.old.items ++ count_text count steps) }
{
    text.extend_from_slice(b"not legal: ")?;
    push_number(count, text)?;
    say(b" of ", steps, b" steps\n", text)
}

// Appends the line for a step that isn't legal.
fn write_illegal(illegal: &IllegalStep, text: &mut Vec<u8>) -> Result<(), AllocError>
    ensures { IfOk result (λ _. text.new.items ≡ text.old.items ++ illegal_text illegal.now) }
{
    write_place(illegal.line, illegal.step, text)?;
    write_due(&illegal.expected, text)?;
    write_why(&illegal.reason, text)
}

// Appends why that answer was due.
fn write_why(reason: &Reason, text: &mut Vec<u8>) -> Result<(), AllocError>
    ensures { IfOk result (λ _. text.new.items ≡ text.old.items ++ (reason_text reason.now ++ codes "\n")) }
{
    write_reason(reason, text)?;
    text.extend_from_slice(b"\n")
}

// Appends the line and the number of a step.
fn write_place(line: u64, step: u64, text: &mut Vec<u8>) -> Result<(), AllocError>
    ensures { IfOk result (λ _. text.new.items ≡ text.old.items ++ step_place_text line step) }
{
    text.extend_from_slice(b"line ")?;
    push_number(line, text)?;
    text.extend_from_slice(b": step ")?;
    push_number(step, text)
}

// Appends the answer that is allowed there.
fn write_due(expected: &Answer, text: &mut Vec<u8>) -> Result<(), AllocError>
    ensures { IfOk result (λ _. text.new.items ≡ text.old.items ++ due_text expected.now) }
{
    text.extend_from_slice(b" is not legal:")?;
    write_answer(expected, text)?;
    text.extend_from_slice(b" was due: ")
}
