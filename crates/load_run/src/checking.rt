//! The check of a log: what the log is, is written to the output, or a fault is reported, and the status says which.

ghost use Rattle.std.specs.Prelude.{Bool, List, Option, IfErr, OnOk, ℕ};
ghost use Rattle.std.specs.Io.KnownBytes.{Appends};
ghost use Rattle.log_check.specs.Texts.{verdict_text};
ghost use Rattle.load_run.specs.Causes.{written};
ghost use Rattle.load_run.specs.Checks.{Checks, HasStatus, IsLogVerdictOf, LeavesLine};

use crate::fault::ProgramFault;
use crate::fault_lines::report_fault;
use crate::program::write_answers;
use log_check::verdict::{LogFault, LogVerdict};
use log_check::{check, write_verdict};
use std::alloc::{AllocError, Global};
use std::io::{Read, Write};

/// Checks the log that the input holds, and returns the status to end with.
///
/// The log is read up to where it is known what it is. If it is legal, the output gets the number of its steps, after how
/// many of them the lock was free, and what the log leaves, and the status is 0. If a step isn't legal, the output gets
/// its line, its number, the answer that was due and the reason, and the status is 1. With `is_all` the log is read to its
/// end, as if such steps hadn't been made. The output gets the first 1,000 of them, and how many there are. A bad line is
/// a fault of status 2, and the output gets nothing. If the input can't be read, the output can't be written, or memory
/// runs out, that is a fault of status 1.
#[tactic(auto, using(crate::proofs::Verdicts::verdict_of, crate::proofs::Verdicts::checks_fault))]
pub fn drive_check<I: Read, O: Write, F: Write>(
    alloc: Global,
    is_all: bool,
    input: &mut I,
    output: &mut O,
    faults: &mut F,
) -> u8
    ensures checks { Checks is_all (I.remaining input.old) (written (O.contents output.old) (F.contents faults.old))
        (written (O.contents output.new) (F.contents faults.new)) result }
{
    match check(alloc, input, is_all) {
        Ok(verdict) => report_log(alloc, &verdict, output, faults),
        Err(LogFault::Input) => report_fault(&ProgramFault::Input, faults),
        Err(LogFault::NoMemory) => report_fault(&ProgramFault::NoMemory(AllocError), faults),
    }
}

// Reports what the log is.
#[tactic(auto, using(crate::proofs::Verdicts::checks_bad_line))]
fn report_log<O: Write, F: Write>(
    alloc: Global,
    verdict: &LogVerdict,
    output: &mut O,
    faults: &mut F,
) -> u8
    ensures checks { (all : Bool) (input : Option (List ℕ)) → IsLogVerdictOf all input verdict.now
        → Checks all input (written (O.contents output.old) (F.contents faults.old))
        (written (O.contents output.new) (F.contents faults.new)) result }
{
    match verdict {
        LogVerdict::Legal { .. } => report_verdict(alloc, verdict, 0, output, faults),
        LogVerdict::NotLegal(_) => report_verdict(alloc, verdict, 1, output, faults),
        LogVerdict::LeftOut { .. } => report_verdict(alloc, verdict, 1, output, faults),
        LogVerdict::BadLine { line, fault } => {
            report_fault(&ProgramFault::BadLogLine(*line, *fault), faults)
        }
    }
}

// Reports that a log is legal or isn't, which has this status.
#[tactic(auto, using(crate::proofs::Verdicts::checks_written, crate::proofs::Verdicts::checks_unwritten))]
fn report_verdict<O: Write, F: Write>(
    alloc: Global,
    verdict: &LogVerdict,
    status: u8,
    output: &mut O,
    faults: &mut F,
) -> u8
    ensures checks { (all : Bool) (input : Option (List ℕ)) → IsLogVerdictOf all input verdict.now → HasStatus verdict.now status
        → Checks all input (written (O.contents output.old) (F.contents faults.old))
        (written (O.contents output.new) (F.contents faults.new)) result }
{
    match write_verdict_line(alloc, verdict, output) {
        Ok(()) => status,
        Err(unwritten) => report_fault(&unwritten, faults),
    }
}

// Writes the lines that say what the log is.
fn write_verdict_line<O: Write>(
    alloc: Global,
    verdict: &LogVerdict,
    output: &mut O,
) -> Result<(), ProgramFault>
    ensures written { OnOk result (Appends (O.contents output.old) (O.contents output.new) (verdict_text verdict.now)) }
    ensures left { IfErr result
        (LeavesLine (verdict_text verdict.now) (O.contents output.old) (O.contents output.new)) }
{
    let mut text = Vec::new(alloc);
    write_verdict(verdict, &mut text)?;
    write_answers(&text, output)
}
