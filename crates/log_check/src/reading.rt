//! Reads a log piece by piece.

ghost use Rattle.std.specs.Prelude.{◌↔◌, IfOk, IfSome, IsTrue, false, true};
ghost use Rattle.log_check.specs.Reading.{ReadsAsFar};
ghost use Rattle.log_check.specs.Verdicts.{IsLegalLog, IsLogVerdict, says_legal};

use crate::reader::LogReader;
use crate::verdict::{LogFault, LogVerdict};
use std::alloc::Global;
use std::io::{ErrorKind, Read};

// The most bytes of one read.
const PIECE: usize = 4_096;

/// Checks whether a log, whoever wrote it, is a legal run. It reads up to the point where the answer is known: to the
/// end if the log is legal. It keeps no more of the text than a line of 1,024 bytes, so the number of lines has no
/// limit.
///
/// An interrupted read is repeated, at most 2^64 - 1 times in all, so that the call returns even if each one is
/// interrupted. Any other error of the reader is `Input`, even if it says that memory ran out. `NoMemory` means that
/// an allocation failed here.
pub fn check_log<I: Read>(alloc: Global, input: &mut I) -> Result<LogVerdict, LogFault>
    ensures verdict { IfOk result (λ verdict. IfSome (I.remaining input.old)
        (λ text. IsLogVerdict false text verdict)) }
    ensures exact { IfOk result (λ verdict. IfSome (I.remaining input.old)
        (λ text. IsTrue (says_legal verdict) ↔ IsLegalLog text)) }
    ensures taken { IfOk result (λ verdict. ReadsAsFar verdict (I.remaining input.old) (I.remaining input.new)) }
{
    check(alloc, input, false)
}

/// Checks a log as `check_log` does. With `is_all` it goes on after a step that isn't legal as if it hadn't been made: it
/// reads up to the first bad line, or to the end, and also keeps the first 1,000 steps that aren't legal.
pub fn check<I: Read>(alloc: Global, input: &mut I, is_all: bool) -> Result<LogVerdict, LogFault>
    ensures verdict { IfOk result (λ verdict. IfSome (I.remaining input.old)
        (λ text. IsLogVerdict is_all text verdict)) }
    ensures exact { IfOk result (λ verdict. IfSome (I.remaining input.old)
        (λ text. IsTrue (says_legal verdict) ↔ IsLegalLog text)) }
    ensures taken { IfOk result (λ verdict. ReadsAsFar verdict (I.remaining input.old) (I.remaining input.new)) }
{
    let mut log = LogReader::new(alloc, is_all);
    let mut piece = [0; PIECE];
    for _ in 0..u64::MAX {
        match input.read(&mut piece) {
            Ok(0) => return Ok(log.end()),
            Ok(n) => {
                if let Some(end) = log.take_bytes(alloc, &piece[..n])? {
                    return Ok(end);
                }
            }
            Err(error) if error.kind() == ErrorKind::Interrupted => {}
            Err(_) => return Err(LogFault::Input),
        }
    }
    Err(LogFault::Input)
}
