//! The bytes of a log, one after another.

ghost use Rattle.std.specs.Prelude.{◌≡◌, ℕ, ◌+◌, ◌^◌, ◌<◌, ◌≤◌, [], ◌∷◌, ◌++◌, Err, IfErr, IfOk, IfSome, List};
ghost use Rattle.log_check.specs.Reading.{NamesLineAfter, StopsAfter};
ghost use Rattle.log_check.specs.Taking.{Concludes, HasRoomForLine, HasRead, ReadsOrJudges};
ghost use Rattle.log_check.specs.Verdicts.{IsLogVerdict};
ghost use Rattle.log_check.specs.declared.verdict.LogFault.TheVariants.{Input, NoMemory};

use crate::ending::end_of;
use crate::left_out::LeftOut;
use crate::line_fault::LineFault;
use crate::progress::{Progress, Taken};
use crate::verdict::{IllegalStep, LogFault, LogVerdict};
use log_lines::{MAX_LINE, parse_line};
use std::alloc::Global;

/// A log as far as it was read: the unfinished line, the number of finished ones, what these led to, and which of their
/// steps aren't legal.
#[derive(Drop)]
pub(crate) struct LogReader {
    pub(crate) line: Vec<u8>,
    pub(crate) lines: u64,
    pub(crate) progress: Progress,
    // Whether the log is read on after a step that isn't legal.
    pub(crate) is_all: bool,
    pub(crate) left_out: LeftOut,
}

impl LogReader {
    /// A log of which nothing was read yet.
    pub(crate) fn new(alloc: Global, is_all: bool) -> LogReader
        ensures read { HasRead [] result }
        ensures fits { HasRoomForLine result }
        ensures all { result.is_all ≡ is_all }
    {
        LogReader {
            line: Vec::new(alloc),
            lines: 0,
            progress: Progress {
                checker: None,
                steps: 0,
                free: 0,
            },
            is_all,
            left_out: LeftOut::new(alloc),
        }
    }

    /// Takes the next bytes, up to the point where the answer is known.
    pub(crate) fn take_bytes(
        &mut self,
        alloc: Global,
        bytes: &[u8],
    ) -> Result<Option<LogVerdict>, LogFault>
        requires fits { HasRoomForLine self.old }
        ensures read { IfOk result (λ verdict.
            (before : List ℕ) → HasRead before self.old → ReadsOrJudges (before ++ bytes.now) self.new verdict) }
        ensures line { IfOk result (λ verdict. IfSome verdict (NamesLineAfter self.old.lines)) }
        ensures fits { HasRoomForLine self.new }
        ensures all { self.new.is_all ≡ self.old.is_all }
        ensures failed { result ≡ Err Input → 2 ^ 64 ≤ self.new.lines + 2 }
    {
        for byte in bytes {
            let end = self.take_byte(alloc, *byte)?;
            if end.is_some() {
                return Ok(end);
            }
        }
        Ok(None)
    }

    /// The answer for the log if no more bytes follow.
    pub(crate) fn end(self) -> LogVerdict
        requires fits { HasRoomForLine self }
        ensures verdict { (before : List ℕ) → HasRead before self → IsLogVerdict self.is_all before result }
        ensures line { StopsAfter self.lines result }
    {
        let line = self.lines + 1;
        if !self.line.is_empty() {
            return LogVerdict::BadLine {
                line,
                fault: LineFault::NoLineFeed,
            };
        }
        match &self.progress.checker {
            None => LogVerdict::BadLine {
                line,
                fault: LineFault::NoSizes,
            },
            Some(checker) => {
                if self.left_out.count == 0 {
                    LogVerdict::Legal {
                        steps: self.progress.steps,
                        free: self.progress.free,
                        end: end_of(checker.rows()),
                    }
                } else {
                    LogVerdict::LeftOut {
                        steps: self.progress.steps,
                        count: self.left_out.count,
                        first: self.left_out.first,
                    }
                }
            }
        }
    }

    fn take_byte(&mut self, alloc: Global, byte: u8) -> Result<Option<LogVerdict>, LogFault>
        requires fits { HasRoomForLine self.old }
        ensures read { IfOk result (λ verdict.
            (before : List ℕ) → HasRead before self.old → ReadsOrJudges (before ++ byte ∷ []) self.new verdict) }
        ensures line { IfOk result (λ verdict. IfSome verdict (NamesLineAfter self.old.lines)) }
        ensures fits { HasRoomForLine self.new }
        ensures all { self.new.is_all ≡ self.old.is_all }
        ensures lines { self.old.lines ≤ self.new.lines }
        ensures failed { result ≡ Err Input → 2 ^ 64 ≤ self.old.lines + 2 }
    {
        if self.lines == u64::MAX - 1 {
            return Err(LogFault::Input);
        }
        if byte == b'\n' {
            return self.end_line(alloc);
        }
        if self.line.len() >= MAX_LINE {
            return Ok(Some(LogVerdict::BadLine {
                line: self.lines + 1,
                fault: LineFault::TooLong,
            }));
        }
        match self.line.push(byte) {
            Ok(()) => Ok(None),
            Err(_) => Err(LogFault::NoMemory),
        }
    }

    fn end_line(&mut self, alloc: Global) -> Result<Option<LogVerdict>, LogFault>
        requires fits { HasRoomForLine self.old }
        requires few { self.old.lines + 2 < 2 ^ 64 }
        ensures read { IfOk result (λ verdict.
            (before : List ℕ) → HasRead before self.old → ReadsOrJudges (before ++ 10 ∷ []) self.new verdict) }
        ensures line { IfOk result (λ verdict. IfSome verdict (NamesLineAfter self.old.lines)) }
        ensures fits { HasRoomForLine self.new }
        ensures all { self.new.is_all ≡ self.old.is_all }
        ensures lines { self.old.lines ≤ self.new.lines }
        ensures fault { IfErr result (λ fault. fault ≡ NoMemory) }
    {
        self.lines += 1;
        let taken = match parse_line(&self.line) {
            Some(line) => self.progress.take_line(alloc, &line)?,
            None => Taken::Bad(LineFault::of_text(&self.line)),
        };
        self.line.clear();
        self.conclude(taken)
    }

    // What is known of the log once a line was taken so.
    fn conclude(&mut self, taken: Taken) -> Result<Option<LogVerdict>, LogFault>
        requires few { self.old.left_out.count + 1 < 2 ^ 64 }
        ensures concluded { IfOk result (Concludes taken self.old self.new) }
        ensures fault { IfErr result (λ fault. fault ≡ NoMemory) }
        ensures left { self.new.left_out.count ≤ self.old.left_out.count + 1 }
        ensures line { self.new.line ≡ self.old.line }
        ensures lines { self.new.lines ≡ self.old.lines }
        ensures progress { self.new.progress ≡ self.old.progress }
        ensures all { self.new.is_all ≡ self.old.is_all }
    {
        match taken {
            Taken::GoesOn => Ok(None),
            Taken::NotLegal { expected, reason } => {
                let illegal = IllegalStep {
                    line: self.lines,
                    step: self.progress.steps,
                    expected,
                    reason,
                };
                if !self.is_all {
                    return Ok(Some(LogVerdict::NotLegal(illegal)));
                }
                self.left_out.note(illegal)?;
                Ok(None)
            }
            Taken::Bad(fault) => Ok(Some(LogVerdict::BadLine {
                line: self.lines,
                fault,
            })),
        }
    }
}
