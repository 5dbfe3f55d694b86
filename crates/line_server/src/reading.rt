//! Lines, one at a time, from any reader.

ghost use Rattle.std.specs.Prelude.{◌≡◌, ◌≤◌, IfOk, IfSome, OnOk, length};
ghost use Rattle.std.specs.Io.BufRead.{DropsThrough};
ghost use Rattle.line_server.specs.Streams.{EndsLine, IsFound, TakesByte};
ghost use Rattle.line_server.specs.declared.reading.ReadFault.TheVariants.{NoMemory};

use std::alloc::{AllocError, AllocFailed};
use std::io::{ErrorKind, Read};

/// The most bytes that a line has, its line feed not counted.
pub const MAX_LINE: usize = 1_024;

/// What a reader held.
#[derive(Clone, Copy, Debug, PartialEq, Eq)]
pub enum Found {
    /// A line of at most 1,024 bytes.
    Line,
    /// A longer line, which was skipped.
    TooLong,
    /// Nothing: the input has ended.
    End,
}

/// Why no line can be read.
#[derive(Clone, Copy, Debug, PartialEq, Eq)]
pub enum ReadFault {
    /// The reader failed, with any error.
    Input,
    /// Memory ran out for the line.
    NoMemory,
}

impl From<AllocError> for ReadFault {
    ghost from_gives = { λ _ fault. fault ≡ NoMemory };

    fn from(_error: AllocError) -> ReadFault {
        ReadFault::NoMemory
    }
}

impl<T: Drop> From<AllocFailed<T>> for ReadFault {
    ghost from_gives = { λ _ fault. fault ≡ NoMemory };

    fn from(_error: AllocFailed<T>) -> ReadFault {
        ReadFault::NoMemory
    }
}

/// Reads a line and its line feed, which the last line of the input may lack. The text of the line replaces what `line`
/// held. If the line has more than 1,024 bytes, all of it is read, and `line` holds nothing.
///
/// The reader is asked for one byte at a time: put a buffer in front of it. An interrupted read is repeated, at most
/// 2^64 - 1 times, so that the call returns even if each one is interrupted.
pub fn read_line<I: Read>(input: &mut I, line: &mut Vec<u8>) -> Result<Found, ReadFault>
    ensures found { IfOk result (λ found.
        IfSome (I.remaining input.old) (λ bytes. IsFound bytes found line.new.items)) }
    ensures rest { OnOk result (DropsThrough (I.remaining input.old) (I.remaining input.new) 10) }
    ensures short { OnOk result (length line.new.items ≤ 1024) }
{
    line.clear();
    for _ in 0..MAX_LINE {
        let Some(byte) = next_byte(input)? else {
            return Ok(if line.is_empty() {
                Found::End
            } else {
                Found::Line
            });
        };
        if byte == b'\n' {
            return Ok(Found::Line);
        }
        line.push(byte)?;
    }
    end_line(input, line)
}

// Reads what follows the first 1,024 bytes of a line: its line feed, or the rest of a line that is too long.
fn end_line<I: Read>(input: &mut I, line: &mut Vec<u8>) -> Result<Found, ReadFault>
    ensures { IfOk result (λ found. EndsLine (I.remaining input.old) (I.remaining input.new) found
        line.old.items line.new.items) }
{
    let Some(byte) = next_byte(input)? else {
        return Ok(Found::Line);
    };
    if byte == b'\n' {
        return Ok(Found::Line);
    }
    line.clear();
    skip_line(input)?;
    Ok(Found::TooLong)
}

// Reads all bytes through the next line feed, or to the end of the input.
fn skip_line<I: Read>(input: &mut I) -> Result<(), ReadFault>
    ensures { OnOk result (DropsThrough (I.remaining input.old) (I.remaining input.new) 10) }
{
    for _ in 0..u64::MAX {
        let Some(byte) = next_byte(input)? else {
            return Ok(());
        };
        if byte == b'\n' {
            return Ok(());
        }
    }
    Err(ReadFault::Input)
}

// Reads the next byte. None at the end of the input.
fn next_byte<I: Read>(input: &mut I) -> Result<Option<u8>, ReadFault>
    ensures { IfOk result (TakesByte (I.remaining input.old) (I.remaining input.new)) }
{
    let mut byte = [0];
    for _ in 0..u64::MAX {
        match input.read(&mut byte) {
            Ok(0) => return Ok(None),
            Ok(_) => return Ok(Some(byte[0])),
            Err(error) if error.kind() == ErrorKind::Interrupted => {}
            Err(_) => return Err(ReadFault::Input),
        }
    }
    Err(ReadFault::Input)
}
