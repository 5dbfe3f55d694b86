//! The lines of a session.

ghost use Rattle.std.specs.Prelude.{◌≡◌, IfErr, IfOk};
ghost use Rattle.line_server.specs.Faults.{IsServeReadFault};
ghost use Rattle.line_server.specs.Lines.{ReadsInputLine, is_quit};

use crate::fault::ServeFault;
use crate::{Found, read_line};
use std::alloc::Global;
use std::io::Read;

/// A line that was read.
#[derive(Drop)]
pub enum InputLine {
    /// A line with this text.
    Text(Vec<u8>),
    /// A line that is too long.
    TooLong,
}

/// Reads the next line. None if the session ends with it: the line is `quit`, or the input has ended.
pub fn read_input_line<I: Read>(
    alloc: Global,
    input: &mut I,
) -> Result<Option<InputLine>, ServeFault>
    ensures read { IfOk result (ReadsInputLine (I.remaining input.old) (I.remaining input.new)) }
    ensures fault { IfErr result IsServeReadFault }
{
    let mut line = Vec::new(alloc);
    match read_line(input, &mut line)? {
        Found::End => Ok(None),
        Found::TooLong => Ok(Some(InputLine::TooLong)),
        Found::Line => {
            if is_quit(&line) {
                Ok(None)
            } else {
                Ok(Some(InputLine::Text(line)))
            }
        }
    }
}

// Whether a line ends the session.
fn is_quit(text: &[u8]) -> bool
    ensures { result ≡ is_quit text.now }
{
    text == b"quit".as_slice()
}
