//! The bytes of the script, read piece by piece into memory of our own.

ghost use Rattle.std.specs.Prelude.{◌≡◌, IfErr, IfOk, IfSome};
ghost use Rattle.std.specs.Io.KnownBytes.{Consumes};
ghost use Rattle.load_run.specs.Answers.{bytes_read};
ghost use Rattle.load_run.specs.Fault.{IsReadFault};

use crate::fault::ProgramFault;
use script_lines::script::MAX_INPUT;
use std::alloc::Global;
use std::cmp::min;
use std::io::{ErrorKind, Read};

// The most bytes that are read at once.
const PIECE: usize = 4_096;

/// Reads all of the script. If it is longer than a script may be, it reads one byte more, which shows that.
///
/// A read that was interrupted is made again, 2^64 - 1 times in all at most, so that the call returns even if each is.
/// Any other error of the reader is `Input`, also one that says that memory ran out: `NoMemory` comes only if there is
/// no memory here for what was read.
pub fn read_script<I: Read>(alloc: Global, input: &mut I) -> Result<Vec<u8>, ProgramFault>
    ensures read { IfOk result (λ script. IfSome (I.remaining input.old) (λ bytes. script.items ≡ bytes_read bytes)) }
    ensures taken { IfOk result (λ script. Consumes (I.remaining input.old) (I.remaining input.new) script.items) }
    ensures fault { IfErr result IsReadFault }
{
    let mut script = Vec::new(alloc);
    let mut piece = [0; PIECE];
    for _ in 0..u64::MAX {
        if script.len() > MAX_INPUT {
            return Ok(script);
        }
        let wanted = min(PIECE, MAX_INPUT + 1 - script.len());
        match input.read(&mut piece[..wanted]) {
            Ok(0) => return Ok(script),
            Ok(n) => script.extend_from_slice(&piece[..n])?,
            Err(error) if error.kind() == ErrorKind::Interrupted => {}
            Err(_) => return Err(ProgramFault::Input),
        }
    }
    Err(ProgramFault::Input)
}
