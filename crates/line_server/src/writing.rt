//! Bytes that are written whole, or as far as the writer takes them.

ghost use Rattle.std.specs.Prelude.{OnOk};
ghost use Rattle.std.specs.Io.KnownBytes.{Appends};
ghost use Rattle.line_server.specs.Writing.{AppendsBeginning};

use std::io;
use std::io::{ErrorKind, Write};

/// Writes all of the bytes, and flushes the writer. If either fails, a beginning of the bytes was written.
pub fn write_and_flush<W: Write>(bytes: &[u8], writer: &mut W) -> io::Result<()>
    ensures whole { OnOk result (Appends (W.contents writer.old) (W.contents writer.new) bytes.now) }
    ensures beginning { AppendsBeginning (W.contents writer.old) (W.contents writer.new) bytes.now }
{
    write_whole(bytes, writer)?;
    writer.flush()
}

/// Writes all of the bytes. An interrupted write is repeated, at most 2^64 - 1 times in all, so that the call returns
/// even if each one is interrupted. If the writer fails, or takes nothing, a beginning of the bytes was written.
pub fn write_whole<W: Write>(bytes: &[u8], writer: &mut W) -> io::Result<()>
    ensures whole { OnOk result (Appends (W.contents writer.old) (W.contents writer.new) bytes.now) }
    ensures beginning { AppendsBeginning (W.contents writer.old) (W.contents writer.new) bytes.now }
{
    let mut taken = 0;
    for _ in 0..u64::MAX {
        if taken == bytes.len() {
            return Ok(());
        }
        match writer.write(&bytes[taken..]) {
            Ok(0) => return Err(io::Error::from(ErrorKind::WriteZero)),
            Ok(n) => taken += n,
            Err(error) if error.kind() == ErrorKind::Interrupted => {}
            Err(error) => return Err(error),
        }
    }
    Err(io::Error::from(ErrorKind::TimedOut))
}
