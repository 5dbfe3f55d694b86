//! Readers and writers in memory, some of which fail, and a run of the program over them.

ghost use Rattle.std.specs.Prelude.{◌≤◌, IfOk, length};

use load_run::program::drive;
use std::cmp::min;
use std::io;
use std::io::{ErrorKind, Read, Write};
use std::process::Abort;
use std::sync::Wait;
use std::thread::Threads;

/// A script that is read a few bytes at a time. One of the reads may fail.
#[derive(Drop)]
pub struct ScriptReader<'a> {
    pub rest_of_script: &'a [u8],
    pub bytes_at_once: usize,
    /// How many reads succeed before the one that fails.
    pub good_reads: Option<u32>,
    /// Why that one fails.
    pub read_fault: ErrorKind,
}

impl Read for ScriptReader<'_> {
    fn read(&mut self, buf: &mut [u8]) -> io::Result<usize> {
        match self.good_reads {
            Some(0) => {
                self.good_reads = None;
                return Err(io::Error::from(self.read_fault));
            }
            Some(good) => self.good_reads = Some(good - 1),
            None => {}
        }
        let n = min(
            self.bytes_at_once,
            min(buf.len(), self.rest_of_script.len()),
        );
        buf[..n].copy_from_slice(&self.rest_of_script[..n]);
        self.rest_of_script = &self.rest_of_script[n..];
        Ok(n)
    }
}

/// The script, this many bytes at a time.
pub fn reader_in_steps(rest_of_script: &[u8], bytes_at_once: usize) -> ScriptReader<'_> {
    ScriptReader {
        rest_of_script,
        bytes_at_once,
        good_reads: None,
        read_fault: ErrorKind::ConnectionReset,
    }
}

/// The script, a few bytes at a time.
pub fn script_reader(rest_of_script: &[u8]) -> ScriptReader<'_> {
    reader_in_steps(rest_of_script, 5)
}

/// A script whose first read fails.
pub fn broken_reader() -> ScriptReader<'static> {
    ScriptReader {
        good_reads: Some(0),
        ..script_reader(&[])
    }
}

/// A writer that takes a few bytes at a time. It fails once its room is used up. A flush may fail too.
#[derive(Drop)]
pub struct AnswerWriter {
    pub text: Vec<u8>,
    pub bytes_at_once: usize,
    pub room: usize,
    /// How many writes are interrupted before one isn't.
    pub interrupts: u32,
    /// Whether the next write takes nothing and returns 0.
    pub is_idle: bool,
    pub flushes: bool,
}

/// A writer with room for this many bytes, whose memory is already allocated.
pub fn writer_with_room(rt: &(impl Abort + AllocGlobal), room: usize) -> AnswerWriter {
    AnswerWriter {
        text: Vec::with_capacity(rt.alloc(), room).expect(rt, "memory"),
        bytes_at_once: 3,
        room,
        interrupts: 0,
        is_idle: false,
        flushes: true,
    }
}

impl AnswerWriter {
    // Takes some of the bytes, and returns how many.
    fn take(&mut self, bytes: &[u8]) -> Result<usize, ErrorKind>
        ensures { IfOk result (λ taken. taken ≤ length bytes.now) }
    {
        if self.interrupts > 0 {
            self.interrupts -= 1;
            return Err(ErrorKind::Interrupted);
        }
        if self.is_idle {
            self.is_idle = false;
            return Ok(0);
        }
        let taken = min(self.bytes_at_once, min(bytes.len(), self.room));
        if taken == 0 && !bytes.is_empty() {
            return Err(ErrorKind::StorageFull);
        }
        if self.text.extend_from_slice(&bytes[..taken]).is_err() {
            return Err(ErrorKind::OutOfMemory);
        }
        self.room -= taken;
        Ok(taken)
    }
}

impl Write for AnswerWriter {
    fn write(&mut self, buf: &[u8]) -> io::Result<usize> {
        match self.take(buf) {
            Ok(taken) => Ok(taken),
            Err(fault) => Err(io::Error::from(fault)),
        }
    }

    fn flush(&mut self) -> io::Result<()> {
        if self.flushes {
            Ok(())
        } else {
            Err(io::Error::from(ErrorKind::BrokenPipe))
        }
    }
}

/// The status and the outputs of a run.
#[derive(Drop)]
pub struct ProgramRun {
    pub status: u8,
    pub output: Vec<u8>,
    pub faults: Vec<u8>,
}

/// The words of a run at the default sizes.
pub const PLAIN: [&str; 1] = ["replay"];

/// Runs the program over these streams.
pub fn run_program_on(
    rt: &(impl AllocGlobal + Threads + Wait + Abort + Sync),
    words: &[&str],
    script: &mut ScriptReader<'_>,
    mut output: AnswerWriter,
    mut faults: AnswerWriter,
) -> ProgramRun {
    let status = drive(rt, rt.alloc(), words, script, &mut output, &mut faults);
    ProgramRun {
        status,
        output: output.text,
        faults: faults.text,
    }
}

/// Runs the program over this script, with room for this many bytes of answers and for a long fault.
pub fn run_program(
    rt: &(impl AllocGlobal + Threads + Wait + Abort + Sync),
    words: &[&str],
    mut script: ScriptReader<'_>,
    room: usize,
) -> ProgramRun {
    let output = writer_with_room(rt, room);
    let faults = writer_with_room(rt, 10_000);
    run_program_on(rt, words, &mut script, output, faults)
}

/// The words of a command line, which are separated by single spaces.
pub fn words_of<'a>(rt: &(impl Abort + AllocGlobal), words: &'a str) -> Vec<&'a str> {
    let words_apart = words.split(' ').collect(rt.alloc());
    words_apart.expect(rt, words)
}

/// A run with these words over this script is refused with this status, without an answer, and with a fault that begins
/// like this.
pub fn is_refused(
    rt: &(impl AllocGlobal + Threads + Wait + Abort + Sync),
    words: &str,
    script: ScriptReader<'_>,
    status: u8,
    begin: &str,
) {
    let ended = run_program(rt, &words_of(rt, words), script, 10_000);
    expect_row(rt, ended.status == status, words);
    expect_row(rt, ended.output.is_empty(), words);
    expect_row(rt, ended.faults.starts_with(begin.as_bytes()), words);
}

/// The condition holds, or the test fails. A call is cheaper to prove than the macro in its place.
pub fn expect_true(rt: &impl Abort, condition: bool) {
    assert!(rt; condition);
}

/// The condition holds of the row with this name, or the test fails with the name. To format a text would make the
/// check dearer.
pub fn expect_row(rt: &impl Abort, condition: bool, name: &str) {
    condition.then_some(()).expect(rt, name);
}
