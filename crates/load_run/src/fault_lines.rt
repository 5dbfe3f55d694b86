//! Each fault is reported in a line of its own, or in clap's text of the words, as far as the writer takes it.

ghost use Rattle.std.specs.Prelude.{◌≡◌, ◌++◌, OnOk, decimal};
ghost use Rattle.std.specs.Io.KnownBytes.{Appends};
ghost use Rattle.load_run.specs.Fault.{fault_text, fault_status_of};
ghost use Rattle.line_server.specs.Writing.{AppendsBeginning};

use crate::fault::ProgramFault;
use itoa::Buffer;
use line_server::write_whole;
use load_options::fault::WordsFault;
use script_lines::fault::ScriptFault;
use std::io;
use std::io::Write;

/// Reports a fault in its words, as far as the writer takes them, and returns the status to end with.
pub fn report_fault<F: Write>(fault: &ProgramFault, faults: &mut F) -> u8
    ensures status { result ≡ fault_status_of fault.now }
    ensures told { AppendsBeginning (F.contents faults.old) (F.contents faults.new) (fault_text fault.now) }
{
    let _ = write_fault(fault, faults);
    let _ = faults.flush();
    fault.status()
}

// Writes the text of a fault.
fn write_fault<F: Write>(fault: &ProgramFault, faults: &mut F) -> io::Result<()>
    ensures whole { OnOk result (Appends (F.contents faults.old) (F.contents faults.new) (fault_text fault.now)) }
    ensures beginning { AppendsBeginning (F.contents faults.old) (F.contents faults.new) (fault_text fault.now) }
{
    match fault {
        ProgramFault::Words(WordsFault::BadWords(text)) => write_whole(text.as_bytes(), faults),
        ProgramFault::Script(ScriptFault::BadLine(number)) => {
            write_numbered("bad line ", *number as u64, "\n", faults)
        }
        ProgramFault::BadLogLine(number, reason) => {
            write_numbered("bad line ", *number, reason.ending(), faults)
        }
        ProgramFault::IllegalLine(number) => {
            write_numbered("line ", *number as u64, ": a step is not legal\n", faults)
        }
        ProgramFault::IllegalEnd => write_whole("end: a step is not legal\n".as_bytes(), faults),
        ProgramFault::BadConfig => write_whole("refused 14 BadConfig\n".as_bytes(), faults),
        ProgramFault::Input => write_whole("input failed\n".as_bytes(), faults),
        ProgramFault::Output => write_whole("output failed\n".as_bytes(), faults),
        ProgramFault::Words(WordsFault::NoMemory(_))
        | ProgramFault::Script(ScriptFault::NoMemory)
        | ProgramFault::NoMemory(_) => write_whole("no memory\n".as_bytes(), faults),
    }
}

// Writes a number between two texts.
fn write_numbered<F: Write>(front: &str, number: u64, back: &str, faults: &mut F) -> io::Result<()>
    ensures whole { OnOk result (Appends (F.contents faults.old) (F.contents faults.new)
        (front.now ++ (decimal number ++ back.now))) }
    ensures beginning { AppendsBeginning (F.contents faults.old) (F.contents faults.new)
        (front.now ++ (decimal number ++ back.now)) }
{
    let mut digits = Buffer::new();
    write_whole(front.as_bytes(), faults)?;
    write_whole(digits.format(number).as_bytes(), faults)?;
    write_whole(back.as_bytes(), faults)
}
