//! The program's version.

ghost use Rattle.std.specs.Prelude.{IfErr, OnOk};
ghost use Rattle.std.specs.Io.KnownBytes.{Appends};
ghost use Rattle.load_run.specs.Causes.{written};
ghost use Rattle.load_run.specs.Checks.{LeavesLine};
ghost use Rattle.load_run.specs.Versions.{WritesVersion, version_text};

use crate::fault::ProgramFault;
use crate::fault_lines::report_fault;
use crate::program::write_answers;
use load_options::command_line::VERSION;
use std::alloc::Global;
use std::io::Write;

/// Writes the program's version to the output, and returns the status to end with: 0, or 1 if the output fails or
/// memory runs out.
#[tactic(auto, using(crate::proofs::Telling::version_written, crate::proofs::Telling::version_unwritten))]
pub fn drive_version<O: Write, F: Write>(alloc: Global, output: &mut O, faults: &mut F) -> u8
    ensures tells { WritesVersion (written (O.contents output.old) (F.contents faults.old))
        (written (O.contents output.new) (F.contents faults.new)) result }
{
    match write_version(alloc, output) {
        Ok(()) => 0,
        Err(unwritten) => report_fault(&unwritten, faults),
    }
}

// Writes the line with the program's name and version.
fn write_version<O: Write>(alloc: Global, output: &mut O) -> Result<(), ProgramFault>
    ensures written { OnOk result (Appends (O.contents output.old) (O.contents output.new) version_text) }
    ensures left { IfErr result (LeavesLine version_text (O.contents output.old) (O.contents output.new)) }
{
    let mut text = String::new(alloc);
    writeln!(text, "memcg {VERSION}")?;
    write_answers(text.as_bytes(), output)
}
