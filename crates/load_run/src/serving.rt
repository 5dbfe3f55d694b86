//! A session: each line of the input is answered before the next one is read, or a fault is reported, and the status
//! says which.

ghost use Rattle.std.specs.Prelude.{◌≡◌, IfErr, OnOk, length};
ghost use Rattle.zone_blocks.specs.Config.{IsValidConfig};
ghost use Rattle.load_options.specs.Sizes.{HasSizesInRange};
ghost use Rattle.script_replay.specs.Lines.{system_state};
ghost use Rattle.line_server.specs.Turns.{GivesAnswer};
ghost use Rattle.load_run.specs.Causes.{written};
ghost use Rattle.load_run.specs.Sessions.{BeginsHead, DrivesSession, EndsInForm, IsSameFault, IsWorkFault};
ghost use Rattle.load_run.specs.Sessions.{LeavesSession, ServesInput, ServesWithHead, StopsSession, WritesHead};

use crate::boot_end::end_boot;
use crate::fault::ProgramFault;
use crate::fault_lines::report_fault;
use crate::logging::{log_end, log_head};
use crate::program::write_answers;
use crate::replaying::with_end;
use cpu_part::{BootName, Tables};
use line_server::{ServeFault, Server, SessionForm};
use load_options::task::Options;
use mem_system::{Boot, BootFault, Cpu, Locked, boot};
use script_lines::verb::command_names;
use std::alloc::{AllocError, Global};
use std::io::{Read, Write};
use std::marker::Brand;
use zone_blocks::config::Config;

/// Boots with the sizes of the options, answers the lines that the input holds in this form, and returns the status to
/// end with: 0 at `quit` or at the end of the input; 2 if the sizes are refused, before any line is read; 1 if the
/// input can't be read, an answer can't be written, or memory runs out.
pub fn drive_serve<I: Read, O: Write, F: Write>(
    alloc: Global,
    options: &Options,
    form: SessionForm,
    input: &mut I,
    output: &mut O,
    faults: &mut F,
) -> u8
    requires in_range { HasSizesInRange options.now.sizes }
    ensures drives { DrivesSession options.now form (I.remaining input.old)
        (written (O.contents output.old) (F.contents faults.old))
        (written (O.contents output.new) (F.contents faults.new)) result }
{
    match serve_input(alloc, options, form, input, output) {
        Ok(()) => 0,
        Err(fault) => report_fault(&fault, faults),
    }
}

// Answers the lines that the input holds, on a new boot, after the head.
fn serve_input<I: Read, O: Write>(
    alloc: Global,
    options: &Options,
    form: SessionForm,
    input: &mut I,
    output: &mut O,
) -> Result<(), ProgramFault>
    requires in_range { HasSizesInRange options.now.sizes }
    ensures served { OnOk result (ServesWithHead options.now form (I.remaining input.old)
        (O.contents output.old) (O.contents output.new)) }
    ensures stopped { IfErr result (StopsSession options.now form (I.remaining input.old)
        (O.contents output.old) (O.contents output.new)) }
{
    match boot(alloc, options.sizes) {
        Ok(boot) => {
            write_head(alloc, form, &options.sizes, output)?;
            serve_on_boot::<Brand, I, O>(alloc, boot, options, form, input, output)
        }
        Err(BootFault::BadConfig) => Err(ProgramFault::BadConfig),
        Err(BootFault::NoMemory) => Err(ProgramFault::NoMemory(AllocError)),
    }
}

// Writes the head, if the session writes a log.
fn write_head<O: Write>(
    alloc: Global,
    form: SessionForm,
    sizes: &Config,
    output: &mut O,
) -> Result<(), ProgramFault>
    ensures written { OnOk result (WritesHead form sizes.now (O.contents output.old) (O.contents output.new)) }
    ensures begun { IfErr result (λ fault. IsWorkFault fault
        × BeginsHead form sizes.now (O.contents output.old) (O.contents output.new)) }
{
    match form {
        SessionForm::Answers { .. } => Ok(()),
        SessionForm::Steps => write_answers(&log_head(alloc, sizes)?, output),
    }
}

// Holds a session on a boot under a name of its tables, which ends then.
fn serve_on_boot<N: BootName, I: Read, O: Write>(
    alloc: Global,
    boot: Boot,
    options: &Options,
    form: SessionForm,
    input: &mut I,
    output: &mut O,
) -> Result<(), ProgramFault>
    requires frames { boot.table ≡ N.table }
    requires sizes { boot.sizes ≡ options.now.sizes }
    requires valid { IsValidConfig options.now.sizes }
    requires in_range { HasSizesInRange options.now.sizes }
    ensures served { OnOk result (ServesInput options.now form (I.remaining input.old)
        (O.contents output.old) (O.contents output.new)) }
    ensures left { IfErr result (LeavesSession options.now form (I.remaining input.old)
        (O.contents output.old) (O.contents output.new)) }
{
    let names = command_names(alloc)?;
    let (locked, tables, cpus) = boot.into_parts::<N>(alloc)?;
    let mut server = Server::new(names, locked, tables, cpus, options.sizes, form);
    let served = server.serve_buffered(alloc, input, output);
    let (locked, tables, cpus) = server.into_parts();
    let ended = end_session(alloc, form, locked, tables, cpus, options.is_audited);
    match served {
        Ok(()) => write_answers(&ended?, output),
        Err(fault) => Err(fault_of(fault)),
    }
}

// Ends the boot, and returns what is written about that. It fails only if memory runs out; the boot has ended then too.
fn end_session<N: BootName>(
    alloc: Global,
    form: SessionForm,
    locked: Locked<N>,
    tables: Tables<N>,
    cpus: Vec<Cpu<N>>,
    is_audited: bool,
) -> Result<Vec<u8>, AllocError>
    requires count { length cpus.items ≡ N.table.cpus }
    ensures ended { GivesAnswer result
        (EndsInForm form N.table is_audited (system_state locked cpus.items)) }
{
    match form {
        SessionForm::Answers { .. } => {
            let ended = end_boot(locked, tables, cpus);
            with_end(alloc, Vec::new(alloc), ended, is_audited)
        }
        SessionForm::Steps => {
            let mut log = Vec::new(alloc);
            log_end(alloc, locked, tables, cpus, &mut log)?;
            Ok(log)
        }
    }
}

// The same fault of the program.
fn fault_of(fault: ServeFault) -> ProgramFault
    ensures { IsSameFault fault result }
{
    match fault {
        ServeFault::Input => ProgramFault::Input,
        ServeFault::Output => ProgramFault::Output,
        ServeFault::NoMemory => ProgramFault::NoMemory(AllocError),
    }
}
