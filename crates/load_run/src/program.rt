//! The program over any reader and two writers: an answer that a new boot may give to the script, or what the log is,
//! is written to the output, or a fault is reported, and the status says which.

ghost use Rattle.std.specs.Prelude.{◌≡◌, All, IfErr, IfOk, OnOk, Some, map, true};
ghost use Rattle.std.specs.Io.KnownBytes.{Appends};
ghost use Rattle.zone_blocks.specs.Config.{IsValidConfig};
ghost use Rattle.script_lines.specs.Script.{IsScript};
ghost use Rattle.script_replay.specs.{LineInRange, form_of};
ghost use Rattle.load_options.specs.{HasSizesInRange, options_of};
ghost use Rattle.load_run.specs.Answers.{AreAnswers, IsOnScript};
ghost use Rattle.load_run.specs.Causes.{written};
ghost use Rattle.load_run.specs.Driving.{AnswersTo, Drives, DrivesScript};
ghost use Rattle.load_run.specs.Fault.{IsBootFault, IsFailedTask, IsScriptFault, IsWordsFault};
ghost use Rattle.line_server.specs.Writing.{AppendsBeginning};

use crate::checked_replaying::check_on_boot;
use crate::checking::drive_check;
use crate::fault::ProgramFault;
use crate::fault_lines::report_fault;
use crate::linting::drive_lint;
use crate::logging::steps_on_boot;
use crate::reading::read_script;
use crate::refusals::answered_status;
use crate::replaying::replay_on_boot;
use crate::serving::drive_serve;
use crate::thread_running::run_by_threads;
use crate::versions::drive_version;
use cpu_part::BootName;
use line_server::{SessionForm, write_whole};
use load_options::command_line::options;
use load_options::task::{Options, Task};
use mem_system::{Boot, BootFault, boot};
use script_lines::line::Line;
use script_lines::script::parse_script;
use script_replay::Form;
use std::alloc::{AllocError, Global};
use std::convert::AsStr;
use std::io::{Read, Write};
use std::marker::Brand;
use std::sync::Wait;
use std::thread::Threads;

/// Runs the program: the words that follow its name, the script or the log, the answers and the faults. It gives the
/// status to end with.
///
/// First the words are read. For a task on a script, then the whole script is read and parsed, then the configuration
/// checked, then a boot answers the lines, as the task says, and ends. The answers are gathered first and then written
/// whole; if the output fails, a beginning of them may have been written, and after any other fault nothing. A fault is
/// reported in one line, those of the words in clap's text. The status is 0, or with `--strict` 3 if some answer is a
/// refusal; 2 after a fault of the words, a bad line or a bad configuration; 1 if the script can't be read, the answers
/// can't be written, memory runs out, or a step of a replay with `--check` isn't legal.
/// `drive_check` says how a log is checked.
pub fn drive<R: Threads + Wait + Sync, S: AsStr, I: Read, O: Write, F: Write>(
    rt: &R,
    alloc: Global,
    words: &[S],
    input: &mut I,
    output: &mut O,
    faults: &mut F,
) -> u8
    ensures drives { Drives (options_of (map S.text words.now)) (I.remaining input.old)
        (written (O.contents output.old) (F.contents faults.old))
        (written (O.contents output.new) (F.contents faults.new)) result }
{
    match read_words(alloc, words) {
        Ok(options) => drive_task(rt, alloc, &options, input, output, faults),
        Err(unread) => report_fault(&unread, faults),
    }
}

// Runs the task that is asked for.
#[tactic(auto, using(crate::proofs::Verdicts::script_drives))]
fn drive_task<R: Threads + Wait + Sync, I: Read, O: Write, F: Write>(
    rt: &R,
    alloc: Global,
    options: &Options,
    input: &mut I,
    output: &mut O,
    faults: &mut F,
) -> u8
    requires in_range { HasSizesInRange options.now.sizes }
    ensures drives { Drives (Some options.now) (I.remaining input.old)
        (written (O.contents output.old) (F.contents faults.old))
        (written (O.contents output.new) (F.contents faults.new)) result }
{
    match options.task {
        Task::Check { is_all } => drive_check(alloc, is_all, input, output, faults),
        Task::Lint => drive_lint(alloc, &options.sizes, input, output, faults),
        Task::Replay { .. } => drive_script(rt, alloc, options, input, output, faults),
        Task::Run => drive_script(rt, alloc, options, input, output, faults),
        Task::Steps => drive_script(rt, alloc, options, input, output, faults),
        Task::Serve { is_explained } => {
            let form = SessionForm::Answers { is_explained };
            drive_serve(alloc, options, form, input, output, faults)
        }
        Task::ServeSteps => drive_serve(alloc, options, SessionForm::Steps, input, output, faults),
        Task::Version => drive_version(alloc, output, faults),
    }
}

// Answers the script that the input holds.
fn drive_script<R: Threads + Wait + Sync, I: Read, O: Write, F: Write>(
    rt: &R,
    alloc: Global,
    options: &Options,
    input: &mut I,
    output: &mut O,
    faults: &mut F,
) -> u8
    requires task { IsOnScript options.now.task }
    requires in_range { HasSizesInRange options.now.sizes }
    ensures drives { DrivesScript (Some options.now) (I.remaining input.old)
        (written (O.contents output.old) (F.contents faults.old))
        (written (O.contents output.new) (F.contents faults.new)) result }
{
    match answers_to(rt, alloc, options, input) {
        Ok(answers) => match write_answers(&answers, output) {
            Ok(()) => answered_status(options.is_strict, options.is_numbered, &answers),
            Err(unwritten) => report_fault(&unwritten, faults),
        },
        Err(fault) => report_fault(&fault, faults),
    }
}

// The answers to the script that the input holds.
fn answers_to<R: Threads + Wait + Sync, I: Read>(
    rt: &R,
    alloc: Global,
    options: &Options,
    input: &mut I,
) -> Result<Vec<u8>, ProgramFault>
    requires task { IsOnScript options.now.task }
    requires in_range { HasSizesInRange options.now.sizes }
    ensures { AnswersTo (Some options.now) (I.remaining input.old) result }
{
    let script = read_script(alloc, input)?;
    let lines = lines_of(alloc, &script, options)?;
    answers_of(rt, alloc, options, &script, &lines)
}

// The options that the words ask for.
fn read_words<S: AsStr>(alloc: Global, words: &[S]) -> Result<Options, ProgramFault>
    ensures asked { IfOk result (λ options. options_of (map S.text words.now) ≡ Some options) }
    ensures in_range { IfOk result (λ options. HasSizesInRange options.sizes) }
    ensures fault { IfErr result (IsWordsFault (options_of (map S.text words.now))) }
{
    match options(alloc, words) {
        Ok(options) => Ok(options),
        Err(fault) => Err(ProgramFault::Words(fault)),
    }
}

// The lines of the script, for the sizes of the options. A bad line is a fault of the script, with its number.
fn lines_of<'a>(
    alloc: Global,
    script: &'a [u8],
    options: &Options,
) -> Result<Vec<Line<'a>>, ProgramFault>
    ensures lines { IfOk result (λ lines. IsScript options.now.sizes script.now lines.items) }
    ensures fault { IfErr result (IsScriptFault options.now.sizes script.now) }
{
    match parse_script(alloc, script, &options.sizes) {
        Ok(lines) => Ok(lines),
        Err(fault) => Err(ProgramFault::Script(fault)),
    }
}

// An answer that a new boot may give to the lines of this script.
fn answers_of<R: Threads + Wait + Sync>(
    rt: &R,
    alloc: Global,
    options: &Options,
    script: &[u8],
    lines: &[Line<'_>],
) -> Result<Vec<u8>, ProgramFault>
    requires task { IsOnScript options.now.task }
    requires lines { All (LineInRange options.now.sizes.frames options.now.sizes.cpus) lines.now }
    ensures answers { IfOk result (λ text.
        AreAnswers options.now.task options.now.sizes options.now.is_audited options.now.is_numbered script.now
        lines.now
        text.items) }
    ensures valid { OnOk result (IsValidConfig options.now.sizes) }
    ensures fault { IfErr result (IsBootFault options.now lines.now) }
{
    match boot(alloc, options.sizes) {
        Ok(boot) => answers_on_boot::<Brand, R>(rt, alloc, boot, options, script, lines),
        Err(BootFault::BadConfig) => Err(ProgramFault::BadConfig),
        Err(BootFault::NoMemory) => Err(ProgramFault::NoMemory(AllocError)),
    }
}

// An answer that a boot under a name of its tables may give to the lines, as the task says.
#[tactic(auto, using(crate::proofs::Stopped::check_failed))]
fn answers_on_boot<N: BootName + Send + Sync, R: Threads + Wait + Sync>(
    rt: &R,
    alloc: Global,
    boot: Boot,
    options: &Options,
    script: &[u8],
    lines: &[Line<'_>],
) -> Result<Vec<u8>, ProgramFault>
    requires task { IsOnScript options.now.task }
    requires frames { boot.table ≡ N.table }
    requires sizes { boot.sizes ≡ options.now.sizes }
    requires valid { IsValidConfig options.now.sizes }
    requires lines { All (LineInRange boot.sizes.frames boot.sizes.cpus) lines.now }
    ensures answers { IfOk result (λ text.
        AreAnswers options.now.task boot.sizes options.now.is_audited options.now.is_numbered script.now lines.now
        text.items) }
    ensures fault { IfErr result (IsFailedTask options.now lines.now) }
{
    match options.task {
        Task::Replay {
            is_explained,
            is_checked: true,
        } => {
            let form = form_of(options, is_explained);
            check_on_boot::<N>(alloc, boot, options.sizes, lines, form, options.is_audited)
        }
        Task::Replay {
            is_explained,
            is_checked: false,
        } => {
            let form = form_of(options, is_explained);
            Ok(replay_on_boot::<N>(alloc, boot, lines, form, options.is_audited)?)
        }
        Task::Run => {
            let is_numbered = options.is_numbered;
            let is_audited = options.is_audited;
            let answers = run_by_threads::<N, R>(rt, alloc, boot, lines, is_numbered, is_audited)?;
            Ok(answers)
        }
        Task::Steps => Ok(steps_on_boot::<N>(alloc, boot, options.sizes, script, lines)?),
        Task::Check { .. } | Task::Lint | Task::Serve { .. } | Task::ServeSteps | Task::Version =>
            unreachable!(),
    }
}

// The form of the answers that the options ask for.
fn form_of(options: &Options, is_explained: bool) -> Form
    ensures { result ≡ form_of is_explained options.now.is_numbered }
{
    Form {
        is_explained,
        is_numbered: options.is_numbered,
    }
}

/// Writes all of the answers, or a beginning of them if the writer fails.
pub fn write_answers<O: Write>(answers: &[u8], output: &mut O) -> Result<(), ProgramFault>
    ensures fault { IfErr result (λ fault. fault ≡ ProgramFault.Output) }
    ensures written { OnOk result (Appends (O.contents output.old) (O.contents output.new) answers.now) }
    ensures beginning { AppendsBeginning (O.contents output.old) (O.contents output.new) answers.now }
{
    if write_whole(answers, output).is_ok() && output.flush().is_ok() {
        Ok(())
    } else {
        Err(ProgramFault::Output)
    }
}
