//! Serving lines one after the other, by value of what lies behind the lock.

ghost use Rattle.std.specs.Prelude.{◌≡◌, All, length, true};
ghost use Rattle.mem_system.specs.{IsSound, locked_state};
ghost use Rattle.step_watch.specs.Watched.{has_legal_steps};
ghost use Rattle.script_replay.specs.declared.replays.Stopped.TheVariants.{NoMemory};
ghost use Rattle.script_replay.specs.Answers.{AddsText, ServesCommand};
ghost use Rattle.script_replay.specs.History.{ReplaysCheckedOrStops, ReplaysOrStops};
ghost use Rattle.script_replay.specs.Lines.{ServesLine, number_in_script, system_state};
ghost use Rattle.script_replay.specs.Ranges.{CommandInRange, LineInRange};
ghost use Rattle.script_replay.specs.Terms.{form_terms, numbered_terms, terms};

use crate::form::{Form, write_numbered};
use crate::server::serve_command;
use crate::writer::write_answer;
use cpu_part::{BootName, Tables};
use mem_system::{Cpu, Locked};
use script_lines::line::{Command, Line};
use std::alloc::{AllocError, Global};

/// Serves the lines in order, each for the CPU that it names, and returns their answers; each line of an answer ends
/// with a line feed. `go` does nothing. `AllocError` is returned if memory runs out for the text of a line. That line
/// and those before it were then served, once each, and no line after it was.
pub fn replay<N: BootName>(
    alloc: Global,
    locked: &mut Locked<N>,
    tables: &Tables<N>,
    cpus: &mut [Cpu<N>],
    lines: &[Line<'_>],
    form: Form,
) -> Result<Vec<u8>, AllocError>
    requires there { All (LineInRange N.table.frames (length cpus.old)) lines.now }
    ensures outcome { ReplaysOrStops (form_terms N.table form) lines.now
        (system_state locked.old cpus.old) (system_state locked.new cpus.new) result }
{
    let mut answers = String::new(alloc);
    for line in lines {
        serve_in_form(alloc, locked, tables, cpus, line, form, &mut answers)?;
    }
    Ok(answers.into_bytes())
}

/// Why a replay that is checked stops.
#[derive(Clone, Copy, Debug, PartialEq, Eq)]
pub enum Stopped {
    /// Memory ran out for the text of a line.
    NoMemory(AllocError),
    /// The watch didn't allow a step of this line, counted from 1 among all lines of the script.
    NotLegal(usize),
}

impl From<AllocError> for Stopped {
    ghost from_gives = { λ error stopped. stopped ≡ NoMemory error };

    fn from(error: AllocError) -> Stopped {
        Stopped::NoMemory(error)
    }
}

/// Serves the lines as `replay` does, and has the machine's watch check each step. It stops after the first line with a
/// step that the watch doesn't allow, or if memory runs out for the text of a line: no later line is served.
pub fn replay_checked<N: BootName>(
    alloc: Global,
    locked: &mut Locked<N>,
    tables: &Tables<N>,
    cpus: &mut [Cpu<N>],
    lines: &[Line<'_>],
    form: Form,
) -> Result<Vec<u8>, Stopped>
    requires there { All (LineInRange N.table.frames (length cpus.old)) lines.now }
    requires legal { has_legal_steps locked.old.machine.run.watch ≡ true }
    ensures outcome { ReplaysCheckedOrStops (form_terms N.table form) lines.now
        (system_state locked.old cpus.old) (system_state locked.new cpus.new) result }
{
    let mut answers = String::new(alloc);
    for next in lines {
        serve_in_form(alloc, locked, tables, cpus, next, form, &mut answers)?;
        if !locked.watch().is_legal() {
            return Err(Stopped::NotLegal(number_of(next)));
        }
    }
    Ok(answers.into_bytes())
}

// The number of a line among all lines of the script; 0 for `go`, which makes no step.
fn number_of(line: &Line<'_>) -> usize
    ensures { result ≡ number_in_script line.now }
{
    match line {
        Line::Go => 0,
        Line::At { number, .. } => *number,
    }
}

// Serves a line and adds its answer in this form. It is inlined, so that the form costs a line one test.
#[inline(always)]
fn serve_in_form<N: BootName>(
    alloc: Global,
    locked: &mut Locked<N>,
    tables: &Tables<N>,
    cpus: &mut [Cpu<N>],
    line: &Line<'_>,
    form: Form,
    answers: &mut String,
) -> Result<(), AllocError>
    requires there { LineInRange N.table.frames (length cpus.old) line.now }
    ensures served { AddsText result answers.old answers.new
        (ServesLine (form_terms N.table form) line.now
        (system_state locked.old cpus.old) (system_state locked.new cpus.new)) }
{
    if form.is_numbered {
        serve_numbered(
            alloc,
            locked,
            tables,
            cpus,
            line,
            form.is_explained,
            answers,
        )
    } else {
        serve_line(locked, tables, cpus, line, form.is_explained, answers)
    }
}

// Serves a line and adds its answer, with its number before each line of that.
fn serve_numbered<N: BootName>(
    alloc: Global,
    locked: &mut Locked<N>,
    tables: &Tables<N>,
    cpus: &mut [Cpu<N>],
    line: &Line<'_>,
    is_explained: bool,
    answers: &mut String,
) -> Result<(), AllocError>
    requires there { LineInRange N.table.frames (length cpus.old) line.now }
    ensures served { AddsText result answers.old answers.new
        (ServesLine (numbered_terms N.table is_explained true) line.now
        (system_state locked.old cpus.old) (system_state locked.new cpus.new)) }
{
    let mut plain = String::new(alloc);
    serve_line(locked, tables, cpus, line, is_explained, &mut plain)?;
    write_numbered(alloc, number_of(line), plain.as_str(), answers)
}

/// Serves a line for the CPU that it names, and appends its answer; each line of the answer ends with a line feed.
/// `AllocError` is returned if memory runs out for the answer. The line was then served, and what was appended of its
/// answer says nothing.
pub fn serve_line<N: BootName>(
    locked: &mut Locked<N>,
    tables: &Tables<N>,
    cpus: &mut [Cpu<N>],
    line: &Line<'_>,
    is_explained: bool,
    answers: &mut String,
) -> Result<(), AllocError>
    requires there { LineInRange N.table.frames (length cpus.old) line.now }
    ensures served { AddsText result answers.old answers.new
        (ServesLine (terms N.table is_explained) line.now
        (system_state locked.old cpus.old) (system_state locked.new cpus.new)) }
{
    match line {
        Line::Go => {
            prove_sound(locked);
            Ok(())
        }
        Line::At { cpu, command, .. } => {
            let at = (*cpu - 1) as usize;
            serve_at_cpu(
                locked,
                tables,
                &mut cpus[at],
                command,
                is_explained,
                answers,
            )
        }
    }
}

// Serves a command at this part and adds its answer. If memory runs out, the command was served all the same.
fn serve_at_cpu<N: BootName>(
    locked: &mut Locked<N>,
    tables: &Tables<N>,
    cpu: &mut Cpu<N>,
    command: &Command<'_>,
    is_explained: bool,
    answers: &mut String,
) -> Result<(), AllocError>
    requires in_range { CommandInRange N.table.frames command.now }
    ensures answered { AddsText result answers.old answers.new
        (ServesCommand (terms N.table is_explained) command.now
        (locked_state locked.old cpu.old) (locked_state locked.new cpu.new)) }
    ensures sound { IsSound N.table locked.new }
{
    let value = serve_command(locked, tables, cpu, command, is_explained);
    let written = write_answer(locked, tables, cpu, command, &value, is_explained, answers);
    prove_sound(locked);
    written
}

// Shows what always holds behind the lock. It does nothing.
pub(crate) fn prove_sound<N: BootName>(locked: &Locked<N>)
    ensures { IsSound N.table locked.now }
{
    locked.prove_quiet();
}
