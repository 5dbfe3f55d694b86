//! Serving lines by visits, each of which takes the zone's lock by itself.

ghost use Rattle.std.specs.Prelude.{◌≡◌, All, IfNone, IfOk, IfSome, None, OnErr, length, true};
ghost use Rattle.script_lines.specs.declared.line.Command.TheVariants.{Alloc};
ghost use Rattle.step_rules.specs.After.{Run};
ghost use Rattle.script_replay.specs.Answers.{AddsText};
ghost use Rattle.script_replay.specs.Commands.{OnlySettles, locked_command_of};
ghost use Rattle.script_replay.specs.Lines.{StopsAt};
ghost use Rattle.script_replay.specs.Numbers.{SaysNumbered};
ghost use Rattle.script_replay.specs.Ranges.{CommandInRange, LineInRange};
ghost use Rattle.script_replay.specs.Terms.{known_system};
ghost use Rattle.script_replay.specs.Visits.{AnswersWithoutVisitBySteps, NeedsVisit, ServesByVisits, VisitsAll};
ghost use Rattle.script_replay.specs.Visits.{VisitsLine, WritesByVisit};

use crate::commands::frame_path;
use crate::form::write_numbered;
use crate::gates::{Gate, NoGate};
use crate::locked_commands::serve_locked;
use crate::replays::prove_sound;
use crate::unlocked_commands::try_unlocked;
use crate::writer::write_answer;
use cpu_part::{BootName, Fast};
use group_tree::fault::Fault;
use mem_system::{Cpu, System};
use reply_texts::{UnlockedAnswer, write_unlocked};
use script_lines::line::{Command, Line};
use std::alloc::{AllocError, Global};
use std::sync::Wait;

/// What a thread needs for its visits.
#[derive(Drop)]
pub struct Visitor<'a, N: BootName, R, G> {
    /// The runtime by which it waits for the lock.
    pub rt: &'a R,
    /// The system that it visits.
    pub system: &'a System<N>,
    /// The gate that each visit calls.
    pub gate: &'a G,
}

/// Serves the command of a line for this CPU and adds its answer. It calls `before` and `after` of the visitor's gate
/// around that, with the line's number; a visit calls the gate's `inside`. `AllocError` is returned if memory runs out:
/// the command was served then, and `after` isn't called.
pub fn visit_line<N: BootName, R: Wait, G: Gate>(
    visitor: &Visitor<'_, N, R, G>,
    cpu: &mut Cpu<N>,
    line: usize,
    command: &Command<'_>,
    text: &mut String,
) -> Result<(), AllocError>
    requires in_range { CommandInRange N.table.frames command.now }
    ensures answered { AddsText result text.old text.new
        (ServesByVisits (known_system N.table visitor.now.system.now.sizes) command.now cpu.old cpu.new) }
{
    let cpu_number = cpu.number();
    visitor.gate.before(cpu_number, line);
    visit_text(visitor, cpu, command, text)?;
    visitor.gate.after(cpu_number, line);
    Ok(())
}

/// Serves the command of a line as `visit_line` does, and adds its answer with the line's number before each line of
/// that.
pub fn visit_numbered_line<N: BootName, R: Wait, G: Gate>(
    alloc: Global,
    visitor: &Visitor<'_, N, R, G>,
    cpu: &mut Cpu<N>,
    line: usize,
    command: &Command<'_>,
    text: &mut String,
) -> Result<(), AllocError>
    requires in_range { CommandInRange N.table.frames command.now }
    ensures answered { AddsText result text.old text.new (SaysNumbered true line
        (ServesByVisits (known_system N.table visitor.now.system.now.sizes) command.now cpu.old cpu.new)) }
{
    let mut plain = String::new(alloc);
    visit_line(visitor, cpu, line, command, &mut plain)?;
    write_numbered(alloc, line, plain.as_str(), text)
}

// Serves a command of the script and adds its answer. If memory runs out, the command was served all the same.
pub(crate) fn visit_text<N: BootName, R: Wait, G: Gate>(
    visitor: &Visitor<'_, N, R, G>,
    cpu: &mut Cpu<N>,
    command: &Command<'_>,
    text: &mut String,
) -> Result<(), AllocError>
    requires in_range { CommandInRange N.table.frames command.now }
    ensures answered { AddsText result text.old text.new
        (ServesByVisits (known_system N.table visitor.now.system.now.sizes) command.now cpu.old cpu.new) }
{
    match answer_without_visit(visitor, cpu, command) {
        Some(said) => write_unlocked(&said, text),
        None => write_by_visit(visitor, cpu, command, text),
    }
}

// Answers a command without a visit, if that is possible.
#[inline(always)]
fn answer_without_visit<N: BootName, R: Wait, G: Gate>(
    visitor: &Visitor<'_, N, R, G>,
    cpu: &mut Cpu<N>,
    command: &Command<'_>,
) -> Option<UnlockedAnswer>
    requires in_range { CommandInRange N.table.frames command.now }
    ensures answers { IfSome result
        (AnswersWithoutVisitBySteps (known_system N.table visitor.now.system.now.sizes) command.now cpu.old cpu.new) }
    ensures needs_visit { IfNone result
        (NeedsVisit (known_system N.table visitor.now.system.now.sizes) command.now cpu.old cpu.new) }
{
    match frame_path(command) {
        Some(path) => take_listed(visitor, cpu, path),
        None => try_unlocked(visitor.system.tables(), cpu, command),
    }
}

// Takes a frame of the CPU's list for the group of this path, if that is possible. The group is found under the lock.
fn take_listed<N: BootName, R: Wait, G: Gate>(
    visitor: &Visitor<'_, N, R, G>,
    cpu: &mut Cpu<N>,
    path: &[u8],
) -> Option<UnlockedAnswer>
    ensures answers { IfSome result
        (AnswersWithoutVisitBySteps (known_system N.table visitor.now.system.now.sizes) (Alloc path.entry 0)
        cpu.old cpu.new) }
    ensures needs_visit { IfNone result
        (NeedsVisit (known_system N.table visitor.now.system.now.sizes) (Alloc path.entry 0) cpu.old cpu.new) }
{
    let Some(group) = visitor.system.find(visitor.rt, cpu, path) else {
        return Some(UnlockedAnswer::Refused(Fault::NoGroup));
    };
    match cpu.alloc_fast(visitor.system.tables(), group.number()) {
        Fast::Got(frame) => Some(UnlockedAnswer::Fast(Fast::Got(frame))),
        _ => None,
    }
}

// Serves a command by a visit, and adds its answer before the lock is free again.
fn write_by_visit<N: BootName, R: Wait, G: Gate>(
    visitor: &Visitor<'_, N, R, G>,
    cpu: &mut Cpu<N>,
    command: &Command<'_>,
    text: &mut String,
) -> Result<(), AllocError>
    requires in_range { CommandInRange N.table.frames command.now }
    requires settles { locked_command_of command.now ≡ None → OnlySettles command.now }
    ensures answered { AddsText result text.old text.new (λ told. (steps : Run)
        × WritesByVisit (known_system N.table visitor.now.system.now.sizes) command.now steps cpu.old cpu.new told) }
{
    let mut guard = visitor.system.lock(visitor.rt);
    visitor.gate.inside(cpu.number());
    let tables = visitor.system.tables();
    let locked = &mut *guard;
    prove_sound(locked);
    let value = serve_locked(locked, tables, cpu, command);
    prove_sound(locked);
    write_answer(locked, tables, cpu, command, &value, false, text)
}

/// Serves the lines in order, each by a visit of the CPU that it names or by a call that takes no lock. Returns their
/// answers; each line of an answer ends with a line feed. `go` does nothing. `AllocError` is returned if memory runs
/// out for the text of a line. That line and those before it were then served, once each, and no line after it was.
pub fn replay_by_visits<N: BootName, R: Wait>(
    rt: &R,
    alloc: Global,
    system: &System<N>,
    cpus: &mut [Cpu<N>],
    lines: &[Line<'_>],
) -> Result<Vec<u8>, AllocError>
    requires there { All (LineInRange N.table.frames (length cpus.old)) lines.now }
    ensures answers { IfOk result (λ answers.
        VisitsAll (known_system N.table system.now.sizes) lines.now cpus.old cpus.new answers.items) }
    ensures stopped { OnErr result
        (StopsAt (VisitsAll (known_system N.table system.now.sizes)) lines.now cpus.old cpus.new) }
{
    let mut answers = String::new(alloc);
    for line in lines {
        serve_by_visit(rt, system, cpus, line, &mut answers)?;
    }
    Ok(answers.into_bytes())
}

// Serves a line and adds its answer.
fn serve_by_visit<N: BootName, R: Wait>(
    rt: &R,
    system: &System<N>,
    cpus: &mut [Cpu<N>],
    line: &Line<'_>,
    answers: &mut String,
) -> Result<(), AllocError>
    requires there { LineInRange N.table.frames (length cpus.old) line.now }
    ensures served { AddsText result answers.old answers.new
        (VisitsLine (known_system N.table system.now.sizes) line.now cpus.old cpus.new) }
{
    match line {
        Line::Go => Ok(()),
        Line::At { cpu, command, .. } => {
            let at = (*cpu - 1) as usize;
            let visitor = Visitor {
                rt,
                system,
                gate: &NoGate,
            };
            visit_text(&visitor, &mut cpus[at], command, answers)
        }
    }
}
