//! The lines of one CPU, served in order. Lines of other CPUs are skipped.

ghost use Rattle.std.specs.Prelude.{All, IfOk};
ghost use Rattle.std.specs.String.{string_bytes};
ghost use Rattle.script_replay.specs.Answers.{AddsText};
ghost use Rattle.script_replay.specs.Terms.{known_system};
ghost use Rattle.script_replay.specs.CpuLines.{LineCommandInRange, ServesOwn, ServesOwnBySteps, worker};
ghost use Rattle.step_rules.specs.After.{Run};

use crate::{Gate, Visitor, visit_line, visit_numbered_line};
use cpu_part::BootName;
use mem_system::Cpu;
use script_lines::line::Line;
use std::alloc::{AllocError, Global};
use std::sync::Wait;

// What all workers share: all lines, of which each serves its own, and whether their answers have numbers.
#[derive(Drop)]
pub(crate) struct Job<'a, N: BootName, R, G> {
    pub(crate) visitor: Visitor<'a, N, R, G>,
    pub(crate) alloc: Global,
    pub(crate) lines: &'a [Line<'a>],
    pub(crate) is_numbered: bool,
}

// Serves the lines of the CPU of this number, which `cpu` is the part of, and returns their answers, with the number of
// its line before each line of an answer if `is_numbered` is true. The gate is called with the number of each of these
// lines in the script.
pub(crate) fn serve_own<N: BootName, R: Wait, G: Gate>(
    job: &Job<'_, N, R, G>,
    cpu_number: u32,
    cpu: &mut Cpu<N>,
) -> Result<String, AllocError>
    requires { All (LineCommandInRange N.table.frames) job.now.lines.now }
    ensures { IfOk result (λ text. (told : Run)
        × ServesOwn (known_system N.table job.now.visitor.system.now.sizes)
        (worker cpu_number cpu.old job.now.lines.now job.now.is_numbered) cpu.new told (string_bytes text)) }
{
    let mut text = String::new(job.alloc);
    for line in job.lines {
        serve_own_line(job, cpu_number, cpu, line, &mut text)?;
    }
    Ok(text)
}

// Serves the line if it is one of the CPU of this number, and appends its answer.
fn serve_own_line<N: BootName, R: Wait, G: Gate>(
    job: &Job<'_, N, R, G>,
    cpu_number: u32,
    cpu: &mut Cpu<N>,
    line: &Line<'_>,
    text: &mut String,
) -> Result<(), AllocError>
    requires { LineCommandInRange N.table.frames line.now }
    ensures { AddsText result text.old text.new
        (ServesOwnBySteps (known_system N.table job.now.visitor.system.now.sizes) job.now.is_numbered
        cpu_number line.now cpu.old cpu.new) }
{
    match line {
        Line::Go => Ok(()),
        Line::At {
            number: line,
            cpu: line_cpu,
            command,
        } => {
            if *line_cpu != cpu_number {
                return Ok(());
            }
            if job.is_numbered {
                visit_numbered_line(job.alloc, &job.visitor, cpu, *line, command, text)
            } else {
                visit_line(&job.visitor, cpu, *line, command, text)
            }
        }
    }
}
