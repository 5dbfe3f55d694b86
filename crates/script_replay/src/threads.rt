//! A thread for each CPU. The lines before `go` are served in order first.

ghost use Rattle.std.specs.Prelude.{◌≡◌, ◌+◌, ◌++◌, ◌<◌, ◌≤◌, ◌^◌, ℕ, All, IfOk, List, length};
ghost use Rattle.std.specs.Thread.{IsSend, IsSync};
ghost use Rattle.step_rules.specs.After.{Run};
ghost use Rattle.script_replay.specs.Ranges.{LineInRange};
ghost use Rattle.script_replay.specs.Terms.{known_system};
ghost use Rattle.script_replay.specs.CpuLines.{LineCommandInRange, ServesOwn, worker};
ghost use Rattle.script_replay.specs.Threads.{AreAllAnswers, heading, workers_from};
ghost use Rattle.script_replay.specs.Runs.{RunsLines, lines_before_go};

use crate::cpu_lines::{Job, serve_own};
use crate::{Gate, Visitor, replay_by_visits};
use cpu_part::BootName;
use mem_system::{Cpu, System};
use script_lines::line::Line;
use std::alloc::{AllocError, Global};
use std::sync::Wait;
use std::thread::{Threads, join_mut};

/// Serves the lines before `go` in order, as `replay_by_visits` does, without a gate. Then it serves those from `go` on
/// by one thread for each CPU, as `run_each` does. Without a `go`, all lines run in threads.
///
/// The answers of the lines before `go` come first, without a heading. `AllocError` is as in `replay_by_visits`, and no
/// thread was started then, or as in `run_each`.
pub fn run_lines<N: BootName + Send + Sync, R: Threads + Wait + Sync, G: Gate + Sync>(
    rt: &R,
    alloc: Global,
    system: &System<N>,
    cpus: &mut [Cpu<N>],
    lines: &[Line<'_>],
    gate: &G,
) -> Result<Vec<u8>, AllocError>
    requires count { length cpus.old < 2 ^ 31 }
    requires lines { All (LineInRange N.table.frames (length cpus.old)) lines.now }
    ensures { IfOk result (λ text. (told : List Run) × RunsLines (known_system N.table system.now.sizes)
        lines.now cpus.old cpus.new told text.items) }
{
    let (early, later) = lines.split_at(before_go(lines));
    let mut text = replay_by_visits(rt, alloc, system, cpus, early)?;
    let answers = run_each(rt, alloc, system, cpus, later, false, gate)?;
    text.extend_from_slice(&answers)?;
    Ok(text)
}

/// How many lines precede `go`; 0 if there is no `go`.
pub fn before_go(lines: &[Line<'_>]) -> usize
    ensures { result ≡ lines_before_go lines.now }
{
    let mut place = 0;
    for line in lines {
        if matches!(line, Line::Go) {
            return place;
        }
        place += 1;
    }
    0
}

/// Serves the lines by one thread for each CPU: each thread serves the lines of its own CPU in their order. Returns the
/// answers CPU by CPU, each CPU's after a line `cpu P`, even if it has no lines. Each line of an answer begins with the
/// number of its line if `is_numbered` is true.
///
/// The gate is called around each line, with the line's number in the script, and inside each visit of a command. If a
/// thread can't be started, a thread that runs serves the lines of its CPU, after those of its own CPU. `AllocError`:
/// memory ran out for the answers. All threads that were started have ended when this returns.
pub fn run_each<N: BootName + Send + Sync, R: Threads + Wait + Sync, G: Gate + Sync>(
    rt: &R,
    alloc: Global,
    system: &System<N>,
    cpus: &mut [Cpu<N>],
    lines: &[Line<'_>],
    is_numbered: bool,
    gate: &G,
) -> Result<Vec<u8>, AllocError>
    requires count { length cpus.old < 2 ^ 31 }
    requires lines { All (LineInRange N.table.frames (length cpus.old)) lines.now }
    ensures { IfOk result (λ text. (told : List Run) × AreAllAnswers (known_system N.table system.now.sizes)
        (workers_from 1 cpus.old lines.now is_numbered) cpus.new told text.items) }
{
    let job = Job {
        visitor: Visitor { rt, system, gate },
        alloc,
        lines,
        is_numbered,
    };
    run_from(&job, 1, cpus)
}

// Serves the lines of these CPUs, the first of which has this number. Half of the CPUs go to a new thread, so the stack
// grows as the logarithm of their count.
#[cycle(halves)]
fn run_from<N: BootName + Send + Sync, R: Threads + Wait + Sync, G: Gate + Sync>(
    job: &Job<'_, N, R, G>,
    first: u32,
    cpus: &mut [Cpu<N>],
) -> Result<Vec<u8>, AllocError>
    requires count { first + length cpus.old ≤ 2 ^ 31 }
    requires lines { All (LineCommandInRange N.table.frames) job.now.lines.now }
    ensures { IfOk result (λ text. (told : List Run)
        × AreAllAnswers (known_system N.table job.now.visitor.system.now.sizes)
        (workers_from first cpus.old job.now.lines.now job.now.is_numbered) cpus.new told text.items) }
{
    if cpus.len() < 2 {
        return run_at_most_one(job, first, cpus);
    }
    let half = cpus.len() / 2;
    let (front, back) = cpus.split_at_mut(half);
    run_both(job, first, front, first + half as u32, back)
}

// Serves the lines of two slices of CPUs, each from this number on, in two threads if a thread can be started.
#[cycle(halves)]
fn run_both<N: BootName + Send + Sync, R: Threads + Wait + Sync, G: Gate + Sync>(
    job: &Job<'_, N, R, G>,
    first: u32,
    front: &mut [Cpu<N>],
    second: u32,
    back: &mut [Cpu<N>],
) -> Result<Vec<u8>, AllocError>
    requires some_front { 1 ≤ length front.old }
    requires some_back { 1 ≤ length back.old }
    requires front { first + length front.old ≤ 2 ^ 31 }
    requires back { second + length back.old ≤ 2 ^ 31 }
    requires lines { All (LineCommandInRange N.table.frames) job.now.lines.now }
    ensures { IfOk result (λ text. (told : List Run)
        × AreAllAnswers (known_system N.table job.now.visitor.system.now.sizes)
        (workers_from first front.old job.now.lines.now job.now.is_numbered
        ++ workers_from second back.old job.now.lines.now job.now.is_numbered)
        (front.new ++ back.new) told text.items) }
{
    let mut run_front = || -> Result<Vec<u8>, AllocError>
        requires { IsSync R.row × IsSync G.row × IsSync N.row × IsSend N.row × (first + length front.now ≤ 2 ^ 31)
            × All (LineCommandInRange N.table.frames) job.now.lines.now }
        ensures { IfOk result (λ text. (told : List Run)
            × AreAllAnswers (known_system N.table job.entry.now.visitor.system.now.sizes)
            (workers_from first front.entry.now job.entry.now.lines.now job.entry.now.is_numbered) front.exit.now told
            text.items) }
    { run_from(job, first, front) };
    let mut run_back = || -> Result<Vec<u8>, AllocError>
        requires { IsSync R.row × IsSync G.row × IsSync N.row × IsSend N.row × (second + length back.now ≤ 2 ^ 31)
            × All (LineCommandInRange N.table.frames) job.now.lines.now }
        ensures { IfOk result (λ text. (told : List Run)
            × AreAllAnswers (known_system N.table job.entry.now.visitor.system.now.sizes)
            (workers_from second back.entry.now job.entry.now.lines.now job.entry.now.is_numbered) back.exit.now told
            text.items) }
    { run_from(job, second, back) };
    let (ours, theirs) = join_mut(job.visitor.rt, &mut run_front, &mut run_back);
    let mut text = ours?;
    let others = theirs?;
    text.extend_from_slice(&others)?;
    Ok(text)
}

// Serves the lines of the CPU, if there is one.
fn run_at_most_one<N: BootName, R: Wait, G: Gate>(
    job: &Job<'_, N, R, G>,
    cpu_number: u32,
    cpus: &mut [Cpu<N>],
) -> Result<Vec<u8>, AllocError>
    requires short { length cpus.old < 2 }
    requires lines { All (LineCommandInRange N.table.frames) job.now.lines.now }
    ensures { IfOk result (λ text. (told : List Run)
        × AreAllAnswers (known_system N.table job.now.visitor.system.now.sizes)
        (workers_from cpu_number cpus.old job.now.lines.now job.now.is_numbered) cpus.new told text.items) }
{
    if cpus.is_empty() {
        return Ok(Vec::new(job.alloc));
    }
    run_one(job, cpu_number, &mut cpus[0])
}

// Serves the lines of the CPU of this number, and returns their answers after the line that heads them.
fn run_one<N: BootName, R: Wait, G: Gate>(
    job: &Job<'_, N, R, G>,
    cpu_number: u32,
    cpu: &mut Cpu<N>,
) -> Result<Vec<u8>, AllocError>
    requires { All (LineCommandInRange N.table.frames) job.now.lines.now }
    ensures { IfOk result (λ text. (told : Run) × (own : List ℕ)
        × ServesOwn (known_system N.table job.now.visitor.system.now.sizes)
        (worker cpu_number cpu.old job.now.lines.now job.now.is_numbered) cpu.new told own
        × (text.items ≡ heading cpu_number ++ own)) }
{
    let mut text = String::new(job.alloc);
    writeln!(text, "cpu {cpu_number}")?;
    let own = serve_own(job, cpu_number, cpu)?;
    text.push_str(own.as_str())?;
    Ok(text.into_bytes())
}
