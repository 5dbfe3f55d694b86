//! The life of a boot under `run`: the lines before `go` one after the other, the others by a thread for each CPU, and
//! the end.

ghost use Rattle.std.specs.Prelude.{◌≡◌, ◌<◌, ◌^◌, All, IfOk, List, length};
ghost use Rattle.step_rules.specs.After.{Run};
ghost use Rattle.script_replay.specs.{LineInRange, known_system, AreAllAnswers, workers_from};
ghost use Rattle.load_run.specs.Answers.{AreThreadAnswers};

use crate::boot_end::end_boot;
use crate::replaying::with_end;
use crate::survey::survey;
use cpu_part::BootName;
use mem_system::{Boot, Cpu, System};
use script_lines::line::Line;
use script_replay::{Form, NoGate, before_go, replay, run_each};
use std::alloc::{AllocError, Global};
use std::sync::Wait;
use std::thread::Threads;

/// Runs the lines on a boot under a name of its tables, and ends it. It returns what they are answered, with the
/// numbers of the lines or without, and the text of the end if that is asked for. The lines before `go` are served
/// one after the other, as `replay` does, and those from it on by a thread for each CPU, as `run_each` does; if there
/// is no `go`, all lines run in threads. `AllocError` means that memory ran out: the boot has ended then too.
pub fn run_by_threads<N: BootName + Send + Sync, R: Threads + Wait + Sync>(
    rt: &R,
    alloc: Global,
    boot: Boot,
    lines: &[Line<'_>],
    is_numbered: bool,
    is_audited: bool,
) -> Result<Vec<u8>, AllocError>
    requires frames { boot.table ≡ N.table }
    requires lines { All (LineInRange boot.sizes.frames boot.sizes.cpus) lines.now }
    ensures answers { IfOk result (λ text. AreThreadAnswers boot.sizes is_numbered is_audited lines.now text.items) }
{
    let (early, later) = lines.split_at(before_go(lines));
    let (mut locked, tables, mut cpus) = boot.into_parts::<N>(alloc)?;
    let sizes = locked.sizes();
    let form = Form {
        is_explained: false,
        is_numbered,
    };
    let first = replay(alloc, &mut locked, &tables, &mut cpus, early, form);
    survey(&mut locked, &tables, &mut cpus); // All pasts at `go`.
    locked.set_sizes(sizes); // The threads find the sizes of the boot.
    locked.prove_quiet(); // There are fewer than 2^31 CPUs, as `run_each` requires.
    let system = System::of(locked, tables);
    let has_memory = first.is_ok();
    let told = serve_later(
        rt,
        alloc,
        &system,
        &mut cpus,
        later,
        is_numbered,
        has_memory,
    );
    let (mut locked, tables) = system.into_parts();
    survey(&mut locked, &tables, &mut cpus); // All pasts after the threads.
    let ended = end_boot(locked, tables, cpus);
    let mut answers = first?;
    answers.extend_from_slice(&told?)?;
    with_end(alloc, answers, ended, is_audited)
}

// The answers of the later lines, by a thread for each CPU. If memory ran out before, none is started.
fn serve_later<N: BootName + Send + Sync, R: Threads + Wait + Sync>(
    rt: &R,
    alloc: Global,
    system: &System<N>,
    cpus: &mut [Cpu<N>],
    lines: &[Line<'_>],
    is_numbered: bool,
    has_memory: bool,
) -> Result<Vec<u8>, AllocError>
    requires count { length cpus.old < 2 ^ 31 }
    requires lines { All (LineInRange N.table.frames (length cpus.old)) lines.now }
    ensures told { IfOk result (λ text. (told : List Run)
        × AreAllAnswers (known_system N.table system.now.sizes) (workers_from 1 cpus.old lines.now is_numbered) cpus.new told text.items) }
{
    if has_memory {
        run_each(rt, alloc, system, cpus, lines, is_numbered, &NoGate)
    } else {
        Err(AllocError)
    }
}
