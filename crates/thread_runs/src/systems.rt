//! The life of a system whose lines run in one thread for each CPU, from its boot to its audit.

ghost use Rattle.std.specs.Prelude.{◌≡◌, ◌<◌, ◌≤◌, ◌^◌, All, length};
ghost use Rattle.mem_system.specs.Boots.{IsSizedAs};
ghost use Rattle.script_replay.specs.Ranges.{LineInRange};

use cpu_part::BootName;
use load_run::boot_end::end_boot;
use load_run::{Line, parse_script, replay_by_visits, run_lines};
use mem_system::{Audit, Boot, Cpu, System, boot};
use script_replay::Gate;
use std::alloc::{AllocError, Global};
use std::marker::Brand;
use std::process::Abort;
use std::sync::Wait;
use std::thread::Threads;
use zone_blocks::choices::Choices;
use zone_blocks::config::Config;

/// 16 frames and two CPUs.
pub const TWO_CPUS: Config = Config {
    frames: 16,
    cpus: 2,
    batch: 4,
    high: 8,
    stock: 4,
    choices: Choices::NONE,
};

/// The answers of the threads, and those to the lines after them. Then the pins that each of the first four CPUs has,
/// and the audit of the end.
#[derive(Drop)]
pub struct ThreadAnswers {
    pub by_threads: Vec<u8>,
    pub after_threads: Vec<u8>,
    pub pins_left: [u64; 4],
    pub audit: Audit,
}

// How many pins each of the first four CPUs has.
fn pins_of_each<N: BootName>(cpus: &[Cpu<N>]) -> [u64; 4] {
    let mut pins_of_each = [0; 4];
    for (pins, cpu) in pins_of_each.iter_mut().zip(cpus.iter()) {
        *pins = cpu.pin_count() as u64;
    }
    pins_of_each
}

// Runs the lines by threads, and then the last ones by visits.
fn run_and_replay<N: BootName + Send + Sync, R: Threads + Wait + Sync, G: Gate + Sync>(
    rt: &R,
    alloc: Global,
    system: &System<N>,
    cpus: &mut [Cpu<N>],
    lines: &[Line<'_>],
    last: &[Line<'_>],
    gate: &G,
) -> Result<(Vec<u8>, Vec<u8>), AllocError>
    requires count { length cpus.old < 2 ^ 31 }
    requires lines { All (LineInRange N.table.frames (length cpus.old)) lines.now }
    requires last { All (LineInRange N.table.frames (length cpus.old)) last.now }
{
    let by_threads = run_lines(rt, alloc, system, cpus, lines, gate)?;
    let after_threads = replay_by_visits(rt, alloc, system, cpus, last)?;
    Ok((by_threads, after_threads))
}

// Starts the boot under a name of its tables. Runs the lines by threads, and then the last ones by visits. Ends the
// boot even if memory was refused; remaining pins are put then.
fn live_by_threads<N: BootName + Send + Sync, R: Threads + Wait + Sync, G: Gate + Sync>(
    rt: &R,
    alloc: Global,
    boot: Boot,
    lines: &[Line<'_>],
    last: &[Line<'_>],
    gate: &G,
) -> Result<ThreadAnswers, AllocError>
    requires names { boot.table ≡ N.table }
    requires sized { IsSizedAs boot.sizes boot.table }
    requires count { boot.sizes.cpus < 2 ^ 31 }
    requires lines { All (LineInRange boot.sizes.frames boot.sizes.cpus) lines.now }
    requires last { All (LineInRange boot.sizes.frames boot.sizes.cpus) last.now }
{
    let (system, mut cpus) = boot.start::<N>(alloc)?;
    let told = run_and_replay(rt, alloc, &system, &mut cpus, lines, last, gate);
    let pins_left = pins_of_each(&cpus);
    let (locked, tables) = system.into_parts();
    let ended = end_boot(locked, tables, cpus);
    let (by_threads, after_threads) = told?;
    Ok(ThreadAnswers {
        by_threads,
        after_threads,
        pins_left,
        audit: ended.audit,
    })
}

/// Boots a system of these sizes, runs a script in threads and then one after it, and ends the boot. Returns None if
/// memory was refused.
pub fn run_script<R: AllocGlobal + Threads + Wait + Abort + Sync, G: Gate + Sync>(
    rt: &R,
    sizes: Config,
    script: &str,
    last: &str,
    gate: &G,
) -> Option<ThreadAnswers>
    requires { sizes.cpus < 2 ^ 31 }
{
    let alloc = rt.alloc();
    let lines = parse_script(alloc, script.as_bytes(), &sizes).ok()?;
    let last = parse_script(alloc, last.as_bytes(), &sizes).ok()?;
    let boot = boot(alloc, sizes).ok()?;
    live_by_threads::<Brand, _, _>(rt, alloc, boot, &lines, &last, gate).ok()
}

/// The condition holds, or the test fails. A call is cheaper to prove than the macro in its place.
pub fn expect_true(rt: &impl Abort, condition: bool) {
    assert!(rt; condition);
}

/// Appends the parts to the text. It panics if memory runs out, so a caller has no error to pass on.
pub fn add(rt: &impl Abort, text: &mut String, parts: &[&str]) {
    for part in parts {
        text.push_str(part).expect(rt, "memory");
    }
}

/// The text of an events file with these counts, in the order of its lines after `low` and `high`.
pub fn events_text(rt: &(impl Abort + AllocGlobal), counts: [u32; 4]) -> String {
    let [max, oom, kills, group_kills] = counts;
    let text = format!(in rt.alloc();
        "low 0\nhigh 0\nmax {max}\noom {oom}\noom_kill {kills}\noom_group_kill {group_kills}\n"
    );
    text.expect(rt, "memory")
}

/// The lines in threads got the first answers, and the lines after them the second ones.
pub fn expect_answers(
    rt: &impl Abort,
    told: &ThreadAnswers,
    by_threads: &str,
    after_threads: &str,
) {
    expect_true(rt, told.by_threads.as_slice() == by_threads.as_bytes());
    expect_true(
        rt,
        told.after_threads.as_slice() == after_threads.as_bytes(),
    );
}
