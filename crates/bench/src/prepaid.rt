//! Prepaid pages: rounds of `alloc_fast` and `drop_fresh`. The rounds are those of CPUs, each in its own thread, with or
//! without visits between them.

use crate::costs::{Pace, Row};
use crate::system::{alloc, settle};
use anyhow::{Context, Result, ensure};
use cpu_part::{BootName, Fast, Tables};
use group_tree::group::GroupId;
use mem_system::{Cpu, System};
use std::sync::Wait;
use std::thread;
use std::thread::Threads;
use std::time::{Clock, Duration, Instant};

// Rounds that take the front of the list and drop it: `count` of them. If `visit_every` isn't 0, one round in so many
// has a visit.
#[derive(Clone, Copy)]
struct Rounds {
    name: &'static str,
    count: u32,
    visit_every: u32,
}

const ROUNDS: [Rounds; 3] = [
    Rounds {
        name: "alloc_fast and drop_fresh",
        count: 1_000_000,
        visit_every: 0,
    },
    Rounds {
        name: "the same, with a visit at every 64th",
        count: 1_000_000,
        visit_every: 64,
    },
    Rounds {
        name: "the same, with a visit at each",
        count: 100_000,
        visit_every: 1,
    },
];

// Takes the front of the list, if the stock pays for it, and drops it.
#[inline(always)]
fn take_and_drop<N: BootName>(tables: &Tables<N>, cpu: &mut Cpu<N>, group: GroupId) {
    if let Fast::Got(frame) = cpu.alloc_fast(tables, group.number()) {
        let _ = cpu.drop_fresh(tables, frame);
    }
}

// Makes this many rounds. If a round can't take a frame, it drops none.
fn go_through<N: BootName, R: Wait>(
    rt: &R,
    system: &System<N>,
    cpu: &mut Cpu<N>,
    group: GroupId,
    count: u32,
    visit_every: u32,
) {
    for number in 0..count {
        take_and_drop(system.tables(), cpu, group);
        if number.checked_rem(visit_every) == Some(0) {
            settle(rt, system, cpu, 1);
        }
    }
}

// The time of this many rounds of these CPUs, which run concurrently.
fn time_rounds<N: BootName + Send + Sync, R: Threads + Wait + Clock + Sync>(
    rt: &R,
    system: &System<N>,
    cpus: &mut [Cpu<N>],
    group: GroupId,
    count: u32,
    visit_every: u32,
) -> Result<Duration> {
    let start = Instant::now(rt)?;
    thread::for_each_mut(
        rt,
        cpus,
        4,
        &|_, cpu: &mut Cpu<N>| go_through(rt, system, cpu, group, count, visit_every),
    );
    Ok(start.elapsed(rt)?)
}

// Measures the rounds of these CPUs.
fn print_rounds<N: BootName + Send + Sync, R: Threads + Wait + Print + Clock + Sync>(
    rt: &R,
    pace: Pace,
    system: &System<N>,
    cpus: &mut [Cpu<N>],
    group: GroupId,
    rounds: Rounds,
) -> Result<()> {
    let count = pace.choose(rounds.count, 2);
    let mut row = Row::new(rounds.name, 0, rounds.count, 1);
    for _ in 0..pace.choose(10, 1) {
        row.note(time_rounds(rt, system, cpus, group, count, rounds.visit_every)?);
    }
    row.print_cost(rt, pace)
}

// Gives each CPU frames on its list and prepaid pages of the group of depth 1.
fn supply<N: BootName, R: Wait>(rt: &R, system: &System<N>, cpus: &mut [Cpu<N>]) -> Result<()> {
    for cpu in cpus.iter_mut() {
        alloc(rt, system, cpu)?;
        settle(rt, system, cpu, 1);
    }
    Ok(())
}

// Measures these rounds by one, two and four CPUs.
fn print_sides<N: BootName + Send + Sync, R: Threads + Wait + Print + Clock + Sync>(
    rt: &R,
    pace: Pace,
    system: &System<N>,
    cpus: &mut [Cpu<N>],
    group: GroupId,
    rounds: Rounds,
) -> Result<()> {
    for threads in [1, 2, 4] {
        let part = cpus.get_mut(..threads).context("too few CPUs")?;
        print_rounds(rt, pace, system, part, group, rounds)?;
        println!(rt; "  threads: {threads}")?;
    }
    Ok(())
}

/// Measures the rounds of one, two and four CPUs. Each has a frame on its list, and a page of the group in its stock.
pub fn print_threads<N: BootName + Send + Sync, R: Threads + Wait + Print + Clock + Sync>(
    rt: &R,
    pace: Pace,
    system: &System<N>,
    cpus: &mut [Cpu<N>],
    group: GroupId,
) -> Result<()> {
    supply(rt, system, cpus)?;
    for rounds in ROUNDS {
        print_sides(rt, pace, system, cpus, group, rounds)?;
    }
    for cpu in cpus.iter() {
        let drops = u64::from(pace.choose(21_000_000, 6));
        ensure!(cpu.drops() >= drops, "a frame was not listed again");
    }
    Ok(())
}
