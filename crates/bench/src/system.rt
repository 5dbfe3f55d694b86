//! What is measured on a system: commands that take the zone lock, and what its CPUs do without it.
ghost use Rattle.std.specs.Prelude.{◌≡◌, length};
ghost use Rattle.mem_system.specs.{IsOfZone};

use crate::costs::{Pace, Row, Subject, print_rows};
use crate::prepaid::print_threads;
use crate::tables::Table;
use anyhow::{Context, Result, bail};
use cpu_part::BootName;
use group_tree::group::GroupId;
use mem_system::{Boot, Cpu, Held, Outcome, System, TextCommand, boot};
use std::alloc::Global;
use std::marker::Brand;
use std::sync::Wait;
use std::thread::Threads;
use std::time::Clock;
use zone_blocks::choices::Choices;
use zone_blocks::config::Config;

/// The sizes of the system on which calls are measured.
pub const SIZES: Config = Config {
    frames: 1_024,
    cpus: 4,
    batch: 4,
    high: 8,
    stock: 4,
    choices: Choices::NONE,
};

// The path of the group of depth 1.
const SHALLOW: &[u8] = b"/a";

// Paths of groups, each below the one before.
const PATHS: [&[u8]; 8] = [
    b"/d",
    b"/d/d",
    b"/d/d/d",
    b"/d/d/d/d",
    b"/d/d/d/d/d",
    b"/d/d/d/d/d/d",
    b"/d/d/d/d/d/d/d",
    b"/d/d/d/d/d/d/d/d",
];

// Serves the command by a visit. This function drops the clauses of `System::visit`: callers that need only the outcome
// would pay minutes of a check for them. So no other function here calls a visit itself. At run time it costs as much as
// the call in its place.
#[inline(always)]
fn visit<N: BootName, R: Wait>(
    rt: &R,
    system: &System<N>,
    cpu: &mut Cpu<N>,
    cmd: &TextCommand<'_>,
) -> Outcome
    requires { IsOfZone N.table cmd.now }
{
    system.visit(rt, cpu, cmd)
}

// Makes the group of the path.
fn make<N: BootName, R: Wait>(
    rt: &R,
    system: &System<N>,
    cpu: &mut Cpu<N>,
    path: &[u8],
) -> Result<GroupId> {
    match visit(rt, system, cpu, &TextCommand::Mkdir { path }) {
        Outcome::Group(group) => Ok(group),
        _ => bail!("a group was not made"),
    }
}

/// Makes the group of depth 8 with those above it, and then the group of depth 1. Returns the latter.
pub fn make_all<N: BootName, R: Wait>(
    rt: &R,
    system: &System<N>,
    cpu: &mut Cpu<N>,
) -> Result<GroupId> {
    for path in PATHS {
        make(rt, system, cpu, path)?;
    }
    make(rt, system, cpu, SHALLOW)
}

/// Allocates one frame for the group of depth 1.
pub fn alloc<N: BootName, R: Wait>(rt: &R, system: &System<N>, cpu: &mut Cpu<N>) -> Result<()> {
    let path = SHALLOW;
    match visit(rt, system, cpu, &TextCommand::Alloc { path, order: 0 }) {
        Outcome::Frame(_) => Ok(()),
        _ => bail!("a frame was not allocated"),
    }
}

// Allocates one frame for the group of the path and releases it.
fn alloc_and_release<N: BootName, R: Wait>(
    rt: &R,
    system: &System<N>,
    cpu: &mut Cpu<N>,
    path: &[u8],
) -> bool {
    let given = visit(rt, system, cpu, &TextCommand::Alloc { path, order: 0 });
    let Outcome::Frame(number) = given else {
        return false;
    };
    let Some(frame) = system.tables().words.frame(number) else {
        return false;
    };
    let frame = frame.number();
    visit(rt, system, cpu, &TextCommand::Release { frame }) == Outcome::Returned
}

// Allocates and releases a frame this many times.
fn alloc_and_release_all<N: BootName, R: Wait>(
    rt: &R,
    system: &System<N>,
    cpu: &mut Cpu<N>,
    path: &[u8],
    count: u32,
) -> bool {
    let mut all = true;
    for _ in 0..count {
        all &= alloc_and_release(rt, system, cpu, path);
    }
    all
}

/// Settles this many times.
pub fn settle<N: BootName, R: Wait>(
    rt: &R,
    system: &System<N>,
    cpu: &mut Cpu<N>,
    count: u32,
) -> bool {
    for _ in 0..count {
        if visit(rt, system, cpu, &TextCommand::Settle) != Outcome::Done {
            return false;
        }
    }
    true
}

// Commands of one CPU. `together` of them are timed together.
#[derive(Drop)]
struct Visits<'a, N: BootName> {
    system: &'a System<N>,
    cpu: &'a mut Cpu<N>,
    together: u32,
}

impl<'a, N: BootName, R: Wait> Subject<R> for Visits<'a, N> {
    fn call(&mut self, rt: &R, number: u32) -> bool {
        match number {
            0 => settle(rt, self.system, self.cpu, self.together),
            1 => alloc_and_release_all(rt, self.system, self.cpu, SHALLOW, self.together),
            _ => alloc_and_release_all(rt, self.system, self.cpu, PATHS[7], self.together),
        }
    }
}

// Measures commands of one CPU.
fn print_visits<N: BootName, R: Wait + Print + Clock>(
    rt: &R,
    pace: Pace,
    system: &System<N>,
    cpu: &mut Cpu<N>,
) -> Result<()> {
    let mut rows = [
        Row::new("settle, with nothing to settle", 0, 1, 100_000),
        Row::new("alloc of order 0 and release, at depth 1", 1, 1, 100_000),
        Row::new("alloc of order 0 and release, at depth 8", 2, 1, 100_000),
    ];
    let together = pace.choose(100_000, 2);
    let mut visits = Visits {
        system,
        cpu,
        together,
    };
    print_rows(rt, pace, 10, &mut rows, &mut visits)
}

// Measures the rows of the table.
fn print_on<N: BootName + Send + Sync, R: Threads + Wait + Print + Clock + Sync>(
    rt: &R,
    pace: Pace,
    table: Table,
    system: &System<N>,
    cpus: &mut [Cpu<N>],
) -> Result<()> {
    let cpu = cpus.first_mut().context("no CPU")?;
    let group = make_all(rt, system, cpu)?;
    match table {
        Table::Prepaid => print_threads(rt, pace, system, cpus, group),
        Table::System => print_visits(rt, pace, system, cpu),
    }
}

/// Shuts the system down, in which no CPU has a pin.
pub fn end<N: BootName, R: Wait>(rt: &R, mut system: System<N>, mut cpus: Vec<Cpu<N>>)
    requires { length cpus.items ≡ N.table.cpus }
{
    for _ in rt.forever() {
        match system.shutdown(cpus) {
            Ok(_) => return,
            Err(
                Held {
                    system: left,
                    cpus: parts,
                    pins: _,
                },
            ) => {
                system = left;
                cpus = parts;
            }
        }
    }
    unreachable!()
}

// Starts the boot, measures the table, and shuts down.
fn live<N: BootName + Send + Sync, R: Threads + Wait + Print + Clock + Alloc<A = Global> + Sync>(
    rt: &R,
    pace: Pace,
    table: Table,
    boot: Boot,
) -> Result<()>
    requires { boot.table ≡ N.table }
{
    let (system, mut cpus) = boot.start::<N>(rt.alloc())?;
    let told = print_on(rt, pace, table, &system, &mut cpus);
    end(rt, system, cpus);
    told
}

/// Measures the rows of the table that need a system.
pub fn print_system<R: Threads + Wait + Print + Clock + Alloc<A = Global> + Sync>(
    rt: &R,
    pace: Pace,
    table: Table,
) -> Result<()> {
    match boot(rt.alloc(), SIZES) {
        Ok(boot) => live::<Brand, R>(rt, pace, table, boot),
        Err(_) => bail!("no boot"),
    }
}
