//! The unit: a pair of `get` and `put` of one frame by a CPU, in one thread.
ghost use Rattle.std.specs.Prelude.{◌≡◌, ◌<◌};

use crate::costs::{Pace, Row, Subject};
use crate::system::{SIZES, alloc, end, make_all, settle};
use anyhow::{Context, Result, bail};
use cpu_part::{BootName, Tables};
use frame_word::{Frame, Get};
use mem_system::{Boot, Cpu, System, boot};
use std::alloc::Global;
use std::marker::Brand;
use std::sync::Wait;
use std::time::Clock;

// A CPU, and a frame that it gets and puts.
#[derive(Drop)]
struct Pins<'a, N: BootName> {
    tables: &'a Tables<N>,
    cpu: &'a mut Cpu<N>,
    frame: Frame,
    ghost inside: { frame < N.table.frames },
}

impl<'a, N: BootName, R> Subject<R> for Pins<'a, N> {
    fn call(&mut self, _rt: &R, _number: u32) -> bool {
        let Ok(Get::Held) = self.cpu.get(self.tables, self.frame) else {
            return false;
        };
        let _ = self.cpu.put(self.tables, self.frame);
        true
    }
}

// Measures the unit on frame 0, which the CPU allocates.
fn measure_on<N: BootName, R: Wait + Print + Clock>(
    rt: &R,
    system: &System<N>,
    cpus: &mut [Cpu<N>],
) -> Result<f64> {
    let cpu = cpus.first_mut().context("no CPU")?;
    make_all(rt, system, cpu)?;
    alloc(rt, system, cpu)?;
    settle(rt, system, cpu, 1);
    let tables = system.tables();
    let frame = tables.words.frame(0).context("no frame")?;
    let mut pins = Pins { tables, cpu, frame };
    let mut row = Row::new("get and put", 0, 1_000_000, 1);
    let pace = Pace::Timed { unit: 1.0 };
    for _ in 0..10 {
        row.run(rt, pace, &mut pins)?;
    }
    let unit = row.cost();
    row.print_cost(rt, Pace::Timed { unit })?;
    Ok(unit)
}

// Starts the boot, measures the unit, and shuts down.
fn live<N: BootName, R: Wait + Print + Clock + Alloc<A = Global>>(rt: &R, boot: Boot) -> Result<f64>
    requires { boot.table ≡ N.table }
{
    let (system, mut cpus) = boot.start::<N>(rt.alloc())?;
    let unit = measure_on(rt, &system, &mut cpus);
    end(rt, system, cpus);
    unit
}

/// Measures the unit in nanoseconds, and prints it.
pub fn measure_unit<R: Wait + Print + Clock + Alloc<A = Global>>(rt: &R) -> Result<f64> {
    match boot(rt.alloc(), SIZES) {
        Ok(boot) => live::<Brand, R>(rt, boot),
        Err(_) => bail!("no boot"),
    }
}
