//! How rows are timed, and how their costs are printed.

use anyhow::{Result, ensure};
use std::io;
use std::time::{Clock, Duration, Instant};

/// How often the rows are run.
#[derive(Clone, Copy)]
pub enum Pace {
    /// Each row is run once, with at most two calls. Only its name is printed.
    Quick,
    /// Each row is timed. Its cost is printed in nanoseconds and in units. `unit` is a unit in nanoseconds.
    Timed { unit: f64 },
}

impl Pace {
    /// The second number if the rows are only run, or the first if they are timed.
    pub fn choose(self, timed: u32, quick: u32) -> u32 {
        match self {
            Pace::Quick => quick,
            Pace::Timed { unit: _ } => timed,
        }
    }
}

/// What is measured. `R` is the runtime of the process.
pub trait Subject<R> {
    /// Makes the call of this number. Returns whether it went as expected.
    fn call(&mut self, rt: &R, number: u32) -> bool;
}

/// A row: its name, the number of the call that it measures, how many calls are timed together, and how many parts a
/// call has. The cost is that of one part. `least` is the least time so far, because other work on the machine adds
/// to each time.
#[derive(Drop)]
pub struct Row {
    name: &'static str,
    call: u32,
    calls: u32,
    parts: u32,
    least: Duration,
}

impl Row {
    /// A row that wasn't timed yet.
    pub fn new(name: &'static str, call: u32, calls: u32, parts: u32) -> Row {
        Row {
            name,
            call,
            calls,
            parts,
            least: Duration::MAX,
        }
    }

    /// Notes the time that the calls took together.
    pub fn note(&mut self, time: Duration) {
        self.least = self.least.min(time);
    }

    /// Makes the calls, and times them together.
    pub fn run<R: Clock, S: Subject<R>>(
        &mut self,
        rt: &R,
        pace: Pace,
        subject: &mut S,
    ) -> Result<()> {
        let mut all = true;
        let start = Instant::now(rt)?;
        for _ in 0..pace.choose(self.calls, self.calls.min(2)) {
            all &= subject.call(rt, self.call);
        }
        self.note(start.elapsed(rt)?);
        ensure!(all, "a call went otherwise than it should");
        Ok(())
    }

    /// The cost of a part, in nanoseconds.
    pub fn cost(&self) -> f64 {
        self.least.as_secs_f64() * 1e9 / f64::from(self.calls) / f64::from(self.parts)
    }

    /// Prints the row.
    pub fn print_cost(&self, rt: &impl Print, pace: Pace) -> Result<()> {
        print_cost(rt, pace, self.name, self.cost())?;
        Ok(())
    }
}

/// Prints the cost of a row's part, in nanoseconds and in units.
pub fn print_cost(rt: &impl Print, pace: Pace, name: &str, cost: f64) -> io::Result<()> {
    match pace {
        Pace::Quick => println!(rt; "{name}"),
        Pace::Timed { unit } => {
            let units = cost / unit;
            println!(rt; "{name}: {cost:.1} ns, {units:.2} units")
        }
    }
}

/// Measures rows in this many rounds, and prints them. A round runs all rows, one after the other.
pub fn print_rows<R: Print + Clock, S: Subject<R>>(
    rt: &R,
    pace: Pace,
    rounds: u32,
    rows: &mut [Row],
    subject: &mut S,
) -> Result<()> {
    for _ in 0..pace.choose(rounds, 1) {
        for row in rows.iter_mut() {
            row.run(rt, pace, subject)?;
        }
    }
    for row in rows.iter() {
        row.print_cost(rt, pace)?;
    }
    Ok(())
}
