//! Measures calls of the crates, in nanoseconds and in units. A unit is a pair of `get` and `put` of a frame by a CPU,
//! measured in the same run. Each word on the command line names a table. Without words each row is run at most a few
//! times and only its name is printed, so that the stored run never varies.
#![tactic(auto)]

mod costs;
mod prepaid;
mod references;
mod system;
mod tables;

use crate::costs::Pace;
use crate::system::print_system;
use crate::tables::{TABLES, table_named};
use anyhow::Result;
use std::alloc::Global;
use std::env;
use std::sync::Wait;
use std::thread::Threads;
use std::time::Clock;

fn main(rt: HostRuntime) -> Result<()> {
    let words: Vec<String> = env::args(&rt)?.skip(1).collect(rt.alloc())?;
    if words.is_empty() {
        run_all(&rt)
    } else {
        print_named(&rt, &words)
    }
}

// Runs the rows of all tables, and prints their names.
fn run_all<R: Threads + Wait + Print + Clock + Alloc<A = Global> + Sync>(rt: &R) -> Result<()> {
    for (_, table) in TABLES {
        print_system(rt, Pace::Quick, table)?;
    }
    Ok(())
}

// Measures the tables with these names.
fn print_named<R: Threads + Wait + Print + Clock + Alloc<A = Global> + Sync>(
    rt: &R,
    words: &[String],
) -> Result<()> {
    let unit = references::measure_unit(rt)?;
    for word in words {
        match table_named(word.as_str()) {
            Some(table) => print_system(rt, Pace::Timed { unit }, table)?,
            None => println!(rt; "{word}: no table; there are prepaid and system")?,
        }
    }
    Ok(())
}
