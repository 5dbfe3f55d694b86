//! One table for all words of a boot, whose rule keeps a legal run of steps: its state has just these words. A seat knows a
//! past, a beginning of that run, and nothing else.
//!
//! The layout: a row of sixteen words for the zone and for each CPU, then a word for each frame, then one for each CPU's
//! visit. Nobody writes the first word of the zone's row. A CPU's row begins with its stock and its report.
//!
//! Some terms of the contracts:
//!
//! - A seat is the right to make steps. The zone and each CPU have one.
//! - A past is a beginning of the run, after which its owner made no step.
//! - The lock is held if the zone's seat has the past of a CPU too (`IsHeld`). An argument `held` is that seat.
//! - A CPU is away if it doesn't hold the lock (`IsAwayCpu`). An argument `cpu` is its seat.
//!
//! The modules `growth`, `laws` and `run_laws` have no code that runs: each of their functions is a law.
#![tactic(auto)]

mod closed;
mod cpu;
pub mod growth;
pub mod laws;
mod lending;
mod lock;
mod looks;
mod meeting;
mod opening;
mod past;
mod plain_steps;
mod raw;
mod references;
pub mod run_laws;
mod taking_back;
mod word;
mod zone_frames;
mod zone_stocks;

pub use closed::ClosedWords;
pub use cpu::CpuSeat;
pub use past::Past;
pub use raw::{BootWords, PastSeat};
