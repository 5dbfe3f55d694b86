//! The lines of a script, served and answered: all by one thread (`replay`), those of each CPU by a thread of its own
//! (`run_each`), or one at a time for a session (`serve_line`).

mod calls;
mod commands;
mod cpu_lines;
mod form;
mod gates;
pub mod laws;
mod locked_commands;
mod reasons;
mod replays;
mod server;
mod threads;
mod unlocked_commands;
mod visits;
mod writer;

pub use calls::{alloc_value, serve_value};
pub use form::Form;
pub use gates::{Gate, NoGate};
pub use replays::{Stopped, replay, replay_checked, serve_line};
pub use threads::{before_go, run_each, run_lines};
pub use visits::{Visitor, replay_by_visits, visit_line, visit_numbered_line};
