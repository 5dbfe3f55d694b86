//! The system: a boot's table, the machine behind the zone's lock, a part for each CPU, and the commands that a CPU
//! gives under that lock. Each command is served in a visit, as a list of steps of the rules, and no visit is open
//! while the lock is free.
//!
//! A call of a function `prove_..` does nothing: a proof needs its contract.
#![tactic(auto)]

mod allocations;
mod audit;
mod boot_end;
mod booting;
mod boots;
mod command;
mod cpus;
mod dirty_allocs;
mod emptied_boot;
mod end_with_pins;
mod files;
mod groups;
mod last_visits;
pub mod laws;
mod lock;
mod outcome;
mod owners;
mod puts;
mod releases;
mod setting;
mod shown;
mod shutdown;
mod system;
mod text_command;
mod texts;
mod units;
mod usage;
mod visits;

pub use audit::Audit;
pub use boot_end::{Pinned, end, make_last_visits};
pub use booting::boot;
pub use boots::{Boot, BootFault};
pub use command::LockedCommand;
pub use cpus::Cpu;
pub use dirty_allocs::serve_dirty_alloc;
pub use emptied_boot::EmptiedBoot;
pub use end_with_pins::{SystemEnd, put_and_end};
pub use lock::Locked;
pub use outcome::{Outcome, shown_text};
pub use setting::Setting;
pub use shown::{write_own_stock, write_units_at};
pub use shutdown::Held;
pub use system::System;
pub use text_command::TextCommand;
pub use texts::{blocks_text, show_text};
pub use visits::{serve_outcome, serve_settle, serve_text};
pub use zone_blocks::config::Config;
