//! A CPU's part of the memory controller: the frames of its list, its fresh and its back frames, and its pins. The CPU's
//! past of the run says what they are. The fast calls take no lock and wait for nobody. The others are made under the
//! lock, with the seat that has the zone's past too.
#![tactic(auto)]

mod answers;
mod boot_name;
mod cpu_lists;
mod fast;
mod moves;
mod pins;
mod readers;
mod search;
mod visit;

pub use answers::{Dropped, Fast};
pub use boot_name::{BootName, Tables};
pub use cpu_lists::{CpuLists, MAX_FRESH, MAX_LISTED, MAX_PINS};
