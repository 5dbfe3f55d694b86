//! Allocations that a CPU makes under the zone's lock: pages are charged to a group, and frames are taken for it.
//! Before a charge, units are reclaimed for each memory.high that it would exceed. A refused allocation takes no frame
//! and charges no page; what was noted, drained, reclaimed and killed for it stays.
//!
//! A call of a function `prove_..` does nothing: a proof needs its contract.
#![tactic(auto)]

mod blocks;
pub mod breaches;
mod charging;
mod faults;
mod frames;
mod high;
mod kills;
pub mod laws;
mod reclaims;
mod room;

pub use blocks::alloc_block;
pub use faults::AllocFault;
pub use frames::alloc_frame;
pub use kills::kill_for_limit;
pub use room::note_limit;
