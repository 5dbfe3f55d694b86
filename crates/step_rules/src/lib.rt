//! The rules of the memory controller's core: every step that a CPU or the zone's own seat may make. They say when a
//! step is legal, what it may be answered and what it changes. Laws say what follows for every legal run.
#![tactic(auto)]

pub mod breaches;
pub mod examples;
pub mod laws;
pub mod phase;
pub mod step;
