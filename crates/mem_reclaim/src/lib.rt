//! Reclaim: units on which only the zone has a reference are frozen and freed, the oldest first, in passes over the
//! groups of a subtree. Modelled on the shrinking of a group's lists in Linux (cgroup-v2.rst, memory.max; Gorman,
//! "Understanding the Linux Virtual Memory Manager", chapter 10).
//!
//! A call of a function `prove_..` does nothing: a proof needs its contract.
#![tactic(auto)]

mod amounts;
mod kills;
pub mod laws;
mod noting;
mod passes;
mod reclaiming;
mod rounds;
mod scan;
mod sets;
mod shares;
mod try_reclaim;
mod victims;

pub use amounts::reclaim_amount;
pub use kills::kill;
pub use passes::Pass;
pub use reclaiming::{Reclaimed, reclaim};
pub use rounds::{MAX_ROUNDS, reclaim_in_batches, reclaim_round, reclaim_to_limit};
pub use sets::Killed;
pub use victims::victim;
