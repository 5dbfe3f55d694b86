//! All that lies behind the zone's lock: the free areas, one record for each frame, the groups with their charges and
//! lists of kept units, and the zone's past. Each call is a list of steps of the rules (`step_rules`), and other CPUs
//! see a call only through these steps.
//!
//! The zone's past is a beginning of one legal run. References, visits and stocks are those of the state after it:
//! `left_by` is what the past left, with every CPU's own part hidden.
//!
//! Some terms of the contracts:
//!
//! - A `FrameState` is the record of one frame: free, lent, or in a charged unit.
//! - A lent frame is fresh from the time it is taken and paid for until the CPU is settled. A back frame heads a unit
//!   whose last reference the CPU put.
//! - The pages booked to a stock are all that were charged through it: the pages in it, those that paid for fresh
//!   frames, and those that are reported and not absorbed yet. In the CPU's part they are its `book`.
//! - A `VisitState` is the machine with the part of the CPU that holds its lock. `Holds` says that this CPU holds the
//!   lock and that its lists are its own in what it sees, and `Visits` says also that its visit is open. A visit lasts
//!   from `open` to `shut`, and frames are handed over only inside it.
//! - `local_of` is what the lock's holder sees, in the words of the rules. `Makes` says that a list of steps leads from
//!   one machine to another.
//! - Each of these steps is legal where it is made, and the pasts grow by it. The watch takes it right after, if it is
//!   on. `Records`, a part of `Makes`, says so.
//!
//! A call of a function `prove_..`, or of `list_laws`, does nothing: a proof needs its contract.
#![tactic(auto)]

mod ageing;
mod blocks;
mod choices;
mod counts;
mod ending;
mod evicting;
mod frame_state;
mod freed;
mod groups;
pub mod laws;
mod lending;
mod lists;
mod locking;
mod machine;
mod marks;
mod noting;
mod owners;
mod passed;
mod paying;
mod proving;
mod publishing;
mod readers;
mod releasing;
mod settling;
mod showing;
mod start;
mod stepping;
mod stocks;
mod subtrees;
mod visits;
mod watching;

pub use blocks::TakeFault;
pub use counts::Counts;
pub use frame_state::{FrameState, Place};
pub use machine::Machine;
pub use proving::{prove_charges, prove_groups, prove_number, prove_order, prove_sizes};
pub use releasing::Released;
pub use step_rules::laws::{other_step, own_step};
pub use subtrees::is_in_subtree;
