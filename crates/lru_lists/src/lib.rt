//! The two lists of each group: its units in the order of their last use, on the inactive or the active list. All
//! lists are linked through one record for each frame, so finding a unit takes no walk.
#![tactic(auto)]

pub mod laws;
pub mod links;
pub mod lru;
mod packed;
mod queue;
pub mod record;
pub mod walk;
