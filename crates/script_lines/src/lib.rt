//! The form of a script: its bytes, cut into lines, each a CPU and what is done there.
#![tactic(auto)]

pub mod fault;
pub mod line;
pub mod number;
mod place;
pub mod script;
pub mod verb;
