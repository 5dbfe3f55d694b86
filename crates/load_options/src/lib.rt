//! From the words of the command line to the task and its options.
#![tactic(auto)]

pub mod command_line;
pub mod fault;
pub mod task;
