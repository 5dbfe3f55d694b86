//! The whole: one legal run that shows the machine and the part of every CPU. The laws say how a new boot, a line
//! under the lock and a call without the lock continue such a run, and what holds whenever there is one.
#![tactic(auto)]

pub mod laws;
