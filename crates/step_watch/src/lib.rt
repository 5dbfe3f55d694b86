//! The watch: it takes each step where it is made, with its answer. It checks that the rules allow it, or writes it as
//! a line of a log. Its contracts say what follows if it says that it didn't stop: the steps that it took are a legal
//! run, or the log has them all.
#![tactic(auto)]

pub mod laws;
mod watch;

pub use watch::Watch;
