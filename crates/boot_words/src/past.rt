//! What a seat knows. It is plain data for the proofs; no value of it is ever made.
use std::collections::LinkedList;
use step_rules::step::{Answer, Step};

/// What a seat knows of the run: the run up to the last step that it noted.
pub struct Past {
    /// 0 is the zone's, 1 and up are the CPUs'.
    pub number: u32,
    /// The steps with their answers.
    pub seen: LinkedList<(Step, Answer)>,
}
