//! What is written for each answer to a line of a script.
#![tactic(auto)]

mod line_answer;
mod numbers;
mod refusals;
mod replies;
mod steps;

pub use line_answer::LineAnswer;
pub use refusals::write_refusal;
pub use replies::write_outcome;
pub use steps::{UnlockedAnswer, write_fast, write_get, write_put, write_settled, write_unlocked};
