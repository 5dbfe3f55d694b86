//! The verdict of a check on a log.

use step_rules::step::Answer;

/// The verdict of a check on a log.
#[derive(Clone, Copy, PartialEq, Eq)]
pub enum Verdict {
    /// The log is a legal run.
    Legal,
    /// The rules don't allow the answer of some step of the log.
    IllegalAt {
        /// The index of the first such step, counted from 0.
        index: usize,
        /// An answer that the rules allow there: `Illegal` if the step may not be made at all.
        expected: Answer,
    },
}
