//! What a line of a script is answered.

use crate::steps::UnlockedAnswer;
use mem_system::Outcome;

/// What a line of a script is answered. It holds no text.
#[derive(Clone, Copy, PartialEq, Eq)]
pub enum LineAnswer {
    /// The outcome of what was served under the lock.
    Served(Outcome),
    /// The CPU was settled, and nothing else was done. The answers to `show`, `blocks`, `stock` and `units` are texts,
    /// which are then written from what the command left.
    Settled,
    /// What needed no lock.
    Unlocked(UnlockedAnswer),
}
