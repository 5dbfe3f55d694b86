//! Why a script has no answers.

/// Why a script has no answers.
#[derive(Clone, Copy, Debug, PartialEq, Eq)]
pub enum ReplayFault {
    /// A size is out of its range.
    BadConfig,
    /// The number, from 1, of the first line that isn't in the grammar.
    BadLine(usize),
    /// Memory ran out.
    NoMemory,
}
