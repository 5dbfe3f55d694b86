//! What a session writes for a line.

/// What a session writes for a line.
#[derive(Clone, Copy, Debug, PartialEq, Eq)]
pub enum SessionForm {
    /// Its answer.
    Answers {
        /// Whether a refusal, and what a command drained, reclaimed and killed, is explained after its answer.
        is_explained: bool,
    },
    /// Its part of a log: a comment that names it, its steps, and its explained answer in comments.
    Steps,
}
