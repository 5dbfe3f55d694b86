//! Why the words of a command line are refused.

use std::alloc::AllocError;
use thiserror::Error;

/// Why the words of a command line are refused.
#[derive(Debug, Drop, Error)]
pub enum WordsFault {
    /// The words aren't those of the program, or ask for help. Holds the text for the user, each line with its line
    /// feed.
    #[error("{0}")]
    BadWords(String),
    /// Memory ran out.
    #[error("no memory")]
    NoMemory(#[from(alloc)] AllocError),
}
