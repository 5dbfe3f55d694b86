//! The check of a log: whether its text is that of a legal run, and why a step isn't legal. The text is read piece by
//! piece, and each line is checked as soon as it ends.
#![tactic(auto)]

mod answers;
mod ending;
mod finding;
mod left_out;
pub mod line_fault;
mod number;
mod progress;
mod reader;
mod reading;
pub mod reason;
mod reason_text;
mod showing;
mod text;
pub mod verdict;

pub use finding::reason_of;
pub use reading::{check, check_log};
pub use reason_text::write_reason;
pub use text::write_verdict;
