//! The text of a log: one line for each step and its answer.
#![tactic(auto)]

pub mod line;
mod name;
mod parse;
mod word;
mod write;

pub use parse::{MAX_LINE, bad_line_is_no_log, one_line, one_run, parse_line};
pub use write::{write_answer, write_entry, write_zone};
