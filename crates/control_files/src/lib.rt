//! The files of a group: their names, the texts of a limit and of a flag read and written, and the text of each file.
#![tactic(auto)]

pub mod file;
pub mod flag;
pub mod limit;
pub mod number;
pub mod stat;
pub mod text;
mod word;
