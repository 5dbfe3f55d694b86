//! Charges over the tree of groups: usage, limits, peaks and event counts; and notes of what a command did to get pages.
//!
//! Each group has a number of own pages, and a usage (memory.current): the sum of the own pages of the group and of
//! all groups below it. A charge walks from its group up to the root and adds to each usage.
#![tactic(auto)]

pub mod account;
pub mod charges;
pub mod note;
pub mod notes;
pub mod settings;
mod spans;
mod walks;
