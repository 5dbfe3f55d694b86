//! Pages prepaid for a CPU: what its stock word and its report word say. The words themselves are in the one table of
//! `boot_words`.
//!
//! Each CPU has the row of its number, of sixteen words: word 0 is its stock word, word 1 its report word. The others
//! keep a distance, so that no two CPUs write to one cache line. No CPU has row 0.
//!
//! | stock word | value |
//! | --- | --- |
//! | no group (at first) | 0 |
//! | held by group g with n pages | (g + 1) * 65536 + n |
//! | drained of group g | 2^32 + (g + 1) * 65536 |
//!
//! A report word is a number of pages.
#![tactic(auto)]

mod answers;
mod stock;

pub use answers::{Consume, Credit};
pub use stock::Stock;
