//! Sets of numbers below a bound, as bits, with one summary bit for each word of bits and one for each word of summary
//! bits. So a few loads find the nearest lower member.
#![tactic(auto)]

pub mod bits;
pub mod levels;
mod word;
