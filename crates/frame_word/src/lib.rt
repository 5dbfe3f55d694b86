//! The words of frames and of visits. The words themselves are in the one table of `boot_words`.
//!
//! Word f is frame f's. It is 0 while no seat has a reference and exactly one seat's hand has the frame. It is 1 to 255
//! for that many references, and 256 + cpu while it is in transit to or from CPU `cpu`. One visit word for each CPU
//! follows the frames' words: 1 while its visit is open, else 0.
#![tactic(auto)]

mod answers;
mod frame;
mod word;

pub use answers::{Get, Put};
pub use frame::Frame;
pub use word::{MARK_BASE, MAX_REFERENCES};
