//! The sizes of a zone of page frames, its blocks, and its free areas: for each order the free blocks that are inside no
//! larger free block. Knuth's buddy system keeps them so (The Art of Computer Programming, 2.5).
#![tactic(auto)]

pub mod areas;
pub mod block;
pub mod buddy;
pub mod choices;
pub mod config;
mod frame;
pub mod laws;
mod links;
mod maximal;
mod merge;
pub mod order;
mod pairs;
mod rings;
mod split;
pub mod walk;
