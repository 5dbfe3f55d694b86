//! The tree of control groups: paths, parents, limits and flags. Also the kinds of event that are counted, and the
//! numbers of the refusals.
//!
//! A group has a path, written as in cgroup-v2.rst, and a number below the tree's room. Contracts see the tree as the list of its
//! groups, in the order in which they were made.
//!
//! A line that ends in 'Called for its contract' or 'Borrowed for the invariant' changes nothing. A proof knows the
//! invariant of a type only from such a call or borrow.
#![tactic(auto)]

pub mod ancestors;
pub mod event;
pub mod fault;
pub mod group;
mod names;
pub mod path;
pub mod tree;
