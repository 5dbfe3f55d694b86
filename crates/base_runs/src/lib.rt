//! Tests of the lowest crates: the free areas and unit lists of the zone, and groups with their charges and files. A
//! run of the core on plain lists. This crate has nothing but tests.
#![tactic(auto)]

#[cfg(test)]
mod areas;
#[cfg(test)]
mod buddy;
#[cfg(test)]
mod calls;
#[cfg(test)]
mod charges;
#[cfg(test)]
mod files;
#[cfg(test)]
mod levels;
#[cfg(test)]
mod lists;
#[cfg(test)]
mod plain_core;
#[cfg(test)]
mod tree;
#[cfg(test)]
mod walks;
