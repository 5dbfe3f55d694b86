//! Tests of boots from start to end, by visits and by value, of which one has the greatest size. Tests of the program
//! over readers and writers in memory that fail, and of its command line. This crate has nothing but tests.
#![tactic(auto)]

#[cfg(test)]
mod apart;
#[cfg(test)]
mod by_value;
#[cfg(test)]
mod faults;
#[cfg(test)]
mod large;
#[cfg(test)]
mod life;
#[cfg(test)]
mod second;
#[cfg(test)]
mod streams;
#[cfg(test)]
mod words;
