//! Tests of scripts for two and for four CPUs, each in a thread, and of the words of stocks. This crate has nothing but
//! tests.
#![tactic(auto)]

#[cfg(test)]
mod gates;
#[cfg(test)]
mod races;
#[cfg(test)]
mod scripts;
#[cfg(test)]
mod second;
#[cfg(test)]
mod stocks;
#[cfg(test)]
mod storms;
#[cfg(test)]
mod systems;
