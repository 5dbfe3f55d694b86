//! A zone that threads share, with a CPU for each thread.
//!
//! A `Home` is what a thread has: an `Arc` of the zone, and the part of a CPU that it took. Some calls take no lock.
//! All others try the zone's lock, and return `Busy` if another thread has it. No call waits.
#![tactic(auto)]

pub mod behind;
pub mod calls;
pub mod crossing;
pub mod fast;
pub mod home;
pub mod served;
pub mod texts;
pub mod zone;
pub mod zone_end;
