//! What a handle is asked besides calls, and what it answers. Both cross by value.

use mem_system::{Boot, SystemEnd};
use std::alloc::Global;
use zone_threads::home::{NotEntered, NotLeft};
use zone_threads::texts::{TextAnswer, TextCall};
use zone_threads::zone::entries::Returned;

/// What a handle is asked.
#[derive(Drop)]
pub enum Request {
    /// Start this boot.
    Start { alloc: Global, boot: Boot },
    /// Take the CPU of this number.
    Enter { number: u32 },
    /// Return the CPU. If that is done, or there is none, the handle leads nowhere.
    Leave { alloc: Global },
    /// Return a text of the zone.
    Text { alloc: Global, asked: TextCall },
    /// End the zone, if no other handle leads to it.
    End { alloc: Global },
}

/// What a handle answers.
#[derive(Drop)]
pub enum RequestAnswer {
    /// The zone has started.
    Started,
    /// Memory ran out.
    NoMemory,
    /// The home has the CPU now.
    Entered,
    /// Why no CPU was taken.
    NotEntered(NotEntered),
    /// The CPU was returned, as this shows.
    Left(Returned),
    /// Why no CPU was returned.
    NotLeft(NotLeft),
    /// A text, or why there is none.
    Text(TextAnswer),
    /// Another thread has the lock, so there is no text.
    Busy,
    /// Another handle leads to the zone, and nothing was done.
    Out,
    /// The zone has ended.
    Ended(SystemEnd),
    /// A part of the zone wasn't there, which no call leaves so. The handle leads nowhere.
    Lost,
}

/// What a fork answers.
#[derive(Clone, Copy, Debug, PartialEq, Eq)]
pub enum Forked {
    /// There is a second home.
    Done,
    /// Memory ran out.
    NoMemory,
}
