//! What a thread asks for its CPU, and what it gets.

ghost use Rattle.std.specs.Prelude.{IsSome};
ghost use Rattle.zone_threads.specs.Calling.{Calls};

use crate::home::Home;
use control_files::limit::Limit;
use control_files::text::ArrayText;
use cpu_part::BootName;
use frame_word::{Frame, Get, Put};
use group_tree::fault::Fault;
use mem_system::{Outcome, Setting, TextCommand};

/// What a thread asks for its CPU.
#[derive(Clone, Copy, PartialEq, Eq)]
pub enum Call<'a> {
    /// Serves this command under the lock.
    Visit(TextCommand<'a>),
    /// Takes a frame, charged to the group of this number: of the CPU's list and stock, or else under the lock.
    AllocFrame { group: u32 },
    /// Does this for the group of this number, under the lock.
    ForGroup { group: u32, act: GroupAct },
    /// Takes a block of 2^order frames, of order 1 to 10, charged to the group of this number, and pins it, under the
    /// lock: no other CPU is served in between.
    AllocPinned { group: u32, order: u32 },
    /// Reads a number of pages of the group of this number, under the lock. The CPU isn't settled.
    ReadPages { group: u32, which: GroupPages },
    /// Releases the unit that this frame heads: if it is a fresh frame of the CPU, to its list, or else under the lock.
    Release { frame: u32 },
    /// Pins this frame, without the lock.
    Get { frame: u32 },
    /// Puts a pin of this frame, without the lock.
    Put { frame: u32 },
    /// Settles the CPU, under the lock.
    Settle,
}

/// What is done for a group under the lock.
#[derive(Clone, Copy, PartialEq, Eq)]
pub enum GroupAct {
    /// Takes a block of this order, charged to the group.
    Alloc(u32),
    /// Takes a dirty unit of this order, charged to the group: it is kept and dirty before another CPU is served.
    AllocDirty(u32),
    /// Makes this setting of the group.
    Write(Setting),
    /// Reclaims so many pages from the group and those below it. None, for no limit, is no amount, and is refused as the
    /// text `max` of memory.reclaim is.
    Reclaim(Limit),
}

/// A number of pages that a group has.
#[derive(Clone, Copy, Debug, PartialEq, Eq)]
pub enum GroupPages {
    /// The usage of the group and those below it (memory.current).
    Usage,
    /// The greatest usage since the group was made (memory.peak).
    Peak,
    /// The limit of the usage (memory.max).
    Max,
    /// How far the usage may rise before reclaim lowers it (memory.high).
    High,
}

/// What a call returns.
#[derive(Clone, Copy, PartialEq, Eq)]
pub enum CallAnswer {
    /// Another thread has the lock.
    Busy,
    /// The zone has no such frame, and nothing was done.
    NoFrame,
    /// No group has such a number.
    NoGroup,
    /// The group has so many pages.
    Pages(u32),
    /// The group has no such limit.
    NoLimit,
    /// It was served under the lock, with this outcome.
    Served(Outcome),
    /// This frame of the CPU's list was taken.
    Taken(Frame),
    /// The fresh frame is on the CPU's list again.
    Listed,
    /// The answer of a get.
    Got(Get),
    /// The answer of a put.
    Put(Put),
    /// The CPU was settled.
    Settled,
    /// It is refused for this reason, and nothing was done; except that a block that wasn't pinned was released again.
    Refused(Fault),
}

/// A read of a file of the group of this path.
#[derive(Clone, Copy, PartialEq, Eq)]
pub struct ReadCall<'a> {
    pub path: &'a [u8],
    pub file: &'a [u8],
}

/// What a read of a file returns.
#[derive(Clone, Copy, PartialEq, Eq)]
pub enum ReadAnswer {
    /// Another thread has the lock.
    Busy,
    /// The file's text.
    Text(ArrayText),
    /// It is refused for this reason.
    Refused(Fault),
}

impl<N: BootName> Home<N> {
    /// Serves a call of the home's CPU. It is inlined, so that a caller that names the call has its steps alone.
    #[inline(always)]
    pub fn call(&mut self, call: &Call<'_>) -> CallAnswer
        requires some { IsSome self.old.cpu }
        ensures { Calls N.table call.now self.old self.new result }
    {
        match *call {
            Call::Visit(command) => self.visit(&command),
            Call::AllocFrame { group } => self.alloc_frame(group),
            Call::ForGroup { group, act } => self.act(group, act),
            Call::AllocPinned { group, order } => self.alloc_pinned(group, order),
            Call::ReadPages { group, which } => self.read_pages(group, which),
            Call::Release { frame } => self.release(frame),
            Call::Get { frame } => self.get(frame),
            Call::Put { frame } => self.put(frame),
            Call::Settle => self.settle(),
        }
    }
}
