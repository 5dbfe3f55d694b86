//! What a live boot can be asked besides calls, and what it answers. Both cross by value.

use load_run::boot_end::BootEnd;
use mem_system::Boot;
use std::alloc::Global;
use zone_blocks::config::Config;

/// What a live boot is asked.
#[derive(Drop)]
pub enum Request {
    /// Start this boot, which has these sizes.
    Start {
        alloc: Global,
        boot: Boot,
        sizes: Config,
    },
    /// Serve the lines of a script.
    Lines {
        alloc: Global,
        text: Vec<u8>,
        is_explained: bool,
    },
    /// Store an answer that a buffer has no room for, as unread.
    StoreUnread {
        text: Vec<u8>,
    },
    /// Return the unread answer, and leave none.
    TakeUnread {
        alloc: Global,
    },
    /// End the boot.
    End {
        alloc: Global,
    },
}

/// What a live boot answers.
#[derive(Drop)]
pub enum RequestAnswer {
    /// The boot has started, or the unread answer is stored.
    Done,
    /// The answers of a script's lines, or the answer that was unread.
    Text(Vec<u8>),
    /// The number, from 1, of the first line that isn't in the grammar.
    BadLine(usize),
    /// Memory ran out.
    NoMemory,
    /// The boot has ended.
    Ended(BootEnd),
}
