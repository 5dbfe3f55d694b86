//! The lines of a script.

/// One line of a script.
#[derive(Clone, Copy)]
pub enum Line<'a> {
    /// From here on each CPU may run its own lines while others run theirs.
    Go,
    /// What is done at a CPU, given by its number, from 1. The line has a number too: its place among all lines of the
    /// script's text, from 1. Empty lines and comments count.
    At {
        number: usize,
        cpu: u32,
        command: Command<'a>,
    },
}

/// What is done with a frame under the lock.
#[derive(Clone, Copy, PartialEq, Eq)]
pub enum FrameAct {
    /// Notes that the unit that this frame heads was used.
    Touch,
    /// Notes that the pages of the unit that this frame heads are dirty.
    Dirty,
    /// Notes that the pages of the unit that this frame heads aren't dirty.
    Clean,
    /// Shows the place of this frame.
    Owner,
}

/// What a line asks for. A path and a file's name are bytes above 32 and below 127. Whether such a group and file exist
/// is not checked here. A frame is one of the zone.
#[derive(Clone, Copy)]
pub enum Command<'a> {
    /// Makes the group of this path.
    Mkdir {
        path: &'a [u8],
    },
    /// Removes the group of this path.
    Rmdir {
        path: &'a [u8],
    },
    /// Writes a value, which may be any bytes or none, to a file of the group of this path.
    Write {
        path: &'a [u8],
        file: &'a [u8],
        value: &'a [u8],
    },
    /// Reads the text of a file of the group of this path.
    Read {
        path: &'a [u8],
        file: &'a [u8],
    },
    /// Takes a block of 2^order frames, charged to the group of this path.
    Alloc {
        path: &'a [u8],
        order: u32,
    },
    /// Takes a frame from the CPU's list for the group of this number, which is one that the zone has room for, without
    /// the lock.
    Fast {
        group: u32,
    },
    /// Releases the unit that this frame heads.
    Release {
        frame: u32,
    },
    /// Pins this frame.
    Get {
        frame: u32,
    },
    /// Removes a pin from this frame.
    Put {
        frame: u32,
    },
    /// Settles the CPU, and nothing else.
    Settle,
    /// An act on this frame that always takes the lock.
    OnFrame(FrameAct, u32),
    /// Shows the blocks of the zone's free areas.
    Blocks,
    /// Shows the place of every frame and the usage of every group.
    Show,
    /// Shows the stock of the CPU, and how many frames and pins it has.
    Stock,
    /// Shows the kept units of the group of this path.
    Units {
        path: &'a [u8],
    },
}
