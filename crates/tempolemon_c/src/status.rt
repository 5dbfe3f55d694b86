//! The status that only calls of this library have, beside those of `host_memory`.

/// A line of the script isn't in the grammar.
pub const BAD_LINE: u8 = 102;
