//! Numbers in the word of a frame.

/// The most references that a frame can have.
pub const MAX_REFERENCES: u64 = 255;

/// Passing marks are above it: that of a CPU is this number plus the CPU's.
pub const MARK_BASE: u64 = 256;
