//! The statuses that the calls of both libraries have. A refusal has its own number, which is at most 22; what only a host
//! in C can meet has one above 100.

/// The call did what it is for.
pub const DONE: u8 = 0;

/// A size is out of its range.
pub const BAD_CONFIG: u8 = 14;

/// The limit of a group has no room.
pub const OVER_LIMIT: u8 = 15;

/// Memory ran out.
pub const NO_MEMORY: u8 = 101;

/// The buffer is shorter than the text.
pub const SMALL_BUFFER: u8 = 103;

/// The handle has none: no boot, no zone or no CPU.
pub const NOT_LIVE: u8 = 104;

/// The handle has one already.
pub const IS_LIVE: u8 = 105;

/// The zone has no CPU of this number.
pub const BAD_CPU: u8 = 106;

/// The zone has no frame of this number.
pub const BAD_FRAME: u8 = 107;

/// No group has this number.
pub const BAD_GROUP: u8 = 108;

/// The host was compiled with the headers of another version.
pub const BAD_VERSION: u8 = 115;
