//! The kinds of what a typed call gives. Each is that of the answer to a script's line.

/// No kind: the call wasn't served.
pub const NOTHING: u8 = 0;

/// `ok`: it was done.
pub const OK: u8 = 1;

/// `group`: the group of this number was made.
pub const GROUP: u8 = 2;

/// `frame`: the unit begins at this frame.
pub const FRAME: u8 = 3;

/// The file's text has so many bytes.
pub const TEXT: u8 = 4;

/// `free`: the frame is free.
pub const FREE: u8 = 5;

/// `cpu`: the frame is lent to this CPU.
pub const CPU: u8 = 6;

/// The frame is charged to the group of this number.
pub const CHARGED: u8 = 7;

/// `marked`: the unit is marked now.
pub const MARKED: u8 = 8;

/// `active`: the unit is the newest active one.
pub const ACTIVE: u8 = 9;

/// `left`: so many references are left.
pub const LEFT: u8 = 10;

/// `returned`: the unit was freed.
pub const RETURNED: u8 = 11;

/// `settled`: the CPU was settled.
pub const SETTLED: u8 = 12;

/// `listed`: a fresh frame is on the CPU's list again.
pub const LISTED: u8 = 13;

/// `held`: the pin is held.
pub const HELD: u8 = 14;

/// `zero`: the frame has no reference.
pub const ZERO: u8 = 15;

/// `raced`: another thread changed the references.
pub const RACED: u8 = 16;

/// `full`: the frame has 255 references.
pub const FULL: u8 = 17;

/// `last`: the last reference was put.
pub const LAST: u8 = 18;

/// `refused`: the status is the refusal's number. Of 15 this is the group whose limit has no room.
pub const REFUSED: u8 = 20;

/// There was no frame without the lock. No call gives this.
pub const NOT_FAST: u8 = 21;

/// The group has so many pages.
pub const PAGES: u8 = 22;

/// The group has no such limit.
pub const NO_LIMIT: u8 = 23;
