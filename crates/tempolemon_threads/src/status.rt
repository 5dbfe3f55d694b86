//! The statuses that only calls of this library have, beside those of `host_memory`.

/// Another thread has the lock.
pub const BUSY: u8 = 109;

/// Another handle has this CPU.
pub const CPU_OUT: u8 = 110;

/// A CPU of the zone isn't returned.
pub const CPUS_OUT: u8 = 111;

/// A part of the zone wasn't there, which no call leaves so.
pub const LOST: u8 = 112;
