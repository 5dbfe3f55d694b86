//! The version of the headers.

/// The version of both headers that these crates are made for, `TEMPOLEMON_VERSION` there. A host that was compiled with
/// another one may pass other structs, so its boot is refused before any of them is read.
pub const HEADER_VERSION: u32 = 3;
