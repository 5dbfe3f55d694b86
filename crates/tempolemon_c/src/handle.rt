//! The handle of a host: a boot that lives between calls, or none.

ghost use Rattle.std.specs.Prelude.{◌↔◌, IsSome, IsTrue};

use crate::raw::RawBoot;

/// A boot that lives between the calls of a host, or none. A host begins with all bytes 0, which is none. If it is
/// dropped, its boot stays in memory.
#[repr(C)]
#[derive(Drop)]
pub struct Handle {
    pub(crate) raw: RawBoot,
    pub(crate) is_live: bool,
    pub ghost has_boot: { IsTrue is_live ↔ IsSome raw.live },
}
