//! The two kinds of handle.

ghost use Rattle.tempolemon_threads.specs.Handles.{IsCpuHandle, IsZoneHandle};

use crate::raw::RawHome;

/// A zone, or none. A host begins with all bytes 0, which is none.
#[repr(C)]
pub struct Zone {
    pub(crate) raw: RawHome,
    pub(crate) is_live: bool,
    pub ghost is_zone: { IsZoneHandle is_live raw.home },
}

/// A CPU of a zone, or none. A host begins with all bytes 0, which is none.
#[repr(C)]
pub struct CpuPart {
    pub(crate) raw: RawHome,
    pub(crate) is_live: bool,
    pub ghost is_cpu: { IsCpuHandle is_live raw.home },
}
