//! What a host reads of the end of a boot or a zone.

ghost use Rattle.std.specs.Prelude.{◌≡◌};
ghost use Rattle.host_memory.specs.Reports.{end_of};

use mem_system::SystemEnd;

/// What is reported at the end, in the order and of the widths that the header gives.
#[repr(C)]
#[derive(Clone, Copy, Debug, PartialEq, Eq)]
pub struct Report {
    /// The pins that were still held, and were put at the end.
    pub held: u64,
    /// The units whose last reference the zone or a CPU put.
    pub last_puts: u64,
    /// The units that reclaim froze.
    pub freezes: u64,
    /// The fresh frames that were dropped.
    pub drops: u64,
    /// The units that were freed.
    pub returns: u64,
    /// The frames of the zone.
    pub frames: u32,
    /// The frames that are free.
    pub free: u32,
    /// The frames that are charged to a group.
    pub charged: u32,
}

/// The report of an end.
pub fn report_of(ended: SystemEnd) -> Report
    ensures { end_of result ≡ ended }
{
    Report {
        held: ended.held,
        last_puts: ended.audit.last_puts,
        freezes: ended.audit.freezes,
        drops: ended.audit.drops,
        returns: ended.audit.returns,
        frames: ended.audit.frames,
        free: ended.audit.free,
        charged: ended.audit.charged,
    }
}
