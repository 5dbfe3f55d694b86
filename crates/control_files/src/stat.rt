//! The text of memory.stat.

ghost use Rattle.std.specs.Prelude.{◌≡◌};
ghost use Rattle.control_files.specs.Stat.{stat_text};

use crate::file::push_count;
use crate::text::{ArrayText, PAGE_BYTES};

/// What a group and those below it keep, in pages.
#[derive(Clone, Copy, Debug, PartialEq, Eq)]
pub struct MemoryStat {
    /// The units on inactive lists.
    pub inactive: u32,
    /// The units on active lists.
    pub active: u32,
    /// The dirty units of both.
    pub dirty: u32,
}

/// The text of memory.stat (cgroup-v2.rst): the lines of the kernel's that the model has, in the kernel's order.
pub fn stat_text(stat: MemoryStat) -> ArrayText
    ensures { result ≡ stat_text stat }
{
    let inactive = u64::from(stat.inactive);
    let active = u64::from(stat.active);
    let mut text = ArrayText::new();
    push_count(&mut text, b"file", (inactive + active) * PAGE_BYTES);
    push_count(&mut text, b"file_dirty", u64::from(stat.dirty) * PAGE_BYTES);
    push_count(&mut text, b"inactive_file", inactive * PAGE_BYTES);
    push_count(&mut text, b"active_file", active * PAGE_BYTES);
    text
}
