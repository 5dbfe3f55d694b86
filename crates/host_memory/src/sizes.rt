//! The sizes of a zone, as a host in C passes them.

ghost use Rattle.std.specs.Prelude.{◌≡◌, None, Some, if◌then◌else◌};

use crate::version::HEADER_VERSION;
use zone_blocks::choices::Choices;
use zone_blocks::config::Config;

/// The sizes that a host asks for, each in the order and of the width that the header gives. A value may be out of
/// range.
#[repr(C)]
#[derive(Clone, Copy, Debug, PartialEq, Eq)]
pub struct Sizes {
    /// Frames of the zone, numbered from 0: 1 to 1,048,576.
    pub frames: u32,
    /// CPUs, numbered from 1: 1 to 64.
    pub cpus: u32,
    /// Frames by which a CPU's list is refilled or cut: 1 to 64.
    pub batch: u32,
    /// Frames at which a CPU's list is cut: `batch` to 256.
    pub high: u32,
    /// Pages that a CPU prepays at once: 1 to 64.
    pub stock: u32,
    /// Pages that a round of reclaim for a charge wants at least: 0 to 64. 0 and 1 mean just those that are missing.
    pub reclaim_batch: u32,
    /// 0, or 1: no group is killed, and a charge without room is refused.
    pub no_kill: u32,
    /// 0, or 1: a reclaim begins with a pass of shares: each group gives pages in proportion to its clean pages.
    pub proportional: u32,
    /// Groups that may exist at once, the root included: 0 to 1,024. 0 means 64.
    pub groups: u32,
}

impl Sizes {
    ghost use Rattle.host_memory.specs.Sizes.{choices_of, config_of, has_flags};
    ghost use Rattle.host_memory.specs.Version.{header_version};

    /// The same sizes for a boot, of a host that was compiled with the headers of this version; None if a flag is above
    /// 1. Only that version has these fields, so nothing of them is read for a host of another one.
    pub fn config(&self, version: u32) -> Option<Config>
        requires { version ≡ header_version }
        ensures { result ≡ (if has_flags self.now then Some (config_of self.now) else None) }
    {
        prove!(version == HEADER_VERSION);
        if self.no_kill > 1 || self.proportional > 1 {
            return None;
        }
        Some(Config {
            frames: self.frames,
            cpus: self.cpus,
            batch: self.batch,
            high: self.high,
            stock: self.stock,
            choices: self.choices(),
        })
    }

    /// The choices among them. A choice that a host leaves 0 is that of a boot that makes none.
    fn choices(&self) -> Choices
        ensures { result ≡ choices_of self.now }
    {
        Choices {
            is_proportional: self.proportional != 0,
            is_no_kill: self.no_kill != 0,
            reclaim_batch: self.reclaim_batch.max(1),
            groups: if self.groups == 0 {
                Choices::NONE.groups
            } else {
                self.groups
            },
        }
    }
}
