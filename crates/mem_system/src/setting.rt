//! What can be set for a group, and how a text sets it.

ghost use Rattle.std.specs.Prelude.{MatchResult};
ghost use Rattle.mem_system.specs.Settings.{RefusesValue, WritesSetting};

use control_files::file::File;
use control_files::flag::read_flag;
use control_files::limit::{Limit, read_amount, read_limit};
use group_tree::fault::Fault;

/// What is written for a group: one of its files that can be written, with the value.
#[derive(Clone, Copy, PartialEq, Eq)]
pub enum Setting {
    /// memory.max, in pages.
    Max(Limit),
    /// memory.high, in pages.
    High(Limit),
    /// memory.low, in pages.
    Low(Limit),
    /// memory.min, in pages.
    Min(Limit),
    /// memory.oom.group: whether the group is killed as a whole.
    OomGroup(bool),
    /// memory.reclaim: how many pages are to be reclaimed, at most 2^52.
    Reclaim(u64),
}

// The setting that the value writes to the file. Refused with `ReadOnly` if the file can't be written, else with
// `BadLimit` or `BadNumber` if the value is malformed or too great.
pub(crate) fn read_setting(file: File, value: &[u8]) -> Result<Setting, Fault>
    ensures { MatchResult result (WritesSetting file value.now) (RefusesValue file value.now) }
{
    match file {
        File::Max => Ok(Setting::Max(read_limit(value)?)),
        File::High => Ok(Setting::High(read_limit(value)?)),
        File::Low => Ok(Setting::Low(read_limit(value)?)),
        File::Min => Ok(Setting::Min(read_limit(value)?)),
        File::OomGroup => Ok(Setting::OomGroup(read_flag(value)?)),
        File::Reclaim => Ok(Setting::Reclaim(read_amount(value)?)),
        _ => Err(Fault::ReadOnly),
    }
}
