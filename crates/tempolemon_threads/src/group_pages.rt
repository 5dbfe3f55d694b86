//! The calls that read and write numbers of pages of a group, by the group's number and without a text. None of them
//! takes memory, and each tries the lock.

ghost use Rattle.std.specs.Prelude.{◌≡◌};
ghost use Rattle.mem_system.specs.declared.setting.Setting.TheVariants as setting;
ghost use Rattle.zone_threads.specs.declared.calls.Call.TheVariants.{ForGroup, ReadPages};
ghost use Rattle.zone_threads.specs.declared.calls.GroupAct.TheVariants as act;
ghost use Rattle.zone_threads.specs.declared.calls.GroupPages.TheVariants.{High, Max, Peak, Usage};
ghost use Rattle.tempolemon_threads.specs.Behind.{part_behind};
ghost use Rattle.tempolemon_threads.specs.Calls.{CallsPart, limit_of_pages};

use crate::calling::serve_call;
use crate::handles::CpuPart;
use control_files::limit::Limit;
use host_memory::typed_result::TypedResult;
use mem_system::Setting;
use std::alloc::Global;
use zone_threads::calls::{Call, GroupAct, GroupPages};

/// Reads the usage of the group of this number and those below it, in pages. The CPU isn't settled.
#[unsafe(no_mangle)]
pub extern "C" fn tempolemon_try_usage(
    alloc: Global,
    part: &mut CpuPart,
    group: u32,
    out: &mut TypedResult,
) -> u8
    ensures { CallsPart (ReadPages group Usage) (part_behind part.old) (part_behind part.new) result out.new }
{
    let which = GroupPages::Usage;
    serve_call(alloc, part, &Call::ReadPages { group, which }, out)
}

/// Reads the greatest usage so far of the group of this number, in pages. The CPU isn't settled.
#[unsafe(no_mangle)]
pub extern "C" fn tempolemon_try_peak(
    alloc: Global,
    part: &mut CpuPart,
    group: u32,
    out: &mut TypedResult,
) -> u8
    ensures { CallsPart (ReadPages group Peak) (part_behind part.old) (part_behind part.new) result out.new }
{
    let which = GroupPages::Peak;
    serve_call(alloc, part, &Call::ReadPages { group, which }, out)
}

/// Reads the limit of the group of this number, in pages, or none. The CPU isn't settled.
#[unsafe(no_mangle)]
pub extern "C" fn tempolemon_try_max(
    alloc: Global,
    part: &mut CpuPart,
    group: u32,
    out: &mut TypedResult,
) -> u8
    ensures { CallsPart (ReadPages group Max) (part_behind part.old) (part_behind part.new) result out.new }
{
    let which = GroupPages::Max;
    serve_call(alloc, part, &Call::ReadPages { group, which }, out)
}

/// Reads memory.high of the group of this number, in pages, or none. The CPU isn't settled.
#[unsafe(no_mangle)]
pub extern "C" fn tempolemon_try_high(
    alloc: Global,
    part: &mut CpuPart,
    group: u32,
    out: &mut TypedResult,
) -> u8
    ensures { CallsPart (ReadPages group High) (part_behind part.old) (part_behind part.new) result out.new }
{
    let which = GroupPages::High;
    serve_call(alloc, part, &Call::ReadPages { group, which }, out)
}

/// Sets the limit of the group of this number, as a write of memory.max does.
#[unsafe(no_mangle)]
pub extern "C" fn tempolemon_try_set_max(
    alloc: Global,
    part: &mut CpuPart,
    group: u32,
    pages: u64,
    out: &mut TypedResult,
) -> u8
    ensures { CallsPart (ForGroup group (act.Write (setting.Max (limit_of_pages pages))))
        (part_behind part.old) (part_behind part.new) result out.new }
{
    let act = GroupAct::Write(Setting::Max(limit_of_pages(pages)));
    serve_call(alloc, part, &Call::ForGroup { group, act }, out)
}

/// Sets memory.high of the group of this number, as a write of it does.
#[unsafe(no_mangle)]
pub extern "C" fn tempolemon_try_set_high(
    alloc: Global,
    part: &mut CpuPart,
    group: u32,
    pages: u64,
    out: &mut TypedResult,
) -> u8
    ensures { CallsPart (ForGroup group (act.Write (setting.High (limit_of_pages pages))))
        (part_behind part.old) (part_behind part.new) result out.new }
{
    let act = GroupAct::Write(Setting::High(limit_of_pages(pages)));
    serve_call(alloc, part, &Call::ForGroup { group, act }, out)
}

/// Sets memory.low of the group of this number, as a write of it does.
#[unsafe(no_mangle)]
pub extern "C" fn tempolemon_try_set_low(
    alloc: Global,
    part: &mut CpuPart,
    group: u32,
    pages: u64,
    out: &mut TypedResult,
) -> u8
    ensures { CallsPart (ForGroup group (act.Write (setting.Low (limit_of_pages pages))))
        (part_behind part.old) (part_behind part.new) result out.new }
{
    let act = GroupAct::Write(Setting::Low(limit_of_pages(pages)));
    serve_call(alloc, part, &Call::ForGroup { group, act }, out)
}

/// Sets memory.min of the group of this number, as a write of it does.
#[unsafe(no_mangle)]
pub extern "C" fn tempolemon_try_set_min(
    alloc: Global,
    part: &mut CpuPart,
    group: u32,
    pages: u64,
    out: &mut TypedResult,
) -> u8
    ensures { CallsPart (ForGroup group (act.Write (setting.Min (limit_of_pages pages))))
        (part_behind part.old) (part_behind part.new) result out.new }
{
    let act = GroupAct::Write(Setting::Min(limit_of_pages(pages)));
    serve_call(alloc, part, &Call::ForGroup { group, act }, out)
}

/// Reclaims so many pages from the group of this number and those below it, as a write of memory.reclaim does.
#[unsafe(no_mangle)]
pub extern "C" fn tempolemon_try_reclaim(
    alloc: Global,
    part: &mut CpuPart,
    group: u32,
    pages: u64,
    out: &mut TypedResult,
) -> u8
    ensures { CallsPart (ForGroup group (act.Reclaim (limit_of_pages pages)))
        (part_behind part.old) (part_behind part.new) result out.new }
{
    let act = GroupAct::Reclaim(limit_of_pages(pages));
    serve_call(alloc, part, &Call::ForGroup { group, act }, out)
}

// So many pages as a limit: 2^32 pages or more are none, as in the files.
fn limit_of_pages(pages: u64) -> Limit
    ensures { result ≡ limit_of_pages pages }
{
    if pages > u64::from(u32::MAX) {
        return None;
    }
    Some(pages as u32)
}
