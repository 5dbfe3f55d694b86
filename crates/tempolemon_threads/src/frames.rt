//! The calls that allocate, release, pin and note frames. None of them takes memory.

ghost use Rattle.mem_system.specs.declared.text_command.TextCommand.TheVariants.{Clean, Dirty, Owner, Touch};
ghost use Rattle.zone_threads.specs.declared.calls.Call.TheVariants.{AllocPinned, ForGroup, Get, Put, Release, Settle};
ghost use Rattle.zone_threads.specs.declared.calls.Call.TheVariants.{Visit};
ghost use Rattle.zone_threads.specs.declared.calls.GroupAct.TheVariants.{AllocDirty};
ghost use Rattle.tempolemon_threads.specs.Behind.{part_behind};
ghost use Rattle.tempolemon_threads.specs.Calls.{AllocsPart, CallsPart};

use crate::calling::serve_call;
use crate::handles::CpuPart;
use host_memory::typed_result::TypedResult;
use mem_system::TextCommand;
use std::alloc::Global;
use zone_threads::calls::{Call, GroupAct};

/// Takes a block of 2^order frames, charged to the group of this number: if it is a single frame, of the CPU's list and
/// stock, if they can serve. Else it tries the lock.
#[unsafe(no_mangle)]
pub extern "C" fn tempolemon_try_alloc(
    alloc: Global,
    part: &mut CpuPart,
    group: u32,
    order: u32,
    out: &mut TypedResult,
) -> u8
    ensures { AllocsPart group order (part_behind part.old) (part_behind part.new) result out.new }
{
    if order == 0 {
        serve_call(alloc, part, &Call::AllocFrame { group }, out)
    } else {
        let act = GroupAct::Alloc(order);
        serve_call(alloc, part, &Call::ForGroup { group, act }, out)
    }
}

/// Takes a dirty unit of 2^order frames, charged to the group of this number: the unit is kept and dirty before another
/// thread gets the lock, which the call tries.
#[unsafe(no_mangle)]
pub extern "C" fn tempolemon_try_alloc_dirty(
    alloc: Global,
    part: &mut CpuPart,
    group: u32,
    order: u32,
    out: &mut TypedResult,
) -> u8
    ensures { CallsPart (ForGroup group (AllocDirty order)) (part_behind part.old) (part_behind part.new) result out.new }
{
    let act = GroupAct::AllocDirty(order);
    serve_call(alloc, part, &Call::ForGroup { group, act }, out)
}

/// Takes a block of 2^order frames, of order 1 to 10, charged to the group of this number, and pins it for the CPU,
/// before another thread gets the lock, which the call tries. If the CPU can't have one more pin, that is said first.
#[unsafe(no_mangle)]
pub extern "C" fn tempolemon_try_alloc_pinned(
    alloc: Global,
    part: &mut CpuPart,
    group: u32,
    order: u32,
    out: &mut TypedResult,
) -> u8
    ensures { CallsPart (AllocPinned group order) (part_behind part.old) (part_behind part.new) result out.new }
{
    serve_call(alloc, part, &Call::AllocPinned { group, order }, out)
}

/// Releases the unit that this frame heads: a fresh frame of the CPU to its list, if its stock wasn't drained. Else it tries
/// the lock.
#[unsafe(no_mangle)]
pub extern "C" fn tempolemon_try_release(
    alloc: Global,
    part: &mut CpuPart,
    frame: u32,
    out: &mut TypedResult,
) -> u8
    ensures { CallsPart (Release frame) (part_behind part.old) (part_behind part.new) result out.new }
{
    serve_call(alloc, part, &Call::Release { frame }, out)
}

/// Pins this frame for the CPU, without the lock.
#[unsafe(no_mangle)]
pub extern "C" fn tempolemon_cpu_get(
    alloc: Global,
    part: &mut CpuPart,
    frame: u32,
    out: &mut TypedResult,
) -> u8
    ensures { CallsPart (Get frame) (part_behind part.old) (part_behind part.new) result out.new }
{
    serve_call(alloc, part, &Call::Get { frame }, out)
}

/// Puts a pin of the CPU on this frame, without the lock.
#[unsafe(no_mangle)]
pub extern "C" fn tempolemon_cpu_put(
    alloc: Global,
    part: &mut CpuPart,
    frame: u32,
    out: &mut TypedResult,
) -> u8
    ensures { CallsPart (Put frame) (part_behind part.old) (part_behind part.new) result out.new }
{
    serve_call(alloc, part, &Call::Put { frame }, out)
}

/// Notes that the unit that this frame heads was used.
#[unsafe(no_mangle)]
pub extern "C" fn tempolemon_try_touch(
    alloc: Global,
    part: &mut CpuPart,
    frame: u32,
    out: &mut TypedResult,
) -> u8
    ensures { CallsPart (Visit (Touch frame)) (part_behind part.old) (part_behind part.new) result out.new }
{
    let cmd = TextCommand::Touch { frame };
    serve_call(alloc, part, &Call::Visit(cmd), out)
}

/// Notes that the unit that this frame heads is dirty.
#[unsafe(no_mangle)]
pub extern "C" fn tempolemon_try_dirty(
    alloc: Global,
    part: &mut CpuPart,
    frame: u32,
    out: &mut TypedResult,
) -> u8
    ensures { CallsPart (Visit (Dirty frame)) (part_behind part.old) (part_behind part.new) result out.new }
{
    let cmd = TextCommand::Dirty { frame };
    serve_call(alloc, part, &Call::Visit(cmd), out)
}

/// Notes that the unit that this frame heads is clean.
#[unsafe(no_mangle)]
pub extern "C" fn tempolemon_try_clean(
    alloc: Global,
    part: &mut CpuPart,
    frame: u32,
    out: &mut TypedResult,
) -> u8
    ensures { CallsPart (Visit (Clean frame)) (part_behind part.old) (part_behind part.new) result out.new }
{
    let cmd = TextCommand::Clean { frame };
    serve_call(alloc, part, &Call::Visit(cmd), out)
}

/// Reports the place of this frame.
#[unsafe(no_mangle)]
pub extern "C" fn tempolemon_try_owner(
    alloc: Global,
    part: &mut CpuPart,
    frame: u32,
    out: &mut TypedResult,
) -> u8
    ensures { CallsPart (Visit (Owner frame)) (part_behind part.old) (part_behind part.new) result out.new }
{
    let cmd = TextCommand::Owner { frame };
    serve_call(alloc, part, &Call::Visit(cmd), out)
}

/// Settles the CPU.
#[unsafe(no_mangle)]
pub extern "C" fn tempolemon_try_settle(
    alloc: Global,
    part: &mut CpuPart,
    out: &mut TypedResult,
) -> u8
    ensures { CallsPart Settle (part_behind part.old) (part_behind part.new) result out.new }
{
    serve_call(alloc, part, &Call::Settle, out)
}
