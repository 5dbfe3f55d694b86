//! The calls that allocate, release, pin and note frames. None of them takes memory.

ghost use Rattle.std.specs.Prelude.{◌≡◌, ◌≢◌};
ghost use Rattle.host_memory.specs.{done};
ghost use Rattle.script_lines.specs.declared.line.Command.TheVariants as cmd;
ghost use Rattle.script_lines.specs.declared.line.FrameAct.TheVariants.{Clean, Dirty, Owner, Touch};
ghost use Rattle.tempolemon_c.specs.declared.calls.Call.TheVariants.{Alloc, Script};
ghost use Rattle.tempolemon_c.specs.Behind.{behind};
ghost use Rattle.tempolemon_c.specs.Calls.{AllocatesDirtyBehind, AllocatesPinnedBehind, CallsBehind, MayPinBehind};
ghost use Rattle.tempolemon_c.specs.Calls.{RefusesPinBehind, refusal_result};

use crate::calling::serve_call;
use crate::calls::{Call, PinCheck};
use crate::handle::Handle;
use group_tree::fault::Fault;
use host_memory::kinds::{HELD, NOTHING, REFUSED};
use host_memory::status::{BAD_CPU, DONE, NOT_LIVE};
use host_memory::typed_result::TypedResult;
use script_lines::line::{Command, FrameAct};
use std::alloc::Global;

/// Takes a block of 2^order frames, charged to the group of this number.
#[unsafe(no_mangle)]
pub extern "C" fn tempolemon_alloc(
    alloc: Global,
    handle: &mut Handle,
    cpu: u32,
    group: u32,
    order: u32,
    out: &mut TypedResult,
) -> u8
    ensures { CallsBehind cpu (Alloc group order) (behind handle.old) (behind handle.new) result out.new }
{
    serve_call(alloc, handle, cpu, &Call::Alloc { group, order }, out)
}

/// Takes a unit of 2^order frames, charged to the group of this number, and notes it as dirty: two calls in one.
#[unsafe(no_mangle)]
pub extern "C" fn tempolemon_alloc_dirty(
    alloc: Global,
    handle: &mut Handle,
    cpu: u32,
    group: u32,
    order: u32,
    out: &mut TypedResult,
) -> u8
    ensures { AllocatesDirtyBehind cpu group order (behind handle.old) (behind handle.new) result out.new }
{
    let status = serve_call(alloc, handle, cpu, &Call::Alloc { group, order }, out);
    if status != DONE {
        return status;
    }
    let given = *out;
    let frame = (given.number % (1 << 32)) as u32;
    let dirty = Command::OnFrame(FrameAct::Dirty, frame);
    let status = serve_call(alloc, handle, cpu, &Call::Script(dirty), out);
    if status == DONE {
        *out = given;
    }
    status
}

/// Takes a block of 2^order frames, of order 1 to 10, charged to the group of this number, and pins it for the CPU: two
/// calls in one. If the CPU can't have one more pin, nothing is done. If the pin isn't held, the block is released.
#[unsafe(no_mangle)]
pub extern "C" fn tempolemon_alloc_pinned(
    alloc: Global,
    handle: &mut Handle,
    cpu: u32,
    group: u32,
    order: u32,
    out: &mut TypedResult,
) -> u8
    ensures { AllocatesPinnedBehind cpu group order (behind handle.old) (behind handle.new) result out.new }
{
    let checked = check_pin(alloc, handle, cpu, order, out);
    if checked != DONE {
        return checked;
    }
    let allocated = serve_call(alloc, handle, cpu, &Call::Alloc { group, order }, out);
    if allocated != DONE {
        return allocated;
    }
    let block = *out;
    let frame = (block.number % (1 << 32)) as u32;
    let get = Call::Script(Command::Get { frame });
    let _asked = serve_call(alloc, handle, cpu, &get, out);
    let is_held = out.kind == HELD;
    if is_held {
        *out = block;
        return DONE;
    }
    let release = Call::Script(Command::Release { frame });
    let _released = serve_call(alloc, handle, cpu, &release, out);
    *out = refusal();
    Fault::NotPinned.number() as u8
}

// Whether the CPU may have one more pin, of a block of this order: DONE, or why not. Nothing else is done.
fn check_pin(alloc: Global, handle: &mut Handle, cpu: u32, order: u32, out: &mut TypedResult) -> u8
    ensures may { result ≡ done → MayPinBehind cpu order (behind handle.old) }
    ensures stays { behind handle.new ≡ behind handle.old }
    ensures refused { result ≢ done → RefusesPinBehind cpu order (behind handle.old) result out.new }
{
    *out = TypedResult {
        number: 0,
        kind: NOTHING,
    };
    if !handle.is_live() {
        return NOT_LIVE;
    }
    match handle.check_pin(alloc, cpu, order) {
        PinCheck::May => DONE,
        PinCheck::NoCpu => BAD_CPU,
        PinCheck::PinsFull => {
            *out = refusal();
            Fault::PinsFull.number() as u8
        }
        PinCheck::BadOrder => {
            *out = refusal();
            Fault::BadOrder.number() as u8
        }
    }
}

// The result of a refusal.
fn refusal() -> TypedResult
    ensures { result ≡ refusal_result }
{
    TypedResult {
        number: 0,
        kind: REFUSED,
    }
}

/// Releases the unit that this frame heads: a fresh frame of the CPU is listed again, or the zone's reference is put.
#[unsafe(no_mangle)]
pub extern "C" fn tempolemon_release(
    alloc: Global,
    handle: &mut Handle,
    cpu: u32,
    frame: u32,
    out: &mut TypedResult,
) -> u8
    ensures { CallsBehind cpu (Script (cmd.Release frame)) (behind handle.old) (behind handle.new) result out.new }
{
    let call = Call::Script(Command::Release { frame });
    serve_call(alloc, handle, cpu, &call, out)
}

/// Pins this frame for the CPU, without the lock.
#[unsafe(no_mangle)]
pub extern "C" fn tempolemon_get(
    alloc: Global,
    handle: &mut Handle,
    cpu: u32,
    frame: u32,
    out: &mut TypedResult,
) -> u8
    ensures { CallsBehind cpu (Script (cmd.Get frame)) (behind handle.old) (behind handle.new) result out.new }
{
    let call = Call::Script(Command::Get { frame });
    serve_call(alloc, handle, cpu, &call, out)
}

/// Puts a pin of the CPU on this frame, without the lock.
#[unsafe(no_mangle)]
pub extern "C" fn tempolemon_put(
    alloc: Global,
    handle: &mut Handle,
    cpu: u32,
    frame: u32,
    out: &mut TypedResult,
) -> u8
    ensures { CallsBehind cpu (Script (cmd.Put frame)) (behind handle.old) (behind handle.new) result out.new }
{
    let call = Call::Script(Command::Put { frame });
    serve_call(alloc, handle, cpu, &call, out)
}

/// Notes that the unit that this frame heads was used.
#[unsafe(no_mangle)]
pub extern "C" fn tempolemon_touch(
    alloc: Global,
    handle: &mut Handle,
    cpu: u32,
    frame: u32,
    out: &mut TypedResult,
) -> u8
    ensures { CallsBehind cpu (Script (cmd.OnFrame Touch frame)) (behind handle.old) (behind handle.new) result out.new }
{
    let call = Call::Script(Command::OnFrame(FrameAct::Touch, frame));
    serve_call(alloc, handle, cpu, &call, out)
}

/// Notes that the unit that this frame heads is dirty.
#[unsafe(no_mangle)]
pub extern "C" fn tempolemon_dirty(
    alloc: Global,
    handle: &mut Handle,
    cpu: u32,
    frame: u32,
    out: &mut TypedResult,
) -> u8
    ensures { CallsBehind cpu (Script (cmd.OnFrame Dirty frame)) (behind handle.old) (behind handle.new) result out.new }
{
    let call = Call::Script(Command::OnFrame(FrameAct::Dirty, frame));
    serve_call(alloc, handle, cpu, &call, out)
}

/// Notes that the unit that this frame heads is clean.
#[unsafe(no_mangle)]
pub extern "C" fn tempolemon_clean(
    alloc: Global,
    handle: &mut Handle,
    cpu: u32,
    frame: u32,
    out: &mut TypedResult,
) -> u8
    ensures { CallsBehind cpu (Script (cmd.OnFrame Clean frame)) (behind handle.old) (behind handle.new) result out.new }
{
    let call = Call::Script(Command::OnFrame(FrameAct::Clean, frame));
    serve_call(alloc, handle, cpu, &call, out)
}

/// Says whether this frame is free, lent to a CPU or charged to a group.
#[unsafe(no_mangle)]
pub extern "C" fn tempolemon_owner(
    alloc: Global,
    handle: &mut Handle,
    cpu: u32,
    frame: u32,
    out: &mut TypedResult,
) -> u8
    ensures { CallsBehind cpu (Script (cmd.OnFrame Owner frame)) (behind handle.old) (behind handle.new) result out.new }
{
    let call = Call::Script(Command::OnFrame(FrameAct::Owner, frame));
    serve_call(alloc, handle, cpu, &call, out)
}

/// Settles the CPU: what it has fresh becomes kept units of its stock's group, and what it has back is freed.
#[unsafe(no_mangle)]
pub extern "C" fn tempolemon_settle(
    alloc: Global,
    handle: &mut Handle,
    cpu: u32,
    out: &mut TypedResult,
) -> u8
    ensures { CallsBehind cpu (Script cmd.Settle) (behind handle.old) (behind handle.new) result out.new }
{
    serve_call(alloc, handle, cpu, &Call::Script(Command::Settle), out)
}
