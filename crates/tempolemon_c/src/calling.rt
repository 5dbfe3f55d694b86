//! How a typed call is served.

ghost use Rattle.std.specs.Prelude.{◌≡◌, IfSome, IsSomeAnd};
ghost use Rattle.control_files.specs.Stat.{stat_text};
ghost use Rattle.mem_system.specs.declared.outcome.Outcome.TheVariants.{Text};
ghost use Rattle.reply_texts.specs.declared.line_answer.LineAnswer.TheVariants.{Served};
ghost use Rattle.tempolemon_c.specs.Behind.{behind};
ghost use Rattle.tempolemon_c.specs.HandleCalls.{IsTypedCall};
ghost use Rattle.tempolemon_c.specs.Calls.{CallsBehind, CallsInto, HasFileBehind, HasGroupsBehind, ReturnsText};
ghost use Rattle.tempolemon_c.specs.Calls.{ReturnsValue};

use crate::calls::{Call, CallAnswer};
use crate::handle::Handle;
use crate::typed_result::typed_answer_of;
use control_files::file::File;
use control_files::stat::{MemoryStat, stat_text};
use control_files::text::ArrayText;
use group_tree::group::GroupId;
use host_memory::buffers::copy_answers;
use host_memory::kinds::{NOTHING, TEXT};
use host_memory::status::{BAD_CPU, BAD_FRAME, BAD_GROUP, DONE, NOT_LIVE};
use host_memory::typed_result::TypedResult;
use mem_system::Outcome;
use reply_texts::LineAnswer;
use std::alloc::Global;

/// Serves a call of the CPU of this number, and writes the result for the host.
///
/// It is inlined down to the part of the CPU, and so each call of a host has the steps of that call alone.
#[inline(always)]
pub(crate) fn serve_call(
    alloc: Global,
    handle: &mut Handle,
    cpu: u32,
    call: &Call<'_>,
    out: &mut TypedResult,
) -> u8
    requires { IsTypedCall call.now }
    ensures { CallsBehind cpu call.now (behind handle.old) (behind handle.new) result out.new }
{
    serve_into(alloc, handle, cpu, call, &mut [], out)
}

/// Serves a call as `serve_call` does, and writes the text of a file into the buffer, if that has room for it.
#[inline(always)]
#[tactic(auto, using(crate::proofs::Showing::groups_there))]
pub(crate) fn serve_into(
    alloc: Global,
    handle: &mut Handle,
    cpu: u32,
    call: &Call<'_>,
    buffer: &mut [u8],
    out: &mut TypedResult,
) -> u8
    requires { IsTypedCall call.now }
    ensures { CallsInto cpu call.now (behind handle.old) (behind handle.new) result out.new buffer.old buffer.new }
{
    *out = TypedResult {
        number: 0,
        kind: NOTHING,
    };
    if !handle.is_live() {
        return NOT_LIVE;
    }
    match handle.call(alloc, cpu, call) {
        CallAnswer::Served(value) => write_value(alloc, handle, &value, buffer, out),
        CallAnswer::NoCpu => BAD_CPU,
        CallAnswer::NoFrame => BAD_FRAME,
        CallAnswer::NoGroup => BAD_GROUP,
    }
}

// Writes the answer, and the text of a file into the buffer, if that has room for it. The fields are written
// one by one: a whole `TypedResult` is copied with the bytes between its fields, which the CPU has to wait for.
#[inline(always)]
#[tactic(auto, using(crate::proofs::Showing::plain_result, crate::proofs::Showing::stat_result))]
fn write_value(
    alloc: Global,
    handle: &mut Handle,
    value: &LineAnswer,
    buffer: &mut [u8],
    out: &mut TypedResult,
) -> u8
    requires there { IsSomeAnd (behind handle.old) (HasGroupsBehind value.now) }
    ensures stays { behind handle.new ≡ behind handle.old }
    ensures out { IfSome (behind handle.old) (ReturnsValue value.now result out.new buffer.old buffer.new) }
{
    match *value {
        LineAnswer::Served(Outcome::Text(group, file)) => {
            write_file(alloc, handle, group, file, buffer, out)
        }
        LineAnswer::Served(Outcome::Stat(stat)) => write_stat(stat, buffer, out),
        _ => {
            let answered = typed_answer_of(value);
            out.number = answered.typed.number;
            out.kind = answered.typed.kind;
            answered.status
        }
    }
}

// Writes the text of a file into the buffer, if that has room for it. Here and in `write_stat`
// alone there is room for a text, so that no other call clears that room.
#[inline(never)]
#[tactic(auto, using(crate::proofs::Showing::stays, crate::proofs::Showing::tells))]
fn write_file(
    alloc: Global,
    handle: &mut Handle,
    group: GroupId,
    file: File,
    buffer: &mut [u8],
    out: &mut TypedResult,
) -> u8
    requires there { IsSomeAnd (behind handle.old) (HasFileBehind group file) }
    ensures stays { behind handle.new ≡ behind handle.old }
    ensures out { IfSome (behind handle.old)
        (ReturnsValue (Served (Text group file)) result out.new buffer.old buffer.new) }
{
    write_text(&handle.show(alloc, group, file), buffer, out)
}

// Writes the text of memory.stat into the buffer, if that has room for it.
#[inline(never)]
fn write_stat(stat: MemoryStat, buffer: &mut [u8], out: &mut TypedResult) -> u8
    ensures { ReturnsText (stat_text stat) result out.new buffer.old buffer.new }
{
    write_text(&stat_text(stat), buffer, out)
}

// Writes a text into the buffer, if that has room for it.
fn write_text(text: &ArrayText, buffer: &mut [u8], out: &mut TypedResult) -> u8
    ensures { ReturnsText text.now result out.new buffer.old buffer.new }
{
    let text = text.as_bytes();
    let _fits = copy_answers(text, buffer);
    *out = TypedResult {
        number: text.len() as u64,
        kind: TEXT,
    };
    DONE
}
