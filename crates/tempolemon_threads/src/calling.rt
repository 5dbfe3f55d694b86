//! How a typed call is served.

ghost use Rattle.tempolemon_threads.specs.Behind.{part_behind};
ghost use Rattle.tempolemon_threads.specs.Calls.{CallsPart};

use crate::handles::CpuPart;
use crate::typed_result::typed_answer_of;
use host_memory::kinds::NOTHING;
use host_memory::status::NOT_LIVE;
use host_memory::typed_result::TypedResult;
use std::alloc::Global;
use zone_threads::calls::Call;

/// Serves a call of the CPU behind the handle, and writes the result for the host. The fields are written one by one: a
/// whole `TypedResult` is copied with the bytes between its fields, which the CPU has to wait for.
///
/// It is inlined down to the part of the CPU, and so each call of a host has the steps of that call alone.
#[inline(always)]
pub(crate) fn serve_call(
    alloc: Global,
    part: &mut CpuPart,
    call: &Call<'_>,
    out: &mut TypedResult,
) -> u8
    ensures { CallsPart call.now (part_behind part.old) (part_behind part.new) result out.new }
{
    if !part.is_live() {
        out.number = 0;
        out.kind = NOTHING;
        return NOT_LIVE;
    }
    let answered = typed_answer_of(part.call(alloc, call));
    out.number = answered.typed.number;
    out.kind = answered.typed.kind;
    answered.status
}
