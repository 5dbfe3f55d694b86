//! Serving requests under the name of a boot's table.

ghost use Rattle.std.specs.Prelude.{◌≡◌, IsSome, IsSomeAnd, None};
ghost use Rattle.tempolemon_c.specs.HandleCalls.{CallsLive, ChecksPin, GroupHasFiles, IsTypedCall, ShowsFile};
ghost use Rattle.host_memory.specs.{OnKnown};
ghost use Rattle.tempolemon_c.specs.Serving.{IsFit, ServesRequest, frames_after_request};
ghost use Rattle.tempolemon_c.specs.declared.requests.Request.TheVariants.{End, Lines, Start, StoreUnread, TakeUnread};

use crate::calls::{Call, CallAnswer, PinCheck};
use crate::live::Live;
use crate::live_pointer::LivePointer;
use crate::requests::{Request, RequestAnswer};
use control_files::file::File;
use control_files::text::ArrayText;
use cpu_part::BootName;
use group_tree::group::GroupId;
use host_memory::box_parts::BoxParts;
use mem_system::Boot;
use script_lines::fault::ScriptFault;
use std::alloc::Global;
use zone_blocks::config::Config;

/// Serves a request. A start needs a pointer to nothing, and all else one to the parts of a boot.
pub fn serve<N: BootName>(
    pointer: LivePointer<N>,
    request: Request,
) -> (LivePointer<N>, RequestAnswer)
    requires fit { IsFit pointer.live request }
    requires frames { frames_after_request pointer.frames request ≡ N.table }
    ensures named { result.0.frames ≡ N.table }
    ensures serves { ServesRequest N.table pointer.live request result.0.live result.1 }
{
    match request {
        Request::Start { alloc, boot, sizes } => start(pointer, alloc, boot, sizes),
        Request::Lines {
            alloc,
            text,
            is_explained,
        } => answer_lines(pointer, alloc, text, is_explained),
        Request::StoreUnread { text } => store_unread(pointer, text),
        Request::TakeUnread { alloc } => take_unread(pointer, alloc),
        Request::End { alloc } => finish(pointer, alloc),
    }
}

/// Serves a call of the CPU of this number, on the parts of a boot.
#[inline(always)]
pub fn call_pointer<N: BootName>(
    pointer: LivePointer<N>,
    cpu: u32,
    call: &Call<'_>,
) -> (LivePointer<N>, CallAnswer)
    requires some { IsSome pointer.live }
    requires named { pointer.frames ≡ N.table }
    requires asked { IsTypedCall call.now }
    ensures named { result.0.frames ≡ N.table }
    ensures serves { OnKnown (λ from to. CallsLive N.table cpu call.now from to result.1)
        pointer.live result.0.live }
{
    let mut live = pointer.into_box_parts().into_box();
    let answer = live.call(cpu, call);
    (LivePointer::of(BoxParts::of(live)), answer)
}

/// Returns what a file of a group shows, on the parts of a boot that has the group. The root has no files.
pub fn show_file<N: BootName>(
    pointer: LivePointer<N>,
    group: GroupId,
    file: File,
) -> (LivePointer<N>, ArrayText)
    requires there { IsSomeAnd pointer.live (GroupHasFiles group file) }
    requires named { pointer.frames ≡ N.table }
    ensures named { result.0.frames ≡ N.table }
    ensures shows { OnKnown (λ from to. ShowsFile group file from to result.1) pointer.live result.0.live }
{
    let live = pointer.into_box_parts().into_box();
    let shown = live.show(group, file);
    (LivePointer::of(BoxParts::of(live)), shown)
}

/// Whether the CPU of this number may have one more pin, of a block of this order, on the parts of a boot.
pub fn check_pin<N: BootName>(
    pointer: LivePointer<N>,
    cpu: u32,
    order: u32,
) -> (LivePointer<N>, PinCheck)
    requires some { IsSome pointer.live }
    requires named { pointer.frames ≡ N.table }
    ensures named { result.0.frames ≡ N.table }
    ensures checks { OnKnown (λ from to. ChecksPin cpu order result.1 from to) pointer.live result.0.live }
{
    let live = pointer.into_box_parts().into_box();
    let check = live.check_pin(cpu, order);
    (LivePointer::of(BoxParts::of(live)), check)
}

fn start<N: BootName>(
    _pointer: LivePointer<N>,
    alloc: Global,
    boot: Boot,
    sizes: Config,
) -> (LivePointer<N>, RequestAnswer)
    requires none { _pointer.live ≡ None }
    requires frames { boot.table ≡ N.table }
    requires sizes { boot.sizes ≡ sizes }
    ensures named { result.0.frames ≡ N.table }
    ensures serves { ServesRequest N.table _pointer.live (Start alloc boot sizes) result.0.live result.1 }
{
    let Ok(live) = Live::<N>::start(alloc, boot, sizes) else {
        return (LivePointer::none(alloc), RequestAnswer::NoMemory);
    };
    match Box::new(alloc, live) {
        Ok(live) => (LivePointer::of(BoxParts::of(live)), RequestAnswer::Done),
        Err(_) => (LivePointer::none(alloc), RequestAnswer::NoMemory),
    }
}

fn answer_lines<N: BootName>(
    pointer: LivePointer<N>,
    alloc: Global,
    text: Vec<u8>,
    is_explained: bool,
) -> (LivePointer<N>, RequestAnswer)
    requires some { IsSome pointer.live }
    requires named { pointer.frames ≡ N.table }
    ensures named { result.0.frames ≡ N.table }
    ensures serves { ServesRequest N.table pointer.live
        (Lines alloc text is_explained) result.0.live result.1 }
{
    let mut live = pointer.into_box_parts().into_box();
    let answered = live.answer_lines(alloc, &text, is_explained);
    let pointer = LivePointer::of(BoxParts::of(live));
    match answered {
        Ok(answers) => (pointer, RequestAnswer::Text(answers)),
        Err(ScriptFault::BadLine(number)) => (pointer, RequestAnswer::BadLine(number)),
        Err(ScriptFault::NoMemory) => (pointer, RequestAnswer::NoMemory),
    }
}

fn store_unread<N: BootName>(
    pointer: LivePointer<N>,
    text: Vec<u8>,
) -> (LivePointer<N>, RequestAnswer)
    requires some { IsSome pointer.live }
    requires named { pointer.frames ≡ N.table }
    ensures named { result.0.frames ≡ N.table }
    ensures serves { ServesRequest N.table pointer.live (StoreUnread text) result.0.live result.1 }
{
    let mut live = pointer.into_box_parts().into_box();
    live.store_unread(text);
    (LivePointer::of(BoxParts::of(live)), RequestAnswer::Done)
}

fn take_unread<N: BootName>(
    pointer: LivePointer<N>,
    alloc: Global,
) -> (LivePointer<N>, RequestAnswer)
    requires some { IsSome pointer.live }
    requires named { pointer.frames ≡ N.table }
    ensures named { result.0.frames ≡ N.table }
    ensures serves { ServesRequest N.table pointer.live (TakeUnread alloc) result.0.live result.1 }
{
    let mut live = pointer.into_box_parts().into_box();
    let text = live.take_unread(alloc);
    (
        LivePointer::of(BoxParts::of(live)),
        RequestAnswer::Text(text),
    )
}

fn finish<N: BootName>(pointer: LivePointer<N>, alloc: Global) -> (LivePointer<N>, RequestAnswer)
    requires some { IsSome pointer.live }
    requires named { pointer.frames ≡ N.table }
    ensures named { result.0.frames ≡ N.table }
    ensures serves { ServesRequest N.table pointer.live (End alloc) result.0.live result.1 }
{
    let live = Box::into_inner(pointer.into_box_parts().into_box());
    let ended = live.finish();
    (LivePointer::none(alloc), RequestAnswer::Ended(ended))
}
