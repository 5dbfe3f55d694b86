//! A pointer to the parts of a boot, or to nothing, without a name.

ghost use Rattle.std.specs.Prelude.{◌≡◌, IsSome, IsSomeAnd, None, Option};
ghost use Rattle.boot_words.specs.Tables.{KnownTable};
ghost use Rattle.tempolemon_c.specs.HandleCalls.{CallsLive, ChecksPin, GroupHasFiles, IsTypedCall, ShowsFile};
ghost use Rattle.tempolemon_c.specs.Known.{KnownLive};
ghost use Rattle.host_memory.specs.{OnPointer, brand, frames_coded};
ghost use Rattle.tempolemon_c.specs.Owned.{known_coded, live_owns};
ghost use Rattle.tempolemon_c.specs.Serving.{IsFit, ServesRaw};

use crate::calls::{Call, CallAnswer, PinCheck};
use crate::live_pointer::LivePointer;
use crate::requests::{Request, RequestAnswer};
use crate::serving::{call_pointer, check_pin, serve, show_file};
use control_files::file::File;
use control_files::text::ArrayText;
use group_tree::group::GroupId;
use std::alloc::Global;
use std::marker::{Brand, Model};

/// A pointer to the parts of a boot, or to nothing, and the table that the parts are of. If it is dropped, what it
/// points to stays in memory. It may go to another thread.
#[repr(C)]
#[derive(Drop)]
pub struct RawBoot {
    ptr: *mut u8,
    alloc: Global,
    pub ghost frames: { KnownTable } by { frames_coded },
    pub ghost live: { Option KnownLive } by { known_coded },
}

impl Model for RawBoot {
    ghost also_owns = { λ r. live_owns brand r.frames r.alloc r.ptr r.live };
}

unsafe impl Send for RawBoot {}

impl RawBoot {
    /// A pointer to nothing.
    pub fn none(alloc: Global) -> RawBoot
        ensures { result.live ≡ None }
    {
        RawBoot::of(LivePointer::none(alloc))
    }

    /// The same pointer, without a name.
    pub fn of(pointer: LivePointer<Brand>) -> RawBoot
        ensures { (result.frames ≡ pointer.frames) × (result.live ≡ pointer.live) }
    {
        let LivePointer { ptr, alloc } = pointer;
        RawBoot {
            ptr: ptr as *mut u8,
            alloc,
        }
    }

    /// The same pointer, under a name.
    pub fn into_pointer(self) -> LivePointer<Brand>
        ensures { (result.frames ≡ self.frames) × (result.live ≡ self.live) }
    {
        let RawBoot { ptr, alloc } = self;
        LivePointer {
            ptr: ptr as *mut Brand,
            alloc,
        }
    }
}

/// Serves a request, as `serve` does, under a name that it picks for the table.
pub fn serve_raw(raw: RawBoot, request: Request) -> (RawBoot, RequestAnswer)
    requires fit { IsFit raw.live request }
    ensures serves { ServesRaw raw.frames raw.live request
        result.0.frames result.0.live result.1 }
{
    let (pointer, answer) = serve::<Brand>(raw.into_pointer(), request);
    (RawBoot::of(pointer), answer)
}

/// Serves a call of the CPU of this number, as `call_pointer` does, under the name that it picks for the table. Only a
/// pointer to the call crosses, and no memory is taken.
///
/// It is inlined, so that a caller that names the call has its steps alone: see `serve_value`.
#[inline(always)]
pub fn call_raw(raw: RawBoot, cpu: u32, call: &Call<'_>) -> (RawBoot, CallAnswer)
    requires some { IsSome raw.live }
    requires asked { IsTypedCall call.now }
    ensures serves { OnPointer (λ from to. CallsLive raw.frames cpu call.now from to result.1)
        raw.frames raw.live result.0.frames result.0.live }
{
    let (pointer, answer) = call_pointer::<Brand>(raw.into_pointer(), cpu, call);
    (RawBoot::of(pointer), answer)
}

/// Returns what a file of a group shows, as `show_file` does, under the name that it picks for the table.
pub fn show_raw(raw: RawBoot, group: GroupId, file: File) -> (RawBoot, ArrayText)
    requires there { IsSomeAnd raw.live (GroupHasFiles group file) }
    ensures shows { OnPointer (λ from to. ShowsFile group file from to result.1)
        raw.frames raw.live result.0.frames result.0.live }
{
    let (pointer, shown) = show_file::<Brand>(raw.into_pointer(), group, file);
    (RawBoot::of(pointer), shown)
}

/// Whether a CPU may have one more pin, as `check_pin` says, under the name that it picks for the table.
pub fn check_pin_raw(raw: RawBoot, cpu: u32, order: u32) -> (RawBoot, PinCheck)
    requires some { IsSome raw.live }
    ensures checks { OnPointer (λ from to. ChecksPin cpu order result.1 from to)
        raw.frames raw.live result.0.frames result.0.live }
{
    let (pointer, check) = check_pin::<Brand>(raw.into_pointer(), cpu, order);
    (RawBoot::of(pointer), check)
}

fn crosses<T: Send>(value: T) -> T {
    value
}

/// Returns a pointer that may go to another thread: that its type is `Send` is proved here.
pub fn pass_on(raw: RawBoot) -> RawBoot {
    crosses(raw)
}
