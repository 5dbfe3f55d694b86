//! A pointer to a home, or to nothing, without a name.

ghost use Rattle.std.specs.Prelude.{◌≡◌, IsSome, IsSomeAnd, None, Option};
ghost use Rattle.boot_words.specs.Tables.{KnownTable};
ghost use Rattle.zone_threads.specs.{AnswersRead, Calls, HasCpu, KnownHome};
ghost use Rattle.host_memory.specs.{OnPointer, brand, frames_coded};
ghost use Rattle.tempolemon_threads.specs.Owned.{home_owns, home_coded};
ghost use Rattle.tempolemon_threads.specs.Serving.{ForksRaw, IsFitForHome, ServesRawHome};

use crate::home_pointer::HomePointer;
use crate::requests::{Forked, Request, RequestAnswer};
use crate::serving::{call_pointer, fork, serve, serve_read};
use std::alloc::Global;
use std::marker::{Brand, Model};
use std::mem::ManuallyDrop;
use zone_threads::calls::{Call, CallAnswer, ReadAnswer, ReadCall};

/// A pointer to a home, or to nothing, and the table that the home is of. It can't be dropped, so no home is left in
/// memory. It may go to another thread.
#[repr(C)]
pub struct RawHome {
    ptr: *mut u8,
    alloc: Global,
    pub ghost frames: { KnownTable } by { frames_coded },
    pub ghost home: { Option KnownHome } by { home_coded },
}

impl Model for RawHome {
    ghost also_owns = { λ r. home_owns brand r.frames r.alloc r.ptr r.home };
}

unsafe impl Send for RawHome {}

impl RawHome {
    /// A pointer to nothing.
    pub fn none(alloc: Global) -> RawHome
        ensures { result.home ≡ None }
    {
        RawHome::of(HomePointer::none(alloc))
    }

    /// Lets a pointer to nothing go.
    pub fn forget(self)
        requires { self.home ≡ None }
    {
        let _none = unsafe { ManuallyDrop::new_unchecked(self) };
    }

    /// Takes the pointer out, and leaves one to nothing.
    #[inline(always)]
    pub fn take(&mut self, alloc: Global) -> RawHome
        ensures taken { result ≡ self.old }
        ensures none { self.new.home ≡ None }
    {
        std::mem::replace(self, RawHome::none(alloc))
    }

    /// Puts a pointer in the place of one to nothing.
    #[inline(always)]
    pub fn put(&mut self, raw: RawHome)
        requires { self.old.home ≡ None }
        ensures { self.new ≡ raw }
    {
        std::mem::replace(self, raw).forget();
    }

    /// The same pointer, without a name.
    pub fn of(pointer: HomePointer<Brand>) -> RawHome
        ensures { (result.frames ≡ pointer.frames) × (result.home ≡ pointer.home) }
    {
        let HomePointer { ptr, alloc } = pointer;
        RawHome {
            ptr: ptr as *mut u8,
            alloc,
        }
    }

    /// The same pointer, under a name.
    pub fn into_pointer(self) -> HomePointer<Brand>
        ensures { (result.frames ≡ self.frames) × (result.home ≡ self.home) }
    {
        let RawHome { ptr, alloc } = self;
        HomePointer {
            ptr: ptr as *mut Brand,
            alloc,
        }
    }
}

/// Serves a request, as `serve` does, under a name that it picks for the table.
pub fn serve_raw(raw: RawHome, request: Request) -> (RawHome, RequestAnswer)
    requires fit { IsFitForHome raw.home request }
    ensures serves { ServesRawHome raw.frames raw.home request
        result.0.frames result.0.home result.1 }
{
    let (pointer, answer) = serve::<Brand>(raw.into_pointer(), request);
    (RawHome::of(pointer), answer)
}

/// Serves a call of the home's CPU, as `call_pointer` does, under the name that it picks. Only a pointer to the call
/// crosses, and no memory is taken. It is inlined, so that a caller that names the call has its steps alone.
#[inline(always)]
pub fn call_raw(raw: RawHome, call: &Call<'_>) -> (RawHome, CallAnswer)
    requires cpu { IsSomeAnd raw.home HasCpu }
    ensures serves { OnPointer (λ from to. Calls raw.frames call.now from to result.1)
        raw.frames raw.home result.0.frames result.0.home }
{
    let (pointer, answer) = call_pointer::<Brand>(raw.into_pointer(), call);
    (RawHome::of(pointer), answer)
}

/// Serves a read of a file for the home's CPU, as `serve_read` does, under the name that it picks.
pub fn read_raw(raw: RawHome, asked: &ReadCall<'_>) -> (RawHome, ReadAnswer)
    requires cpu { IsSomeAnd raw.home HasCpu }
    ensures serves { OnPointer (λ from to. AnswersRead raw.frames asked.now from to result.1)
        raw.frames raw.home result.0.frames result.0.home }
{
    let (pointer, answer) = serve_read::<Brand>(raw.into_pointer(), asked);
    (RawHome::of(pointer), answer)
}

/// A second pointer, to another home of the same zone, as `fork` returns it.
pub fn fork_raw(raw: RawHome, heap: Global) -> (RawHome, RawHome, Forked)
    requires some { IsSome raw.home }
    ensures forks { ForksRaw raw.frames raw.home result.0.frames result.0.home
        result.1.frames result.1.home result.2 }
{
    let (first, second, forked) = fork::<Brand>(raw.into_pointer(), heap);
    (RawHome::of(first), RawHome::of(second), forked)
}

fn crosses<T: Send>(value: T) -> T {
    value
}

/// Returns a pointer that may go to another thread: that its type is `Send` is proved here.
pub fn pass_on(raw: RawHome) -> RawHome {
    crosses(raw)
}
