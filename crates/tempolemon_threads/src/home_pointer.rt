//! A pointer to a home under a name, or to nothing.

ghost use Rattle.std.specs.Prelude.{◌≡◌, IsSome, None, Option, Some};
ghost use Rattle.boot_words.specs.Tables.{KnownTable};
ghost use Rattle.zone_threads.specs.Homes.{KnownHome};
ghost use Rattle.host_memory.specs.{frames_coded};
ghost use Rattle.tempolemon_threads.specs.Owned.{home_owns, home_coded};

use cpu_part::BootName;
use host_memory::box_parts::BoxParts;
use std::alloc::Global;
use std::marker::Model;
use std::mem::ManuallyDrop;
use zone_threads::home::Home;

/// A pointer to a home, or to nothing, and the table that the home is of. It has the fields of `RawHome`. Its type
/// doesn't fix the table, so a call may pick the name that has it. It can't be dropped.
pub struct HomePointer<B> {
    pub(crate) ptr: *mut B,
    pub(crate) alloc: Global,
    pub ghost frames: { KnownTable } by { frames_coded },
    pub ghost home: { Option KnownHome } by { home_coded },
}

impl<B> Model for HomePointer<B> {
    ghost also_owns = { λ h. home_owns B.row h.frames h.alloc h.ptr h.home };
}

impl<N: BootName> HomePointer<N> {
    /// A pointer to nothing.
    pub fn none(alloc: Global) -> HomePointer<N>
        ensures { (result.frames ≡ N.table) × (result.home ≡ None) }
    {
        HomePointer {
            ptr: std::ptr::null_mut(),
            alloc,
        }
    }

    /// Lets a pointer to nothing go.
    pub fn forget(self)
        requires { self.home ≡ None }
    {
        let _none = unsafe { ManuallyDrop::new_unchecked(self) };
    }

    /// A pointer to what is in this box.
    pub fn of(parts: BoxParts<Home<N>, Global>) -> HomePointer<N>
        ensures { (result.frames ≡ N.table) × (result.home ≡ Some parts.value) }
    {
        let BoxParts { ptr, alloc } = parts;
        HomePointer {
            ptr: ptr as *mut N,
            alloc,
        }
    }

    /// The box with what it points to.
    pub fn into_box_parts(self) -> BoxParts<Home<N>, Global>
        requires { IsSome self.home × (self.frames ≡ N.table) }
        ensures { Some result.value ≡ self.home }
    {
        let HomePointer { ptr, alloc } = self;
        BoxParts {
            ptr: ptr as *mut Home<N>,
            alloc,
        }
    }
}
