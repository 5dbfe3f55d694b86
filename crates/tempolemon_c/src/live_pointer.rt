//! A pointer to the parts of a boot under a name, or to nothing.

ghost use Rattle.std.specs.Prelude.{◌≡◌, IsSome, None, Option, Some};
ghost use Rattle.boot_words.specs.Tables.{KnownTable};
ghost use Rattle.tempolemon_c.specs.Known.{KnownLive};
ghost use Rattle.host_memory.specs.{frames_coded};
ghost use Rattle.tempolemon_c.specs.Owned.{known_coded, live_owns};

use crate::live::Live;
use cpu_part::BootName;
use host_memory::box_parts::BoxParts;
use std::alloc::Global;
use std::marker::Model;

/// A pointer to the parts of a boot, or to nothing, and the table that the parts are of. It has the fields of
/// `RawBoot`. Its type doesn't fix the table, so a call may pick the name that has it. If it is dropped, what it
/// points to stays in memory.
#[derive(Drop)]
pub struct LivePointer<B> {
    pub(crate) ptr: *mut B,
    pub(crate) alloc: Global,
    pub ghost frames: { KnownTable } by { frames_coded },
    pub ghost live: { Option KnownLive } by { known_coded },
}

impl<B> Model for LivePointer<B> {
    ghost also_owns = { λ h. live_owns B.row h.frames h.alloc h.ptr h.live };
}

impl<N: BootName> LivePointer<N> {
    /// A pointer to nothing.
    pub fn none(alloc: Global) -> LivePointer<N>
        ensures { (result.frames ≡ N.table) × (result.live ≡ None) }
    {
        LivePointer {
            ptr: std::ptr::null_mut(),
            alloc,
        }
    }

    /// A pointer to what is in this box.
    pub fn of(parts: BoxParts<Live<N>, Global>) -> LivePointer<N>
        ensures { (result.frames ≡ N.table) × (result.live ≡ Some parts.value) }
    {
        let BoxParts { ptr, alloc } = parts;
        LivePointer {
            ptr: ptr as *mut N,
            alloc,
        }
    }

    /// The box with what it points to.
    pub fn into_box_parts(self) -> BoxParts<Live<N>, Global>
        requires { IsSome self.live × (self.frames ≡ N.table) }
        ensures { Some result.value ≡ self.live }
    {
        let LivePointer { ptr, alloc } = self;
        BoxParts {
            ptr: ptr as *mut Live<N>,
            alloc,
        }
    }
}
