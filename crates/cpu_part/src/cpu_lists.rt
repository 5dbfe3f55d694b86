//! A CPU's part, and how it is made.
ghost use Rattle.std.specs.Prelude.{◌≡◌, ◌≤◌, [], IfOk, vec_capacity};
ghost use Rattle.std.specs.VecDeque.{deque_capacity};
ghost use Rattle.cpu_part.specs.Cpus.{HasRoomForPart};

use crate::boot_name::BootName;
use frame_word::Frame;
use std::alloc::{AllocError, Global};
use std::collections::VecDeque;
use std::marker::{Model, PhantomData};

/// The most listed and fresh frames of a CPU, together.
pub const MAX_LISTED: usize = 256;

/// The most fresh frames of a CPU.
pub const MAX_FRESH: usize = 32;

/// The most pins and back frames of a CPU, together.
pub const MAX_PINS: usize = 256;

// Entries past the last one that is used: as many bytes as a cache line.
const SPARE: usize = 16;

/// What a CPU has for itself. `end` consumes it. It ends with a cache line that no one writes, so that no two CPUs write
/// the same one.
pub struct CpuLists<N: BootName> {
    pub(crate) number: u32,
    /// The free frames that the zone lent to the CPU, the next one to take first.
    pub(crate) list: VecDeque<Frame>,
    /// The frames that it took from the list and paid for, and that no visit has settled yet.
    pub(crate) fresh: Vec<Frame>,
    /// The heads of units whose last reference it put, and that no visit has freed yet.
    pub(crate) back: VecDeque<Frame>,
    /// The frames on which it has references, each as often as it has one.
    pub(crate) pins: Vec<Frame>,
    /// How many fresh frames it has put back on its list.
    pub(crate) drops: u64,
    /// The cache line that no one writes.
    pub(crate) gap: [u64; 8],
    pub(crate) of: PhantomData<N>,
}

impl<N: BootName> Model for CpuLists<N> {
    ghost use Rattle.std.specs.Prelude.{length};
    ghost use Rattle.std.specs.VecDeque.{deque_capacity};
    ghost use Rattle.std.specs.Vec.{vec_capacity};
    ghost use Rattle.cpu_part.specs.Cpus.{KnownCpuLists, AreWithin, HasRoomForPart};

    ghost Value = { KnownCpuLists };

    ghost view = { λ c. record {
      number = c.number;
      list = c.list.items;
      fresh = c.fresh.items;
      back = c.back.items;
      pins = c.pins.items;
      drops = c.drops;
    } };

    ghost invariant = { λ c.
        AreWithin (length c.list.items) (length c.fresh.items) (length c.back.items) (length c.pins.items)
        × HasRoomForPart (deque_capacity c.list) (vec_capacity c.fresh) (deque_capacity c.back) (vec_capacity c.pins) };
}

// The frames that a CPU has, by their lists.
#[derive(Drop)]
struct Frames {
    list: VecDeque<Frame>,
    fresh: Vec<Frame>,
    back: VecDeque<Frame>,
    pins: Vec<Frame>,
}

// No frames, with all room that the calls of a CPU need.
fn new_frames(alloc: Global) -> Result<Frames, AllocError>
    ensures lists { IfOk result (λ f. (f.list.items ≡ []) × (f.back.items ≡ [])) }
    ensures vecs { IfOk result (λ f. (f.fresh.items ≡ []) × (f.pins.items ≡ [])) }
    ensures room { IfOk result (λ f. HasRoomForPart (deque_capacity f.list) (vec_capacity f.fresh) (deque_capacity f.back)
        (vec_capacity f.pins)) }
{
    let list = VecDeque::with_capacity(alloc, MAX_LISTED)?;
    let fresh = Vec::with_capacity(alloc, MAX_FRESH)?;
    let back = VecDeque::with_capacity(alloc, MAX_PINS)?;
    let pins = Vec::with_capacity(alloc, MAX_PINS + SPARE)?;
    Ok(Frames {
        list,
        fresh,
        back,
        pins,
    })
}

impl<N: BootName> CpuLists<N> {
    ghost use Rattle.cpu_part.specs.Cpus.{first_cpu, IsIdle};

    /// The part of the CPU of this number, which did nothing yet. All room that its calls need is reserved.
    /// `AllocError` if memory runs out.
    pub fn new(alloc: Global, number: u32) -> Result<CpuLists<N>, AllocError>
        ensures { IfOk result (λ c. c ≡ first_cpu number) }
    {
        let frames = new_frames(alloc)?;
        Ok(CpuLists {
            number,
            list: frames.list,
            fresh: frames.fresh,
            back: frames.back,
            pins: frames.pins,
            drops: 0,
            gap: [0; 8],
            of: PhantomData,
        })
    }

    /// Ends the part, once nothing is left: no frame on the lists and no pin.
    pub fn end(self)
        requires { IsIdle self }
    {
        let CpuLists {
            number: _,
            list,
            fresh,
            back,
            pins,
            drops: _,
            gap: _,
            of: _,
        } = self;
        // A call, because a field that is let go here is dropped here, part by part, which is long to check.
        drop(Frames {
            list,
            fresh,
            back,
            pins,
        });
    }
}
