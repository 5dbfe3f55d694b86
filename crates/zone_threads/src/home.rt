//! What a thread has of a zone.

ghost use Rattle.std.specs.Arc.{arc_value};
ghost use Rattle.std.specs.Prelude.{◌≡◌, IfErr, IfOk};
ghost use Rattle.zone_threads.specs.Homes.{HasNoCpu};

use crate::behind::Behind;
use crate::zone::Zone;
use cpu_part::BootName;
use host_memory::try_cell::PutBack;
use mem_system::{Boot, Cpu};
use std::alloc::{AllocError, Global};
use std::marker::Model;
use std::mem::ManuallyDrop;
use std::sync::Arc;

/// What a thread has of a zone: the zone, and the part of a CPU, if it took one. All homes of a zone share it, so the CPU
/// is of that zone.
pub struct Home<N: BootName> {
    pub(crate) zone: Arc<Zone<N>, Global>,
    pub(crate) cpu: Option<Cpu<N>>,
    // Shows what was found behind the lock, and what was left there, in the last call that took it.
    pub(crate) change: Option<PutBack<Box<Behind<N>, Global>>>,
}

impl<N: BootName> Model for Home<N> {
    ghost use Rattle.std.specs.Arc.{arc_value};
    ghost use Rattle.zone_threads.specs.Homes.{KnownHome};

    ghost Value = { KnownHome };

    ghost view = { λ h. record { cpu = h.cpu; sizes = (arc_value h.zone).sizes; change = h.change } };
}

/// Why no CPU was taken.
#[derive(Clone, Copy, Debug, PartialEq, Eq)]
pub enum NotEntered {
    /// The zone has no such CPU.
    NoCpu,
    /// Another home has it.
    Out,
    /// The home has a CPU already.
    HasCpu,
    /// Another thread has the lock.
    Busy,
}

/// Why no CPU was returned.
#[derive(Clone, Copy, Debug, PartialEq, Eq)]
pub enum NotLeft {
    /// The home had no CPU.
    NoCpu,
    /// Another thread has the lock.
    Busy,
}

impl<N: BootName> Home<N> {
    /// Starts a boot, and is the first home of its zone, without a CPU. `AllocError` means that memory ran out: nothing
    /// is left then.
    pub fn start(alloc: Global, boot: Boot) -> Result<Home<N>, AllocError>
        requires frames { boot.table ≡ N.table }
        ensures no_cpu { IfOk result HasNoCpu }
        ensures sizes { IfOk result (λ home. home.sizes ≡ boot.sizes) }
    {
        let zone = Zone::<N>::start(alloc, boot)?;
        let zone = Arc::new(alloc, zone)?;
        Ok(Home::of(zone))
    }

    /// Another home of the same zone, without a CPU.
    pub fn fork(&self) -> Result<Home<N>, AllocError>
        ensures no_cpu { IfOk result HasNoCpu }
        ensures sizes { IfOk result (λ home. home.sizes ≡ self.now.sizes) }
    {
        let zone = Arc::try_clone(&self.zone)?;
        Ok(Home::of(zone))
    }

    // A home of this zone that took no CPU yet.
    fn of(zone: Arc<Zone<N>, Global>) -> Home<N>
        ensures no_cpu { HasNoCpu result }
        ensures sizes { result.sizes ≡ (arc_value zone).sizes }
    {
        Home {
            zone,
            cpu: None,
            change: None,
        }
    }

    /// What all homes shared, if there is no other one. Else the home is returned as it was.
    pub fn into_zone(self) -> Result<Zone<N>, Home<N>>
        requires { HasNoCpu self }
        ensures alone { IfOk result (λ zone. zone.sizes ≡ self.sizes) }
        ensures shared { IfErr result (λ home. home ≡ self) }
    {
        let Home { zone, cpu, change } = self;
        let None = cpu else { unreachable!() };
        match Arc::try_unwrap(zone) {
            Ok(zone) => Ok(zone),
            Err(zone) => Err(Home {
                zone,
                cpu: None,
                change,
            }),
        }
    }
}

// A part can't be dropped, so that of a home that is dropped stays in memory, and its zone with it. No call drops a
// home that has a CPU.
impl<N: BootName> Drop for Home<N> {
    fn drop(self) {
        let Home {
            zone: _,
            cpu,
            change: _,
        } = self;
        if let Some(cpu) = cpu {
            let _left = unsafe { ManuallyDrop::new_unchecked(cpu) };
        }
    }
}
