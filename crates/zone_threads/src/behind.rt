//! What lies behind the zone's lock.

ghost use Rattle.std.specs.Prelude.{◌≡◌, ◌<◌, ◌≤◌, ◌++◌, ◌∷◌, [], IfNone, IfSome, length};
ghost use Rattle.std.specs.List.{HoldsAt};

use cpu_part::BootName;
use mem_system::{Cpu, Locked};
use std::marker::Model;

/// What lies behind the lock: the machine, and the parts of the CPUs that no thread has, in any order.
pub struct Behind<N: BootName> {
    pub(crate) locked: Locked<N>,
    pub(crate) parked: Vec<Cpu<N>>,
}

impl<N: BootName> Model for Behind<N> {
    ghost use Rattle.std.specs.Prelude.{vec_capacity};
    ghost use Rattle.zone_threads.specs.Homes.{KnownBehind};

    ghost Value = { KnownBehind };

    ghost view = { λ b. record { locked = b.locked; parked = b.parked.items; room = vec_capacity b.parked } };
}

impl<N: BootName> Behind<N> {
    ghost use Rattle.zone_threads.specs.Homes.{IsNotParked, Unparks, parked_with};

    /// Takes the part of the CPU of this number; `None` if it isn't parked.
    pub fn unpark(&mut self, number: u32) -> Option<Cpu<N>>
        ensures unparked { IfSome result (λ cpu. (cpu.part.number ≡ number) × Unparks cpu self.old self.new) }
        ensures none { IfNone result (IsNotParked number self.old × (self.new ≡ self.old)) }
    {
        let place = self.place_of(number)?;
        Some(self.parked.swap_remove(place))
    }

    // The place of the part of this number.
    fn place_of(&self, number: u32) -> Option<usize>
        ensures there { IfSome result (λ place. (place < length self.now.parked)
            × HoldsAt (λ cpu. cpu.part.number ≡ number) self.now.parked place) }
        ensures none { IfNone result (IsNotParked number self.now) }
    {
        self.parked.iter().position(|cpu| cpu.number() == number)
    }

    /// Parks the part of a CPU. It is returned if there is no room, which a boot reserves for all.
    pub fn park(&mut self, cpu: Cpu<N>) -> Option<Cpu<N>>
        ensures parked { IfNone result (self.new ≡ parked_with self.old cpu) }
        ensures returned { IfSome result (λ returned. (returned ≡ cpu) × (self.new ≡ self.old)) }
        ensures full { IfSome result (λ _. self.old.room ≤ length self.old.parked) }
    {
        if self.parked.len() == self.parked.capacity() {
            return Some(cpu);
        }
        self.parked.push_reserved(cpu);
        None
    }
}
