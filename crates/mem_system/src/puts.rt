//! Putting the pins that CPUs still have, before a system ends.

ghost use Rattle.std.specs.Prelude.{◌≡◌, []};
ghost use Rattle.mem_system.specs.Cpus.{parts_of};
ghost use Rattle.mem_system.specs.Ends.{pins_of_all};
ghost use Rattle.mem_system.specs.Puts.{EachPuts, PutsPins};

use crate::cpus::Cpu;
use cpu_part::{BootName, Tables};

impl<N: BootName> Cpu<N> {
    /// Puts every pin of the CPU, without the lock.
    pub fn put_all(&mut self, tables: &Tables<N>)
        ensures none { self.new.part.pins ≡ [] }
        ensures puts { PutsPins self.old self.new }
    {
        while let Some(frame) = self.first_pin() {
            let _put = self.put(tables, frame);
        }
    }
}

// Puts every pin of the CPUs, one CPU after the other.
pub(crate) fn put_all_pins<N: BootName>(tables: &Tables<N>, cpus: &mut [Cpu<N>])
    ensures none { pins_of_all (parts_of cpus.new) ≡ 0 }
    ensures puts { EachPuts cpus.old cpus.new }
{
    for cpu in cpus.iter_mut() {
        cpu.put_all(tables);
    }
}
