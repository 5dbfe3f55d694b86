//! The end of a system whose CPUs may still have pins: each pin is put, and then the boot ends.

ghost use Rattle.std.specs.Prelude.{◌≡◌, length};
ghost use Rattle.mem_system.specs.EndsWithPins.{PutsAndEnds};
ghost use Rattle.mem_system.specs.Locked.{BehindLock};

use crate::audit::Audit;
use crate::boot_end::{count_pins, end};
use crate::cpus::Cpu;
use crate::lock::Locked;
use crate::puts::put_all_pins;
use crate::system::System;
use cpu_part::{BootName, Tables};
use mem_machine::prove_sizes;

/// What a system reports at its end.
#[derive(Clone, Copy, Debug, PartialEq, Eq)]
pub struct SystemEnd {
    /// The pins that CPUs still had, and that were put then.
    pub held: u64,
    /// What was counted.
    pub audit: Audit,
}

/// Ends a boot as `end` does, with the parts of all its CPUs in any order, once it has put every pin that they have.
pub fn put_and_end<N: BootName>(
    locked: Locked<N>,
    tables: Tables<N>,
    mut cpus: Vec<Cpu<N>>,
) -> SystemEnd
    requires { length cpus.items ≡ N.table.cpus }
    ensures { PutsAndEnds N.table locked cpus.items result }
{
    prove_sizes(&tables);
    locked.prove_quiet();
    let held = count_pins(&cpus);
    put_all_pins(&tables, &mut cpus);
    match end(locked, tables, cpus) {
        Ok(audit) => SystemEnd { held, audit },
        Err(_) => unreachable!(),
    }
}

impl<N: BootName> System<N> {
    /// Shuts the system down as `put_and_end` does: a host needs no other call for its end. No clause can name what lies
    /// behind the lock, so the contract says that some sound value was there and ended so.
    pub fn put_and_end(self, cpus: Vec<Cpu<N>>) -> SystemEnd
        requires { length cpus.items ≡ N.table.cpus }
        ensures { BehindLock N.table (λ found. PutsAndEnds N.table found cpus.items result) }
    {
        let (locked, tables) = self.into_parts();
        put_and_end(locked, tables, cpus)
    }
}
