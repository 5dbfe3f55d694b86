//! Shutting a system down.

ghost use Rattle.std.specs.Prelude.{◌≡◌, ◌≤◌, length, IfOk, IfErr};
ghost use Rattle.mem_system.specs.Locked.{BehindLock};
ghost use Rattle.mem_system.specs.Cpus.{parts_of};
ghost use Rattle.mem_system.specs.Ends.{AddsUp, Ends, pins_of_all};

use crate::audit::Audit;
use crate::boot_end::{Pinned, end};
use crate::cpus::Cpu;
use crate::system::System;
use cpu_part::BootName;

/// A system that isn't shut down because pins remain. It and the CPUs' parts are unchanged.
pub struct Held<N: BootName> {
    pub system: System<N>,
    pub cpus: Vec<Cpu<N>>,
    /// The pins of all CPUs together, at least 1.
    pub pins: u64,
}

impl<N: BootName> System<N> {
    /// Shuts the system down as `end` does, with the parts of all its CPUs in any order. It returns `Held` exactly if a
    /// pin remains. No clause can name what lies behind the lock, so the contract says that some sound value was there
    /// and ended so.
    pub fn shutdown(self, cpus: Vec<Cpu<N>>) -> Result<Audit, Held<N>>
        requires { length cpus.items ≡ N.table.cpus }
        ensures ends { IfOk result (λ audit.
            BehindLock N.table (λ found. Ends N.table found cpus.items audit)) }
        ensures frames { IfOk result (λ audit. audit.frames ≡ N.table.frames) }
        ensures adds_up { IfOk result (λ audit. AddsUp audit) }
        ensures no_pin { IfOk result (λ _. pins_of_all (parts_of cpus.items) ≡ 0) }
        ensures pins { IfErr result (λ held. held.pins ≡ pins_of_all (parts_of cpus.items)) }
        ensures some_pin { IfErr result (λ held. 1 ≤ held.pins) }
        ensures cpus { IfErr result (λ held. held.cpus.items ≡ cpus.items) }
        ensures sizes { IfErr result (λ held. held.system.sizes ≡ self.sizes) }
    {
        let (locked, tables) = self.into_parts();
        match end(locked, tables, cpus) {
            Ok(audit) => Ok(audit),
            Err(pinned) => Err(Held::of(pinned)),
        }
    }
}

impl<N: BootName> Held<N> {
    // The system that goes on, behind a lock again.
    fn of(pinned: Pinned<N>) -> Held<N>
        ensures cpus { result.cpus.items ≡ pinned.cpus.items }
        ensures pins { result.pins ≡ pinned.pins }
        ensures sizes { result.system.sizes ≡ pinned.locked.sizes }
    {
        let Pinned {
            locked,
            tables,
            cpus,
            pins,
        } = pinned;
        let system = System::of(locked, tables);
        Held { system, cpus, pins }
    }
}
