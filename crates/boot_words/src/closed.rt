//! The end of a table.
ghost use Rattle.std.specs.Prelude.{◌≡◌, ◌++◌, length};
ghost use Rattle.boot_words.specs.Closed.{pasts_of_cpus, HasCpuPast, IsClosedRun};
ghost use Rattle.boot_words.specs.Pasts.{IsZonePast};
ghost use Rattle.boot_words.specs.Rule.{AllOf};
ghost use Rattle.boot_words.specs.Seats.{zone_of_boot};

use crate::cpu::CpuSeat;
use crate::raw::{BootWords, PastSeat};
use atomic_table::Closed;
use std::alloc::Global;
use std::marker::Model;

/// The words at the end, when no seat is left to change them.
pub struct ClosedWords {
    closed: Closed<(), Global>,
}

impl Model for ClosedWords {
    ghost use Rattle.std.specs.Prelude.{◌≡◌, ℕ, List};
    ghost use Rattle.std.specs.Mem.Slots.{slots_items, slots_len};

    ghost Value = { List ℕ };

    ghost view = { λ w. slots_items w.closed.words };

    ghost invariant = { λ w. slots_len w.closed.slots ≡ 0 };
}

impl Drop for ClosedWords {
    fn drop(self) {
        let ClosedWords { closed } = self;
        closed.free();
    }
}

impl BootWords {
    // The zone's seat takes in the pasts of all CPUs.
    fn gather(&self, zone: &mut PastSeat, cpus: Vec<CpuSeat>)
        requires zone { zone.old.table ≡ self.now.table }
        requires cpus { AllOf (HasCpuPast self.now) cpus.items }
        ensures { zone.new ≡ record { table = self.now.table; pasts = zone.old.pasts ++ pasts_of_cpus cpus.items } }
    {
        for cpu in cpus {
            let CpuSeat {
                mut past,
                number: _,
                last: _,
            } = cpu;
            self.join(zone, &mut past);
        }
    }

    /// Ends the table with all its seats, those of the CPUs in any order. There is one legal run whose state has just the
    /// final words, and each seat's past is a beginning of it.
    pub fn close(self, zone: PastSeat, cpus: Vec<CpuSeat>) -> ClosedWords
        requires zone { IsZonePast self zone }
        requires cpus { AllOf (HasCpuPast self) cpus.items × (length cpus.items ≡ self.cpus) }
        ensures { IsClosedRun (zone_of_boot self) result (zone.pasts ++ pasts_of_cpus cpus.items) }
    {
        let mut zone = zone;
        self.gather(&mut zone, cpus);
        ClosedWords {
            closed: self.end(zone),
        }
    }
}
