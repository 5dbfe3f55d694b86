//! A CPU and the zone see the same run.
ghost use Rattle.std.specs.Prelude.{◌≡◌};
ghost use Rattle.boot_words.specs.Locks.{LeavesFree};
ghost use Rattle.boot_words.specs.Pasts.{own_past, IsZonePast, Meets};
ghost use Rattle.boot_words.specs.Seats.{zone_of_boot};
ghost use Rattle.boot_words.specs.Cpus.{IsAwayCpu};

use crate::cpu::CpuSeat;
use crate::raw::{BootWords, PastSeat};
use crate::word::Word;
use std::marker::Brand;

impl BootWords {
    /// A CPU, which doesn't hold the lock, and the zone now see the same run: all steps that either saw, and all that
    /// others have made. No step is made. It is for a caller that has to know in which order several CPUs made their
    /// steps: the CPU's next step comes after all steps that the zone saw.
    pub fn meet(&self, zone: &mut PastSeat, cpu: &mut CpuSeat)
        requires zone { IsZonePast self.now zone.old }
        requires cpu { IsAwayCpu self.now cpu.old }
        requires free { LeavesFree (zone_of_boot self.now) (own_past zone.old) }
        ensures run { Meets self.now zone.old cpu.old.past zone.new cpu.new.past }
        ensures cpu { IsAwayCpu self.now cpu.new }
        ensures same { (cpu.new.number ≡ cpu.old.number) × (cpu.new.last ≡ cpu.old.last) }
    {
        self.join(zone, &mut cpu.past);
        self.load::<Brand>(zone, Word::AlwaysZero);
        cpu.past = self.split_others(zone);
    }
}
