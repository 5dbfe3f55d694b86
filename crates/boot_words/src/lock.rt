//! The lock's steps. Each moves a past: to the zone's seat by `lock`, and back by `unlock`.
ghost use Rattle.std.specs.Prelude.{◌≡◌, []};
ghost use Rattle.step_rules.specs.declared.step.Action.TheVariants as step;
ghost use Rattle.boot_words.specs.Locks.{LeavesFree};
ghost use Rattle.boot_words.specs.Pasts.{local_by_pasts, own_past, IsHeld, IsHolder, IsZonePast, Locks, MayMake, Unlocks};
ghost use Rattle.boot_words.specs.Seats.{zone_of_boot};
ghost use Rattle.boot_words.specs.Words.{stock_in};
ghost use Rattle.boot_words.specs.Cpus.{IsAwayCpu, SawLast, state_left};

use crate::cpu::CpuSeat;
use crate::raw::{BootWords, PastSeat};
use crate::word::Word;
use std::marker::Brand;
use stock_word::Stock;

impl BootWords {
    /// A CPU takes the lock, which is free by the zone's past. Its past goes to the zone's seat, and its own seat is
    /// empty.
    pub fn lock(&self, zone: &mut PastSeat, cpu: &mut CpuSeat)
        requires zone { IsZonePast self.now zone.old }
        requires cpu { IsAwayCpu self.now cpu.old }
        requires free { LeavesFree (zone_of_boot self.now) (own_past zone.old) }
        ensures run { Locks self.now zone.old cpu.old.past zone.new }
        ensures last { SawLast (stock_in ((local_by_pasts self.now zone.new).parts cpu.old.number)) cpu.old.last }
        ensures cpu { cpu.new ≡ record cpu.old { past = record { table = self.now.table; pasts = [] } } }
    {
        self.join(zone, &mut cpu.past);
        self.load::<Brand>(zone, Word::AlwaysZero);
    }

    /// The lock's holder releases it, and its past goes back to its seat. The access is a load of its stock, so it knows
    /// the stock afterwards.
    pub fn unlock(&self, zone: &mut PastSeat, cpu: &mut CpuSeat)
        requires held { IsHeld self.now zone.old }
        requires holder { IsHolder zone.old cpu.old.number }
        requires legal { MayMake self.now zone.old cpu.old.number step.Unlock }
        ensures run { Unlocks self.now zone.old zone.new cpu.new.past }
        ensures cpu { IsAwayCpu self.now cpu.new }
        ensures last { cpu.new.last ≡ stock_in ((state_left self.now cpu.new).parts cpu.new.number) }
    {
        let found = self.load::<Brand>(zone, Word::StockOf(cpu.number));
        cpu.past = self.split_others(zone);
        cpu.last = Stock::of_word(found);
    }
}
