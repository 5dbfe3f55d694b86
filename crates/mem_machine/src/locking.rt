//! Taking and releasing the machine's lock, in the run, and the meeting of a CPU and the zone there.

ghost use Rattle.std.specs.Prelude.{◌≡◌, []};
ghost use Rattle.cpu_part.specs.Known.{KnowsItsPart};
ghost use Rattle.boot_words.specs.Pasts.{Locks, Meets, Unlocks};
ghost use Rattle.mem_machine.specs.Local.{Holds, IsShut};
ghost use Rattle.mem_machine.specs.Machines.{with_past};
ghost use Rattle.mem_machine.specs.Resting.{Rests};
ghost use Rattle.mem_machine.specs.Showing.{stock_left};

use crate::machine::Machine;
use boot_words::CpuSeat;
use cpu_part::{BootName, CpuLists, Tables};

impl<N: BootName> Machine<N> {
    /// The CPU takes the lock, which is free. Its past, which it gives away, is the machine's until `unlock`. The
    /// caller holds the mutex that keeps other CPUs out meanwhile.
    pub fn lock(&mut self, tables: &Tables<N>, cpu: &CpuLists<N>, seat: &mut CpuSeat)
        requires rests { Rests N.table self.old }
        requires knows { KnowsItsPart N.table seat.old cpu.now }
        ensures machine { self.new ≡ with_past self.old self.new.run.past }
        ensures holds { Holds N.table self.new cpu.now }
        ensures shut { IsShut N.table self.new cpu.now.number }
        ensures given { seat.new ≡ record seat.old { past = record { table = N.table.table; pasts = [] } } }
        ensures run { Locks N.table self.old.run.past seat.old.past self.new.run.past }
    {
        tables.words.lock(&mut self.past, seat);
    }

    /// The CPU releases the lock, and has its own past again. Its visit is shut, and it knows its own part as the
    /// machine's calls left it, and its stock.
    pub fn unlock(&mut self, tables: &Tables<N>, cpu: &CpuLists<N>, seat: &mut CpuSeat)
        requires holds { Holds N.table self.old cpu.now }
        requires shut { IsShut N.table self.old cpu.now.number }
        requires number { seat.old.number ≡ cpu.now.number }
        ensures machine { self.new ≡ with_past self.old self.new.run.past }
        ensures rests { Rests N.table self.new }
        ensures knows { KnowsItsPart N.table seat.new cpu.now }
        ensures last { seat.new.last ≡ stock_left N.table self.new cpu.now.number }
        ensures run { Unlocks N.table self.old.run.past self.new.run.past seat.new.past }
    {
        tables.words.unlock(&mut self.past, seat);
    }

    /// The CPU, which doesn't hold the lock, and the zone, whose lock is free, now see the same run: all that either
    /// saw. The machine rests as before, and the CPU still knows its own part.
    pub fn meet(&mut self, tables: &Tables<N>, cpu: &CpuLists<N>, seat: &mut CpuSeat)
        requires rests { Rests N.table self.old }
        requires knows { KnowsItsPart N.table seat.old cpu.now }
        ensures machine { self.new ≡ with_past self.old self.new.run.past }
        ensures rests { Rests N.table self.new }
        ensures knows { KnowsItsPart N.table seat.new cpu.now }
        ensures last { seat.new.last ≡ seat.old.last }
        ensures meets { Meets N.table self.old.run.past seat.old.past self.new.run.past seat.new.past }
    {
        tables.words.meet(&mut self.past, seat);
    }
}
