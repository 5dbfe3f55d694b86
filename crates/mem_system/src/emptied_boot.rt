//! A boot at which nothing is left: its table can be closed.

ghost use Rattle.std.specs.Prelude.{◌≡◌, length, map, All};
ghost use Rattle.std.specs.Vec.{vec_capacity};
ghost use Rattle.boot_words.specs.{AllOf, HasCpuPast};
ghost use Rattle.cpu_part.specs.Cpus.{IsIdle};
ghost use Rattle.mem_machine.specs.Resting.{Rests};
ghost use Rattle.mem_system.specs.Locked.{IsEmptyWithRoom};
ghost use Rattle.mem_system.specs.Cpus.{KnowsItself, parts_of, seat_of};
ghost use Rattle.mem_system.specs.Ends.{Closes, IsClosed};

use crate::audit::{Audit, take_audit};
use crate::cpus::Cpu;
use boot_words::{ClosedWords, CpuSeat};
use cpu_part::{BootName, Tables};
use mem_machine::Machine;
use std::marker::Model;
use step_watch::Watch;

/// A boot whose last visits are made: nothing is left at any CPU. It must be closed.
pub struct EmptiedBoot<N: BootName> {
    pub(crate) machine: Machine<N>,
    pub(crate) tables: Tables<N>,
    pub(crate) cpus: Vec<Cpu<N>>,
    pub(crate) seats: Vec<CpuSeat>,
    // The fresh frames that the CPUs put back on their own lists, at most 2^64 - 1.
    pub(crate) drops: u64,
}

impl<N: BootName> Model for EmptiedBoot<N> {
    ghost use Rattle.mem_system.specs.Ends.{KnownEmptiedBoot};

    ghost Value = { KnownEmptiedBoot };

    ghost use Rattle.std.specs.Prelude.{length};
    ghost use Rattle.std.specs.Vec.{vec_capacity};
    ghost use Rattle.mem_system.specs.Left.{NothingIsLeft};
    ghost use Rattle.mem_system.specs.Locked.{IsEmptyWithRoom};

    ghost view = { λ s. record { machine = s.machine; cpus = s.cpus.items; drops = s.drops } };

    ghost invariant = { λ s. NothingIsLeft N.table
        (record { machine = s.machine; cpus = s.cpus.items; drops = s.drops })
        × IsEmptyWithRoom N.table.cpus (length s.seats.items) (vec_capacity s.seats) };
}

impl<N: BootName> EmptiedBoot<N> {
    /// The watch of the machine, which took the steps of the last visits.
    pub fn watch(&self) -> &Watch
        ensures { result.now ≡ self.now.machine.run.watch }
    {
        self.machine.watch()
    }

    /// Closes the table and returns what was counted.
    pub fn close(self) -> Audit
        ensures { Closes N.table self result }
    {
        let EmptiedBoot {
            machine,
            tables,
            cpus,
            seats,
            drops,
        } = self;
        let audit = take_audit(&machine, &tables, drops);
        let seats = gather_seats(cpus, seats);
        drop(close_table(machine, tables, seats));
        audit
    }
}

// The seats of CPUs that have nothing left, in a list that has room for them.
fn gather_seats<N: BootName>(mut cpus: Vec<Cpu<N>>, mut seats: Vec<CpuSeat>) -> Vec<CpuSeat>
    requires idle { All IsIdle (parts_of cpus.items) }
    requires room { IsEmptyWithRoom (length cpus.items) (length seats.items) (vec_capacity seats) }
    ensures seats { result.items ≡ map seat_of cpus.items }
    ensures knows { AllOf (KnowsItself N.table) cpus.items }
{
    while !cpus.is_empty() {
        seats.push_reserved(cpus.remove(0).into_seat());
    }
    cpus.destroy_empty();
    seats
}

// Takes the machine apart and closes the table with all its seats.
fn close_table<N: BootName>(
    machine: Machine<N>,
    tables: Tables<N>,
    seats: Vec<CpuSeat>,
) -> ClosedWords
    requires rests { Rests N.table machine }
    requires seats { AllOf (HasCpuPast N.table) seats.items }
    requires count { length seats.items ≡ N.table.cpus }
    ensures { IsClosed N.table machine seats.items result }
{
    tables.into_words().close(machine.into_past(), seats)
}
