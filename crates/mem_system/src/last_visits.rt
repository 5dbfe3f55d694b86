//! The last visits of the CPUs: each CPU is settled, and then each CPU's list is returned and its stock drained. Each
//! visit is made under the lock.

ghost use Rattle.std.specs.Prelude.{◌≡◌, [], All};
ghost use Rattle.mem_machine.specs.{Rests, Holds, IsShut, VisitDoes};
ghost use Rattle.mem_system.specs.Ends.{Empties, ForEachCpu, SettlesInVisit, VisitsUnderLock};
ghost use Rattle.mem_system.specs.Ends.{IsEmptied, IsSettledUnpinned, LendsAndFillsNone, machine_and_cpu, pins_of_all};
ghost use Rattle.mem_system.specs.Cpus.{parts_of};

use crate::cpus::Cpu;
use cpu_part::{BootName, CpuLists, Tables};
use mem_machine::Machine;
use step_rules::step::{Action, Answer};

// Settles the CPU in a visit.
fn settle_cpu<N: BootName>(machine: &mut Machine<N>, tables: &Tables<N>, cpu: &mut CpuLists<N>)
    requires shut { IsShut N.table machine.old cpu.old.number }
    requires holds { Holds N.table machine.old cpu.old }
    requires no_pin { cpu.old.pins ≡ [] }
    ensures settles { VisitDoes N.table SettlesInVisit machine.old cpu.old machine.new cpu.new }
    ensures shut { IsShut N.table machine.new cpu.new.number }
    ensures holds { Holds N.table machine.new cpu.new }
    ensures settled { IsSettledUnpinned cpu.new }
{
    machine.open(tables, cpu);
    machine.settle(tables, cpu);
    machine.shut(tables, cpu);
}

// Returns the list of the settled CPU to the zone and drains its stock, in a visit.
fn empty_cpu<N: BootName>(machine: &mut Machine<N>, tables: &Tables<N>, cpu: &mut CpuLists<N>)
    requires shut { IsShut N.table machine.old cpu.old.number }
    requires holds { Holds N.table machine.old cpu.old }
    requires settled { IsSettledUnpinned cpu.old }
    ensures empties { VisitDoes N.table Empties machine.old cpu.old machine.new cpu.new }
    ensures shut { IsShut N.table machine.new cpu.new.number }
    ensures holds { Holds N.table machine.new cpu.new }
    ensures emptied { IsEmptied N.table machine.new cpu.new }
    ensures others { LendsAndFillsNone N.table machine.old machine.new }
{
    machine.open(tables, cpu);
    let listed = cpu.list_len() as u32;
    machine.drain_list(tables, cpu, listed);
    machine.drain_stock(tables, cpu.number());
    machine.shut(tables, cpu);
    machine.prove_none_lent(cpu);
}

// Settles the CPU in a visit under the lock.
fn settle_under_lock<N: BootName>(machine: &mut Machine<N>, tables: &Tables<N>, cpu: &mut Cpu<N>)
    requires rests { Rests N.table machine.old }
    requires no_pin { cpu.old.part.pins ≡ [] }
    ensures settles { VisitsUnderLock N.table SettlesInVisit
        (machine_and_cpu machine.old cpu.old) (machine_and_cpu machine.new cpu.new) }
    ensures rests { Rests N.table machine.new }
    ensures settled { IsSettledUnpinned cpu.new.part }
{
    let cpu_number = cpu.number();
    machine.lock(tables, &cpu.part, &mut cpu.past);
    machine.take_step(cpu_number, Action::Lock, Answer::Done);
    settle_cpu(machine, tables, &mut cpu.part);
    machine.take_step(cpu_number, Action::Unlock, Answer::Done);
    machine.unlock(tables, &cpu.part, &mut cpu.past);
}

// Returns the list of the settled CPU to the zone and drains its stock, in a visit under the lock.
fn empty_under_lock<N: BootName>(machine: &mut Machine<N>, tables: &Tables<N>, cpu: &mut Cpu<N>)
    requires rests { Rests N.table machine.old }
    requires settled { IsSettledUnpinned cpu.old.part }
    ensures empties { VisitsUnderLock N.table Empties
        (machine_and_cpu machine.old cpu.old) (machine_and_cpu machine.new cpu.new) }
    ensures rests { Rests N.table machine.new }
    ensures emptied { IsEmptied N.table machine.new cpu.new.part }
    ensures others { LendsAndFillsNone N.table machine.old machine.new }
{
    let cpu_number = cpu.number();
    machine.lock(tables, &cpu.part, &mut cpu.past);
    machine.take_step(cpu_number, Action::Lock, Answer::Done);
    empty_cpu(machine, tables, &mut cpu.part);
    machine.take_step(cpu_number, Action::Unlock, Answer::Done);
    machine.unlock(tables, &cpu.part, &mut cpu.past);
}

// Settles the CPUs, one after the other.
pub(crate) fn settle_all<N: BootName>(
    machine: &mut Machine<N>,
    tables: &Tables<N>,
    cpus: &mut [Cpu<N>],
)
    requires rests { Rests N.table machine.old }
    requires no_pin { pins_of_all (parts_of cpus.old) ≡ 0 }
    ensures settles { ForEachCpu (VisitsUnderLock N.table SettlesInVisit) machine.old cpus.old machine.new cpus.new }
    ensures rests { Rests N.table machine.new }
    ensures settled { All IsSettledUnpinned (parts_of cpus.new) }
{
    for cpu in cpus.iter_mut() {
        settle_under_lock(machine, tables, cpu);
    }
}

// Returns the lists of the settled CPUs to the zone and drains their stocks, one CPU after the other.
pub(crate) fn empty_all<N: BootName>(
    machine: &mut Machine<N>,
    tables: &Tables<N>,
    cpus: &mut [Cpu<N>],
)
    requires rests { Rests N.table machine.old }
    requires settled { All IsSettledUnpinned (parts_of cpus.old) }
    ensures empties { ForEachCpu (VisitsUnderLock N.table Empties) machine.old cpus.old machine.new cpus.new }
    ensures rests { Rests N.table machine.new }
    ensures emptied { All (λ cpu. IsEmptied N.table machine.new cpu) (parts_of cpus.new) }
{
    for cpu in cpus.iter_mut() {
        empty_under_lock(machine, tables, cpu);
    }
}
