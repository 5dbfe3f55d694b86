//! The begin and the end of a CPU's visit.

ghost use Rattle.std.specs.Prelude.{◌≡◌};
ghost use Rattle.mem_machine.specs.Local.{Holds, IsShut, Makes, Visits};
ghost use Rattle.mem_machine.specs.Machines.{with_run};
ghost use Rattle.mem_machine.specs.Steps.{open_steps, shut_steps};

use crate::machine::Machine;
use cpu_part::{BootName, CpuLists, Tables};
use step_rules::step::{Action, Answer};

impl<N: BootName> Machine<N> {
    /// Opens the visit of the CPU, which is shut. Frames are handed over and pages reported only inside a visit.
    pub fn open(&mut self, tables: &Tables<N>, cpu: &CpuLists<N>)
        requires holds { Holds N.table self.old cpu.now }
        requires shut { IsShut N.table self.old cpu.now.number }
        ensures machine { self.new ≡ with_run self.old self.new.run }
        ensures visits { Visits N.table self.new cpu.now }
        ensures steps { Makes N.table self.old (open_steps cpu.now.number) self.new }
    {
        let cpu_number = cpu.number();
        tables.words.open_visit(&mut self.past, cpu_number);
        self.watch.take(0, || (Action::OpenVisit { cpu: cpu_number }, Answer::Done));
    }

    /// Shuts the visit of the CPU. No frame is in transit between it and the zone.
    pub fn shut(&mut self, tables: &Tables<N>, cpu: &CpuLists<N>)
        requires { Visits N.table self.old cpu.now }
        ensures machine { self.new ≡ with_run self.old self.new.run }
        ensures holds { Holds N.table self.new cpu.now }
        ensures shut { IsShut N.table self.new cpu.now.number }
        ensures steps { Makes N.table self.old (shut_steps cpu.now.number) self.new }
    {
        let cpu_number = cpu.number();
        tables.words.shut_visit(&mut self.past, cpu_number);
        self.watch.take(0, || (Action::ShutVisit { cpu: cpu_number }, Answer::Done));
    }
}
