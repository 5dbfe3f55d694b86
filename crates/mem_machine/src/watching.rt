//! The watch of the machine: how it is put in and read, and how it takes the steps that CPUs make without the machine.

ghost use Rattle.std.specs.Prelude.{◌≡◌, ◌∷◌, []};
ghost use Rattle.step_rules.specs.After.{cpu_makes};
ghost use Rattle.step_watch.specs.Watched.{Watches};
ghost use Rattle.mem_machine.specs.Machines.{with_watch};

use crate::machine::Machine;
use cpu_part::BootName;
use std::mem;
use step_rules::step::{Action, Answer};
use step_watch::Watch;

impl<N: BootName> Machine<N> {
    /// Puts a watch into the machine. A boot does this before its first step.
    pub fn set_watch(&mut self, watch: Watch)
        ensures { self.new ≡ with_watch self.old watch }
    {
        // A call, because an assignment would drop the old watch here, part by part, which is long to check.
        drop(mem::replace(&mut self.watch, watch));
    }

    /// The watch, which took each step that the contracts of this machine's calls name.
    pub fn watch(&self) -> &Watch
        ensures { result.now ≡ self.now.run.watch }
    {
        &self.watch
    }

    /// The watch takes a step of a CPU's seat that no other call of the machine takes: a lock, an unlock, or a step
    /// that the CPU makes without the lock. The machine stays as it is. A caller that is in a hurry first asks the
    /// watch whether it is on, because an action has room for a path.
    pub fn take_step(&mut self, cpu: u32, action: Action, answer: Answer)
        ensures machine { self.new ≡ with_watch self.old self.new.run.watch }
        ensures watched { Watches self.old.run.watch (cpu_makes cpu action answer ∷ []) self.new.run.watch }
    {
        self.watch.take(cpu, || (action, answer));
    }
}
