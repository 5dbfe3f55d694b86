//! What lies behind the zone's lock.

ghost use Rattle.std.specs.Prelude.{◌≡◌, ◌∷◌, []};
ghost use Rattle.group_tree.specs.Groups.{number_at};
ghost use Rattle.group_charge.specs.Charges.{AreCharges};
ghost use Rattle.step_rules.specs.After.{cpu_makes};
ghost use Rattle.boot_words.specs.Pasts.{Meets};
ghost use Rattle.step_watch.specs.Watched.{Watches};
ghost use Rattle.mem_machine.specs.Machines.{IsConsistent, with_past, with_detail_notes, with_watch};
ghost use Rattle.mem_system.specs.Boots.{IsSizedAs};
ghost use Rattle.mem_system.specs.Locked.{IsQuiet};
ghost use Rattle.zone_blocks.specs.Config.{IsValidConfig};

use crate::cpus::Cpu;
use boot_words::CpuSeat;
use cpu_part::{BootName, Tables};
use group_charge::charges::Charges;
use group_tree::group::GroupId;
use mem_machine::{Machine, prove_charges};
use std::marker::Model;
use step_rules::step::{Action, Answer};
use step_watch::Watch;
use zone_blocks::config::Config;

/// What lies behind the zone's lock: the machine, the sizes of the boot, and room for the CPUs' seats at the end.
#[derive(Drop)]
pub struct Locked<N: BootName> {
    pub(crate) machine: Machine<N>,
    pub(crate) sizes: Config,
    pub(crate) seats: Vec<CpuSeat>,
}

impl<N: BootName> Model for Locked<N> {
    ghost use Rattle.mem_system.specs.Locked.{KnownLocked};

    ghost Value = { KnownLocked };

    ghost use Rattle.mem_system.specs.Kept.{locked_of, IsSoundInside};

    ghost view = { locked_of };

    ghost invariant = { λ fields. IsSoundInside N.table fields };
}

impl<N: BootName> Locked<N> {
    /// Shows what always holds behind the lock. No visit is open, the machine rests, the sizes are in their ranges
    /// and are those of the table, the machine is consistent, and the groups make up a tree. It does nothing.
    pub fn prove_quiet(&self)
        ensures quiet { IsQuiet N.table self.now }
        ensures consistent { IsConsistent N.table self.now.machine }
        ensures charges { AreCharges self.now.machine.ledger }
    {
        self.machine.prove_consistent();
        prove_charges(self.machine.charges());
    }

    /// Puts the sizes of the boot there. They are there already, but no clause can look through a lock. So who finds this
    /// behind one, and has the sizes from the boot, calls it first: then what is found has these sizes.
    #[inline(always)]
    pub fn set_sizes(&mut self, sizes: Config)
        requires valid { IsValidConfig sizes }
        requires sized { IsSizedAs sizes N.table }
        ensures { self.new ≡ record self.old { sizes = sizes } }
    {
        self.sizes = sizes;
    }

    /// The sizes of the boot.
    pub fn sizes(&self) -> Config
        ensures are { result ≡ self.now.sizes }
        ensures valid { IsValidConfig result }
        ensures sized { IsSizedAs result N.table }
    {
        self.sizes
    }

    /// The machine, which is consistent.
    pub fn machine(&self) -> &Machine<N>
        ensures machine { result.now ≡ self.now.machine }
        ensures consistent { IsConsistent N.table self.now.machine }
    {
        self.machine.prove_consistent();
        &self.machine
    }

    /// The group of this path; None if no group has it.
    pub fn find(&self, path: &[u8]) -> Option<GroupId>
        ensures found { result ≡ number_at self.now.machine.ledger.groups path.now }
    {
        self.machine.charges().tree().find(path)
    }

    /// The charges of the groups, and the tree of their paths and limits.
    pub fn charges(&self) -> &Charges
        ensures { result.now ≡ self.now.machine.ledger }
    {
        self.machine.charges()
    }

    /// Notes details from now on, or no longer. Nothing else changes.
    pub fn set_detail_notes(&mut self, is_on: bool)
        ensures { self.new ≡ record self.old { machine = with_detail_notes self.old.machine is_on } }
    {
        self.machine.set_detail_notes(is_on);
    }

    /// Puts a watch into the machine. A boot does this before the first step.
    pub fn set_watch(&mut self, watch: Watch)
        ensures { self.new ≡ record self.old { machine = with_watch self.old.machine watch } }
    {
        self.machine.set_watch(watch);
    }

    /// The watch of the machine.
    pub fn watch(&self) -> &Watch
        ensures { result.now ≡ self.now.machine.run.watch }
    {
        self.machine.watch()
    }

    /// The machine's watch takes a step of a CPU's seat that no command takes: a lock, an unlock, or a step that the
    /// CPU makes without the lock. Nothing else changes.
    #[inline(always)]
    pub fn take_step(&mut self, cpu: u32, action: Action, answer: Answer)
        ensures locked { self.new ≡ record self.old { machine = with_watch self.old.machine self.new.machine.run.watch } }
        ensures watched { Watches self.old.machine.run.watch (cpu_makes cpu action answer ∷ []) self.new.machine.run.watch }
    {
        self.machine.take_step(cpu, action, answer);
    }

    /// The CPU, which doesn't hold the lock, and the zone, whose lock is free, now see the same run: all that either saw,
    /// and perhaps more steps of others. A caller does this before and after a step that the CPU makes without the lock,
    /// while it keeps others out.
    #[inline(always)]
    pub fn meet(&mut self, tables: &Tables<N>, cpu: &mut Cpu<N>)
        ensures locked { self.new ≡ record self.old { machine = with_past self.old.machine self.new.machine.run.past } }
        ensures part { cpu.new.part ≡ cpu.old.part }
        ensures last { cpu.new.last ≡ cpu.old.last }
        ensures meets { Meets N.table self.old.machine.run.past cpu.old.past self.new.machine.run.past cpu.new.past }
    {
        self.machine.meet(tables, &cpu.part, &mut cpu.past);
    }
}
