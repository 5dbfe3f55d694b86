//! Looks at the pasts of all seats together, by two rounds of meetings with the zone. When a CPU meets again, it has made
//! no step since it met first. So what the zone has seen after the first round has each CPU's past of that round as a
//! beginning, and no later step of that CPU.

ghost use Rattle.std.specs.Prelude.{◌≡◌, length};
ghost use Rattle.mem_system.specs.Ends.{ForEachCpu};
ghost use Rattle.script_replay.specs.Lines.{system_state};
ghost use Rattle.load_run.specs.Survey.{MeetsZone, SeesAllPasts};

use cpu_part::{BootName, Tables};
use mem_system::{Cpu, Locked};

/// Looks at the pasts of all CPUs and of the zone together. A caller does this while no other thread makes a step.
pub(crate) fn survey<N: BootName>(locked: &mut Locked<N>, tables: &Tables<N>, cpus: &mut [Cpu<N>])
    requires count { length cpus.old ≡ N.table.cpus }
    ensures sees { SeesAllPasts N.table (system_state locked.old cpus.old) (system_state locked.new cpus.new) }
{
    meet_each(locked, tables, cpus);
    locked.prove_quiet(); // The zone's past is a legal run.
    meet_each(locked, tables, cpus); // No CPU has made a step since it met.
}

// Each CPU meets the zone.
fn meet_each<N: BootName>(locked: &mut Locked<N>, tables: &Tables<N>, cpus: &mut [Cpu<N>])
    ensures meets { ForEachCpu (MeetsZone N.table) locked.old.machine cpus.old locked.new.machine cpus.new }
    ensures sizes { locked.new.sizes ≡ locked.old.sizes }
{
    for cpu in cpus.iter_mut() {
        locked.meet(tables, cpu);
    }
}
