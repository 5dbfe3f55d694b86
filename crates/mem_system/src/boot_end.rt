//! The end of a system: the last visits of its CPUs are made, and then the table is closed.

ghost use Rattle.std.specs.Prelude.{◌≡◌, ◌<◌, ◌^◌, min, length, IfOk, IfErr};
ghost use Rattle.group_tree.specs.Room.{max_count};
ghost use Rattle.mem_system.specs.Cpus.{parts_of};
ghost use Rattle.mem_system.specs.Ends.{Ends, IsPinned, MakesLastVisits, drops_of, pins_of_all};

use crate::audit::Audit;
use crate::cpus::Cpu;
use crate::emptied_boot::EmptiedBoot;
use crate::last_visits::{empty_all, settle_all};
use crate::lock::Locked;
use cpu_part::{BootName, Tables};
use mem_machine::prove_sizes;

/// The parts of a boot, returned unchanged because pins remain.
pub struct Pinned<N: BootName> {
    pub locked: Locked<N>,
    pub tables: Tables<N>,
    pub cpus: Vec<Cpu<N>>,
    /// The pins of all CPUs together, at least 1.
    pub pins: u64,
}

// The pins of the CPUs together.
pub(crate) fn count_pins<N: BootName>(cpus: &[Cpu<N>]) -> u64
    requires { length cpus.now < 2 ^ 32 }
    ensures { result ≡ pins_of_all (parts_of cpus.now) }
{
    let mut pins = 0;
    for cpu in cpus {
        pins += cpu.pin_count() as u64;
    }
    pins
}

// How many fresh frames the CPUs put back on their own lists. The sum stays at 2^64 - 1.
fn count_drops<N: BootName>(cpus: &[Cpu<N>]) -> u64
    ensures { result ≡ min (drops_of (parts_of cpus.now)) max_count }
{
    let mut drops: u64 = 0;
    for cpu in cpus {
        drops = drops.saturating_add(cpu.drops());
    }
    drops
}

/// Makes the last visits of a boot, from all its parts, with those of all its CPUs in any order. If no pin remains, it
/// settles each CPU in a visit. Then, in another visit of each CPU, it returns the CPU's list to the zone and drains
/// its stock. Each visit is made under the lock, and the machine's watch takes all these steps. If a pin remains, it
/// does nothing and returns all parts.
pub fn make_last_visits<N: BootName>(
    locked: Locked<N>,
    tables: Tables<N>,
    mut cpus: Vec<Cpu<N>>,
) -> Result<EmptiedBoot<N>, Pinned<N>>
    requires { length cpus.items ≡ N.table.cpus }
    ensures visits { IfOk result (MakesLastVisits N.table locked cpus.items) }
    ensures pinned { IfErr result (IsPinned locked tables cpus.items) }
{
    prove_sizes(&tables);
    let pins = count_pins(&cpus);
    if pins > 0 {
        return Err(Pinned {
            locked,
            tables,
            cpus,
            pins,
        });
    }
    let drops = count_drops(&cpus);
    let Locked {
        mut machine,
        sizes: _,
        seats,
    } = locked;
    settle_all(&mut machine, &tables, &mut cpus);
    empty_all(&mut machine, &tables, &mut cpus);
    Ok(EmptiedBoot {
        machine,
        tables,
        cpus,
        seats,
        drops,
    })
}

/// Ends a boot, from all its parts, with those of all its CPUs in any order. If no pin remains, it makes the last
/// visits of the CPUs, closes the table and returns what was counted. If a pin remains, it does nothing and returns
/// all parts.
pub fn end<N: BootName>(
    locked: Locked<N>,
    tables: Tables<N>,
    cpus: Vec<Cpu<N>>,
) -> Result<Audit, Pinned<N>>
    requires { length cpus.items ≡ N.table.cpus }
    ensures ends { IfOk result (λ audit. Ends N.table locked cpus.items audit) }
    ensures pinned { IfErr result (IsPinned locked tables cpus.items) }
{
    match make_last_visits(locked, tables, cpus) {
        Ok(emptied) => Ok(emptied.close()),
        Err(pinned) => Err(pinned),
    }
}
