//! A boot: the table of its words with all its seats, and the machine, table and CPUs' parts that it becomes.

ghost use Rattle.std.specs.Prelude.{◌≡◌, [], length, All, IfOk};
ghost use Rattle.boot_words.specs.{IsRunSoFar, IsAwayCpu, cpus_at_first, seat_at_first, AllOf, own_past};
ghost use Rattle.mem_machine.specs.Machines.{IsFirst};
ghost use Rattle.cpu_part.specs.Cpus.{IsIdle};
ghost use Rattle.zone_blocks.specs.Config.{IsValidConfig};
ghost use Rattle.mem_system.specs.Boots.{IsSizedAs, first_cpus, first_pasts};
ghost use Rattle.mem_system.specs.Cpus.{parts_of, pasts_of};
ghost use Rattle.mem_system.specs.declared.boots.BootFault.TheVariants.{NoMemory};

use crate::cpus::Cpu;
use crate::lock::Locked;
use crate::system::System;
use boot_words::{BootWords, CpuSeat, PastSeat};
use cpu_part::{BootName, Tables};
use mem_machine::Machine;
use std::alloc::{AllocError, Global};
use std::marker::Model;
use zone_blocks::config::Config;

/// Why there is no boot.
#[derive(Clone, Copy, Debug, PartialEq, Eq)]
pub enum BootFault {
    /// A size is out of its range.
    BadConfig,
    /// Memory ran out.
    NoMemory,
}

impl From<AllocError> for BootFault {
    ghost from_gives = { λ _ e. e ≡ NoMemory };

    fn from(_error: AllocError) -> BootFault {
        BootFault::NoMemory
    }
}

/// The table of a boot's words with all its seats, none of which was used yet.
#[derive(Drop)]
pub struct Boot {
    pub(crate) sizes: Config,
    pub(crate) words: BootWords,
    pub(crate) zone: PastSeat,
    // The CPUs' seats, in order.
    pub(crate) cpus: Vec<CpuSeat>,
}

impl Model for Boot {
    ghost use Rattle.mem_system.specs.Boots.{KnownBoot, IsBooted};

    ghost Value = { KnownBoot };

    ghost view = { λ b. record { sizes = b.sizes; table = b.words } };

    ghost invariant = { λ b.
        IsBooted (record { sizes = b.sizes; table = b.words }) b.zone b.cpus.items };
}

impl Boot {
    /// Makes the parts of the boot, under a name of its table: what lies behind the lock, the table, and a part for
    /// each CPU, in order. This call reserves all memory that later calls need. It returns `AllocError` if memory runs
    /// out; nothing is left then.
    pub fn into_parts<N: BootName>(
        self,
        alloc: Global,
    ) -> Result<(Locked<N>, Tables<N>, Vec<Cpu<N>>), AllocError>
        requires table { self.table ≡ N.table }
        ensures machine { IfOk result (λ parts. IsFirst N.table parts.0.machine) }
        ensures sizes { IfOk result (λ parts. parts.0.sizes ≡ self.sizes) }
        ensures cpus { IfOk result (λ parts. parts_of parts.2.items ≡ first_cpus 1 self.sizes.cpus) }
        ensures count { IfOk result (λ parts. length parts.2.items ≡ N.table.cpus) }
        ensures sized { IfOk result (λ _. IsSizedAs self.sizes N.table) }
        ensures so_far { IfOk result (λ parts.
            IsRunSoFar [] (own_past parts.0.machine.run.past) (pasts_of parts.2.items)) }
    {
        let Boot {
            sizes,
            words,
            zone,
            cpus,
        } = self;
        let tables = Tables::<N>::new(words);
        let cpus = make_cpus(alloc, sizes.cpus, cpus)?;
        match new_locked(alloc, sizes, &tables, zone) {
            Ok(locked) => Ok((locked, tables, cpus)),
            Err(error) => {
                take_apart(cpus);
                Err(error)
            }
        }
    }

    /// Starts the boot under a name of its table: returns the system, and a part for each CPU, in order. It returns
    /// `AllocError` if memory runs out; nothing is left then. A clause can't look through the lock: `Boot::into_parts`
    /// says what lies behind it.
    pub fn start<N: BootName>(self, alloc: Global) -> Result<(System<N>, Vec<Cpu<N>>), AllocError>
        requires table { self.table ≡ N.table }
        ensures sizes { IfOk result (λ started. started.0.sizes ≡ self.sizes) }
        ensures cpus { IfOk result (λ started.
            parts_of started.1.items ≡ first_cpus 1 self.sizes.cpus) }
        ensures count { IfOk result (λ started. length started.1.items ≡ N.table.cpus) }
    {
        let (locked, tables, cpus) = self.into_parts(alloc)?;
        Ok((System::of(locked, tables), cpus))
    }
}

// What first lies behind the lock: the machine, the sizes, and room for the CPUs' seats at the end. The machine is made
// last, so that no path drops one.
fn new_locked<N: BootName>(
    alloc: Global,
    sizes: Config,
    tables: &Tables<N>,
    zone: PastSeat,
) -> Result<Locked<N>, AllocError>
    requires valid { IsValidConfig sizes }
    requires sized { IsSizedAs sizes N.table }
    requires zone { zone ≡ seat_at_first N.table.table 0 }
    ensures machine { IfOk result (λ locked. IsFirst N.table locked.machine) }
    ensures sizes { IfOk result (λ locked. locked.sizes ≡ sizes) }
    ensures past { IfOk result (λ locked. locked.machine.run.past ≡ zone) }
{
    let seats = Vec::with_capacity(alloc, sizes.cpus as usize)?;
    let machine = Machine::<N>::new(alloc, tables, zone)?;
    Ok(Locked {
        machine,
        sizes,
        seats,
    })
}

// A part for each CPU, from its seat.
fn make_cpus<N: BootName>(
    alloc: Global,
    cpus: u32,
    mut seats: Vec<CpuSeat>,
) -> Result<Vec<Cpu<N>>, AllocError>
    requires seats { seats.items ≡ cpus_at_first N.table.table 1 cpus }
    requires away { AllOf (IsAwayCpu N.table) seats.items }
    ensures parts { IfOk result (λ made. parts_of made.items ≡ first_cpus 1 cpus) }
    ensures pasts { IfOk result (λ made. pasts_of made.items ≡ first_pasts 1 cpus) }
{
    let mut made = Vec::with_capacity(alloc, cpus as usize)?;
    for _dealt in 0..cpus {
        match Cpu::<N>::new(alloc, seats.remove(0)) {
            Ok(cpu) => made.push_reserved(cpu),
            Err(error) => {
                take_apart(made);
                return Err(error);
            }
        }
    }
    Ok(made)
}

// Takes apart parts of CPUs that have done nothing, because a part can't be dropped.
fn take_apart<N: BootName>(mut cpus: Vec<Cpu<N>>)
    requires { All IsIdle (parts_of cpus.items) }
{
    while let Some(cpu) = cpus.pop() {
        let _ = cpu.into_seat();
    }
    cpus.destroy_empty();
}
