//! What is counted when a system ends.

ghost use Rattle.std.specs.Prelude.{ℕ};
ghost use Rattle.mem_machine.specs.Places.{NoneLentTo};
ghost use Rattle.mem_system.specs.Ends.{IsAuditOf};

use cpu_part::{BootName, Tables};
use mem_machine::Machine;

/// What was counted when a system ended. A count of units stays at 2^64 - 1.
#[derive(Clone, Copy, Debug, PartialEq, Eq)]
pub struct Audit {
    /// The frames of the zone, 1 to 1,048,576.
    pub frames: u32,
    /// The frames that are free.
    pub free: u32,
    /// The frames that are charged to a group. Each frame is free or charged.
    pub charged: u32,
    /// The units whose last reference the zone or a CPU put.
    pub last_puts: u64,
    /// The units that a freeze took out of use.
    pub freezes: u64,
    /// The fresh frames that were dropped: those of killed groups, and those that CPUs put back on their own lists.
    pub drops: u64,
    /// The units that were freed, each after a last put, a freeze or a drop.
    pub returns: u64,
}

// The audit of a machine that lends no frame, so all frames that aren't charged are free. `drops` are the CPUs' own.
pub(crate) fn take_audit<N: BootName>(machine: &Machine<N>, tables: &Tables<N>, drops: u64) -> Audit
    ensures { ((cpu : ℕ) → NoneLentTo cpu machine.now.frame_states) → IsAuditOf N.table machine.now drops result }
{
    machine.prove_consistent();
    let frames = tables.words.frames();
    let charged = machine.count_charged(tables);
    let counts = machine.counts();
    Audit {
        frames,
        free: frames - charged,
        charged,
        last_puts: counts.last_puts,
        freezes: counts.freezes,
        drops: counts.killed_fresh.saturating_add(drops),
        returns: counts.returns.saturating_add(drops),
    }
}
