//! Allocating units that are dirty from the first.

ghost use Rattle.std.specs.Prelude.{IsTrue};
ghost use Rattle.group_tree.specs.Groups.{has_group};
ghost use Rattle.mem_system.specs.Commands.{IsSettled};
ghost use Rattle.mem_system.specs.DirtyAllocs.{ServesDirtyAlloc, ServesDirtyAt};
ghost use Rattle.mem_system.specs.Visits.{EndsVisit, IsVisited, locked_state};

use crate::command::LockedCommand;
use crate::cpus::Cpu;
use crate::lock::Locked;
use crate::outcome::Outcome;
use crate::system::System;
use crate::visits::{serve_outcome, serve_settle};
use cpu_part::{BootName, Tables};
use group_tree::fault::Fault;
use group_tree::group::GroupId;
use std::sync::Wait;

/// Serves an Alloc of this order for the group, as `serve_outcome` does, and then a Dirty of the unit that it gave. So no
/// other CPU's reclaim comes between the two: if the outcome is a frame, the unit that begins there is kept and dirty,
/// whatever its order. A refusal is that of the Alloc. Earlier notes are forgotten, also those of the Alloc.
pub fn serve_dirty_alloc<N: BootName>(
    locked: &mut Locked<N>,
    tables: &Tables<N>,
    cpu: &mut Cpu<N>,
    group: GroupId,
    order: u32,
) -> Outcome
    requires { IsTrue (has_group locked.old.machine.ledger.groups group) }
    ensures served { ServesDirtyAlloc N.table group order result (locked_state locked.old cpu.old)
        (locked_state locked.new cpu.new) }
    ensures settled { IsSettled cpu.new.part }
    ensures ends { EndsVisit N.table (locked_state locked.old cpu.old) (locked_state locked.new cpu.new) }
{
    let outcome = serve_outcome(locked, tables, cpu, &LockedCommand::Alloc { group, order });
    let Outcome::Frame(frame) = outcome else {
        return outcome;
    };
    locked.prove_quiet();
    let _done = serve_outcome(locked, tables, cpu, &LockedCommand::Dirty { frame });
    outcome
}

// Allocates a dirty unit for the group of the path as `serve_dirty_alloc` does. If no group has the path, that is refused,
// and the CPU is settled all the same.
fn serve_dirty_at<N: BootName>(
    locked: &mut Locked<N>,
    tables: &Tables<N>,
    cpu: &mut Cpu<N>,
    path: &[u8],
    order: u32,
) -> Outcome
    ensures served { ServesDirtyAt N.table path.now order result (locked_state locked.old cpu.old)
        (locked_state locked.new cpu.new) }
    ensures settled { IsSettled cpu.new.part }
{
    match locked.find(path) {
        Some(group) => serve_dirty_alloc(locked, tables, cpu, group, order),
        None => {
            serve_settle(locked, tables, cpu);
            Outcome::Refused(Fault::NoGroup)
        }
    }
}

impl<N: BootName> System<N> {
    /// Allocates a dirty unit for the group of the path as `serve_dirty_alloc` does, in one hold of the lock. If no group
    /// has the path, that is refused, and the CPU is settled all the same. As with `visit`, the contract says that some
    /// sound value was behind the lock, and that a sound value was left.
    pub fn alloc_dirty<R: Wait>(&self, rt: &R, cpu: &mut Cpu<N>, path: &[u8], order: u32) -> Outcome
        ensures served { IsVisited N.table self.now.sizes (ServesDirtyAt N.table path.now order result)
            cpu.old cpu.new }
        ensures settled { IsSettled cpu.new.part }
    {
        let mut guard = self.lock(rt);
        let locked = &mut *guard;
        locked.prove_quiet();
        let outcome = serve_dirty_at(locked, &self.tables, cpu, path, order);
        locked.prove_quiet();
        outcome
    }
}
