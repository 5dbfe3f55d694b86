//! The end of a zone, once no thread has a CPU.

ghost use Rattle.std.specs.Prelude.{◌≢◌, IfNone, IfSome, length};
ghost use Rattle.mem_system.specs.EndsWithPins.{PutsAndEnds};

use crate::behind::Behind;
use cpu_part::{BootName, Tables};
use host_memory::try_cell::Loan;
use mem_system::{SystemEnd, put_and_end};
use std::alloc::Global;
use std::mem::ManuallyDrop;

/// How a zone ended, with what shows what lay behind its lock until then.
pub struct ZoneEnd<N: BootName> {
    pub ended: SystemEnd,
    pub found: Loan<Box<Behind<N>, Global>>,
}

// A loan can't be dropped.
impl<N: BootName> Drop for ZoneEnd<N> {
    fn drop(self) {
        let ZoneEnd { ended: _, found } = self;
        leave(found);
    }
}

/// Ends a zone by its parts, once no thread has a CPU. Pins that are still held are put first. `None` if the part of a CPU
/// isn't there, which no call leaves so: the parts stay in memory then.
pub fn end_parts<N: BootName>(tables: Tables<N>, behind: Behind<N>) -> Option<SystemEnd>
    ensures ended { IfSome result (PutsAndEnds N.table behind.locked behind.parked) }
    ensures lost { IfNone result (length behind.parked ≢ N.table.cpus) }
{
    let Behind { locked, parked } = behind;
    if parked.len() != tables.words.cpus() as usize {
        leave(parked);
        return None;
    }
    Some(put_and_end(locked, tables, parked))
}

// Leaves in memory what can't be dropped, such as a part or a loan.
pub(crate) fn leave<T>(left: T) {
    let _left = unsafe { ManuallyDrop::new_unchecked(left) };
}
