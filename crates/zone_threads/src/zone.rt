//! What all threads share: the tables, and what lies behind a lock that is only tried. The cell of the lock is private, so
//! only this module and those in it can take the lock.

pub mod entries;
mod visits;

ghost use Rattle.std.specs.Prelude.{◌≡◌, IfOk, IfSome};
ghost use Rattle.mem_system.specs.Boots.{IsSizedAs};
ghost use Rattle.zone_threads.specs.Homes.{EndsParked, IsTaken};
ghost use Rattle.zone_blocks.specs.Config.{IsValidConfig};

use crate::behind::Behind;
use crate::zone_end::{ZoneEnd, end_parts, leave};
use cpu_part::{BootName, Tables};
use host_memory::try_cell::{Loan, TryCell};
use mem_system::{Boot, SystemEnd};
use std::alloc::{AllocError, Global};
use zone_blocks::config::Config;

/// What all threads share.
pub struct Zone<N: BootName> {
    pub(crate) tables: Tables<N>,
    lock: TryCell<Box<Behind<N>, Global>>,
    // No clause can look through the lock: those of calls speak of these sizes.
    pub(crate) sizes: Config,
    ghost valid: { IsValidConfig sizes },
    ghost sized: { IsSizedAs sizes N.table },
}

impl<N: BootName> Zone<N> {
    /// Starts a boot, with all CPUs parked. `AllocError` means that memory ran out: nothing is left then.
    pub fn start(alloc: Global, boot: Boot) -> Result<Zone<N>, AllocError>
        requires frames { boot.table ≡ N.table }
        ensures { IfOk result (λ zone. zone.sizes ≡ boot.sizes) }
    {
        let (locked, tables, parked) = boot.into_parts::<N>(alloc)?;
        let sizes = locked.sizes();
        let behind = match Box::new(alloc, Behind { locked, parked }) {
            Ok(behind) => behind,
            Err(failed) => {
                let _ended = end_parts(tables, failed.value);
                return Err(AllocError);
            }
        };
        match TryCell::new(alloc, behind) {
            Ok(lock) => Ok(Zone {
                tables,
                lock,
                sizes,
            }),
            Err(behind) => {
                let _ended = end_parts(tables, Box::into_inner(behind));
                Err(AllocError)
            }
        }
    }

    // Tries the lock. What is taken is what lay behind it, with the sizes of the zone, which it has already.
    #[inline(always)]
    fn take(&self) -> Option<(Box<Behind<N>, Global>, Loan<Box<Behind<N>, Global>>)>
        ensures fits { IfSome result (λ taken. taken.1.table_id ≡ self.now.lock.table.shared.table_id) }
        ensures sizes { IfSome result (λ taken. taken.0.value.locked.sizes ≡ self.now.sizes) }
        ensures found { IfSome result (λ taken. IsTaken self.now.sizes taken.1.found taken.0) }
    {
        let (mut behind, loan) = self.lock.take()?;
        behind.locked.set_sizes(self.sizes);
        Some((behind, loan))
    }

    /// Ends the zone. Pins that are still held are put first. `None` if the part of a CPU isn't there, which no call
    /// leaves so: the parts stay in memory then.
    pub fn end(self) -> Option<ZoneEnd<N>>
        ensures { IfSome result (λ end. EndsParked N.table end.found end.ended) }
    {
        let Zone {
            tables,
            lock,
            sizes: _,
        } = self;
        let taken = lock.take();
        leave(lock.into_inner());
        let (behind, found) = taken?;
        let Some(ended) = end_parts(tables, Box::into_inner(behind)) else {
            leave(found);
            return None;
        };
        Some(ZoneEnd { ended, found })
    }
}

impl<N: BootName> Drop for Zone<N> {
    fn drop(self) {
        let _ended = self.end();
    }
}
