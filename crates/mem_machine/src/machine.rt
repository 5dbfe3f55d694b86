//! The machine: what it holds, how it is made, and how it is taken apart.

ghost use Rattle.std.specs.Prelude.{◌≡◌, IfOk};
ghost use Rattle.step_watch.specs.Watched.{watch_off};
ghost use Rattle.boot_words.specs.Opening.{seat_at_first};
ghost use Rattle.mem_machine.specs.Resting.{Rests};
ghost use Rattle.mem_machine.specs.Machines.{IsConsistent, IsFirst};

use crate::choices::is_proportional;
use crate::counts::Counts;
use crate::frame_state::FrameState;
use crate::owners::StockOwners;
use crate::proving::prove_sizes;
use crate::start::{Parts, new_parts};
use boot_words::PastSeat;
use cpu_part::{BootName, Tables};
use group_charge::charges::Charges;
use group_charge::notes::Notes;
use group_tree::group::GroupId;
use lru_lists::links::Links;
use lru_lists::lru::Lru;
use std::alloc::{AllocError, Global};
use std::marker::{Model, PhantomData};
use step_watch::Watch;
use zone_blocks::buddy::Buddy;

/// All that lies behind the zone's lock. `IsConsistent` says what always holds of its parts together.
#[derive(Drop)]
pub struct Machine<N: BootName> {
    // The free areas: the maximal blocks of the frames whose record is Free.
    pub(crate) zone: Buddy,
    // A record for each frame, by its number.
    pub(crate) frame_states: Vec<FrameState>,
    // The groups, with the pages charged to each: its frames, and the pages booked to its stocks.
    pub(crate) charges: Charges,
    // A link for each frame, by its number. Only the heads of kept units are linked into their groups' lists.
    pub(crate) links: Links,
    // The ends and lengths of the two lists of each group number, by the number. This table and the next three have an
    // entry for each group that the boot made room for.
    pub(crate) lists: Vec<Lru>,
    // How many clean pages are on the lists of each group, by its number. At most 2^32 frames may each head a unit of 1,024
    // pages, so no count overflows.
    pub(crate) clean: Vec<u64>,
    // By group number: the pages booked to the group's stocks, 0 to 2^32 - 1. What is booked to one CPU's stock exists
    // only in proofs, as a part of what the past left.
    pub(crate) sums: Vec<u32>,
    // Whether each group number is killed, by the number.
    pub(crate) killed: Vec<bool>,
    // Only calls of the machine change the group of a stock, so no look is needed to find it.
    pub(crate) owners: StockOwners,
    // How many units ended, were freed, or were missed since the boot.
    pub(crate) counts: Counts,
    // The notes since the last `forget_notes`: limits without room, what was tried there, which units were reclaimed,
    // and who was killed.
    pub(crate) notes: Notes,
    // Whether a reclaim begins with a pass of shares, which the boot chose then.
    pub(crate) is_proportional: bool,
    // The zone's past, which has that of the lock's holder too while the lock is held.
    pub(crate) past: PastSeat,
    // Takes each step of the zone's seat and of the CPU that holds the lock, right after the step.
    pub(crate) watch: Watch,
    // The boot whose words these are.
    pub(crate) of: PhantomData<N>,
}

impl<N: BootName> Model for Machine<N> {
    ghost use Rattle.mem_machine.specs.Machines.{KnownMachine};

    ghost Value = { KnownMachine };

    ghost use Rattle.mem_machine.specs.Kept.{machine_of, IsSoundMachine};

    ghost view = { machine_of };

    ghost invariant = { λ fields. IsSoundMachine N.table fields };
}

impl<N: BootName> Machine<N> {
    /// The machine of a new boot, from the zone's seat, by which no step was made yet. All frames are free, and only
    /// the root exists. The watch is off. This call reserves all memory that later calls need; it returns `AllocError`
    /// if memory runs out.
    pub fn new(alloc: Global, tables: &Tables<N>, past: PastSeat) -> Result<Machine<N>, AllocError>
        requires past { past ≡ seat_at_first N.table.table 0 }
        ensures first { IfOk result (λ machine. IsFirst N.table machine) }
        ensures off { IfOk result (λ machine. machine.run.watch ≡ watch_off) }
        ensures rests { IfOk result (λ machine. Rests N.table machine) }
    {
        prove_sizes(tables); // There are at most 64 CPUs.
        let groups = tables.words.choices().groups;
        let parts = match new_parts(alloc, tables.words.frames(), groups) {
            Ok(parts) => parts,
            Err(error) => {
                drop(past);
                return Err(error);
            }
        };
        Ok(Machine {
            zone: parts.zone,
            frame_states: parts.frame_states,
            charges: parts.charges,
            links: parts.links,
            lists: parts.lists,
            clean: parts.clean,
            sums: parts.sums,
            killed: parts.killed,
            owners: StockOwners::new(),
            counts: Counts {
                last_puts: 0,
                freezes: 0,
                killed_fresh: 0,
                returns: 0,
                misses: 0,
            },
            notes: parts.notes,
            is_proportional: is_proportional(tables),
            past,
            watch: Watch::off(),
            of: PhantomData,
        })
    }

    /// Takes the machine apart, so that the table can end: returns the zone's seat.
    pub fn into_past(self) -> PastSeat
        ensures past { result ≡ self.run.past }
        ensures consistent { IsConsistent N.table self }
    {
        let Machine {
            zone,
            frame_states,
            charges,
            links,
            lists,
            clean,
            sums,
            killed,
            owners,
            counts: _,
            notes,
            is_proportional: _,
            past,
            watch,
            of: _,
        } = self;
        // Calls, because a field that is let go here is dropped here, part by part, which is long to check.
        drop(Parts {
            zone,
            frame_states,
            charges,
            links,
            lists,
            clean,
            sums,
            killed,
            notes,
        });
        drop(owners);
        drop(watch);
        past
    }
}
