//! Scanning the units of one list, one after the other.

ghost use Rattle.std.specs.Prelude.{◌≡◌, ◌<◌, ◌+◌, false, IsTrue};
ghost use Rattle.group_tree.specs.Groups.{has_group};
ghost use Rattle.lru_lists.specs.declared.record.LruList.TheVariants.{Inactive};
ghost use Rattle.boot_words.specs.Pasts.{IsHeld};
ghost use Rattle.mem_reclaim.specs.Moves.{FreesBySteps};
ghost use Rattle.mem_reclaim.specs.Units.{ScansList};
ghost use Rattle.mem_reclaim.specs.Staying.{Keeps, MissedOnList, OnlyLeave, UsageFalls};

use crate::try_reclaim::try_reclaim;
use cpu_part::{BootName, Tables};
use group_tree::group::GroupId;
use lru_lists::record::LruList;
use mem_machine::Machine;

/// Handles the units on one of a group's lists, the oldest first, as long as pages are wanted. Returns how many pages
/// were freed. A unit that moves to the newest end of the list meanwhile isn't handled twice.
pub(crate) fn scan<N: BootName>(
    machine: &mut Machine<N>,
    tables: &Tables<N>,
    group: GroupId,
    list: LruList,
    want: u64,
    spares_marked: bool,
) -> u64
    requires there { IsTrue (has_group machine.old.ledger.groups group) }
    requires inactive { IsTrue spares_marked → list ≡ Inactive }
    requires held { IsHeld N.table machine.old.run.past }
    ensures scans { FreesBySteps N.table result machine.old machine.new (ScansList spares_marked group list want) }
    ensures keeps { Keeps N.table machine.old machine.new }
    ensures usage { UsageFalls group result machine.old machine.new }
    ensures few { result < want + 1024 }
    ensures leaves { spares_marked ≡ false → OnlyLeave machine.old machine.new }
    ensures missed { spares_marked ≡ false → result < want → MissedOnList group list machine.old machine.new }
{
    machine.prove_consistent();
    machine.prove_usage(group); // At most this much is freed, so no sum overflows.
    let units = machine.list_len(group, list);
    let mut next = machine.oldest(group, list);
    let mut freed = 0;
    for _met in 0..units {
        if want <= freed {
            return freed;
        }
        machine.prove_consistent();
        let Some(unit) = next else { unreachable!() };
        let Some(frame) = tables.words.frame(unit.number) else {
            unreachable!()
        };
        next = machine.newer(group, list, frame);
        freed += u64::from(try_reclaim(machine, tables, group, list, unit, frame, spares_marked));
    }
    freed
}
