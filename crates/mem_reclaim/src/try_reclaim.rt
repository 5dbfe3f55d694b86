//! What is done with one unit of a list.

ghost use Rattle.std.specs.Prelude.{◌≡◌, ◌<◌, ◌≤◌, ◌&&◌, Some, IsTrue};
ghost use Rattle.lru_lists.specs.declared.record.LruList.TheVariants.{Inactive};
ghost use Rattle.lru_lists.specs.Lists.{entry_of};
ghost use Rattle.mem_machine.specs.Machines.{home_of};
ghost use Rattle.boot_words.specs.Pasts.{IsHeld};
ghost use Rattle.mem_reclaim.specs.Moves.{FreesBySteps};
ghost use Rattle.mem_reclaim.specs.Units.{TriesReclaim};
ghost use Rattle.mem_reclaim.specs.Staying.{Keeps, UsageFalls};

use cpu_part::{BootName, Tables};
use frame_word::Frame;
use group_tree::group::GroupId;
use lru_lists::record::{Entry, LruList};
use mem_machine::Machine;

// Whether the unit is spared: it is marked, and marks count.
fn is_spared(unit: Entry, spares_marked: bool) -> bool
    ensures { result ≡ (spares_marked && unit.is_marked) }
{
    spares_marked && unit.is_marked
}

/// Handles one unit of a group's list: a dirty unit is left alone, a marked one is renewed if marks count, and any
/// other is tried. Returns how many pages were freed.
pub(crate) fn try_reclaim<N: BootName>(
    machine: &mut Machine<N>,
    tables: &Tables<N>,
    group: GroupId,
    list: LruList,
    unit: Entry,
    frame: Frame,
    spares_marked: bool,
) -> u32
    requires frame { frame < N.table.frames }
    requires unit { unit ≡ entry_of machine.old.links frame }
    requires home { home_of machine.old.links frame ≡ Some (record { owner = group; list = list }) }
    requires inactive { IsTrue spares_marked → list ≡ Inactive }
    requires held { IsHeld N.table machine.old.run.past }
    ensures attempts { FreesBySteps N.table result machine.old machine.new (TriesReclaim spares_marked group unit 1) }
    ensures keeps { Keeps N.table machine.old machine.new }
    ensures usage { UsageFalls group result machine.old machine.new }
    ensures few { result ≤ 1024 }
{
    if unit.is_dirty {
        return 0;
    }
    if is_spared(unit, spares_marked) {
        machine.renew(group, frame);
        return 0;
    }
    machine.prove_consistent();
    machine.evict(tables, frame).unwrap_or(0)
}
