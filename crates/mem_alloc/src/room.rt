//! What is done if a limit has no room for a charge.

ghost use Rattle.std.specs.Prelude.{◌≡◌, ◌<◌, IsTrue};
ghost use Rattle.group_tree.specs.{most_groups, has_group};
ghost use Rattle.boot_words.specs.Pasts.{IsHeld};
ghost use Rattle.mem_machine.specs.{Makes, StaysVisited, BySteps};
ghost use Rattle.mem_alloc.specs.Room.{IsRoomAnswer, ReclaimsFor, RelievesLimit, with_limit_noted};

use crate::faults::AllocFault;
use crate::kills::{has_room_at, kill_for_charge};
use cpu_part::{BootName, Tables};
use group_charge::note::Note;
use group_tree::group::GroupId;
use mem_machine::{Machine, prove_number};
use mem_reclaim::reclaim_in_batches;
use step_rules::step::NoteKey;

// Reclaims in rounds from the subtree of the group, until its limit has room for this many pages. Each round wants at
// least as many pages as the boot chose (`reclaim_batch`).
fn reclaim_for<N: BootName>(
    machine: &mut Machine<N>,
    tables: &Tables<N>,
    limited: GroupId,
    pages: u32,
)
    requires there { IsTrue (has_group machine.old.ledger.groups limited) }
    requires held { IsHeld N.table machine.old.run.past }
    ensures reclaims { BySteps Makes N.table (ReclaimsFor limited pages) machine.old machine.new }
    ensures visit { StaysVisited N.table machine.old machine.new }
{
    if let Some(limit) = machine.charges().max(limited) {
        let batch = tables.words.choices().reclaim_batch;
        reclaim_in_batches(machine, tables, limited, pages, limit, batch);
    }
}

/// Notes that the limit of the group, if it has one, has no room for `need` more pages; 0 if a limit was written below
/// the usage. Only readers of a command's notes see it; nothing else changes.
pub fn note_limit<N: BootName>(machine: &mut Machine<N>, group: GroupId, need: u32)
    requires { IsTrue (has_group machine.old.ledger.groups group) }
    ensures { machine.new ≡ with_limit_noted machine.old group need }
{
    if let Some(max) = machine.charges().max(group) {
        let usage = machine.current(group);
        machine.note(Note::Limit {
            group,
            max,
            usage,
            need,
        });
    }
}

// Relieves the limit of `limited`, the lowest on the path of `requester` without room for this many pages. It does
// this in order, until there is room:
// 1. The refusal is noted (`max`), and the stocks of the subtree are drained.
// 2. Clean units of the subtree are reclaimed, in at most 16 rounds that each want at least `reclaim_batch` pages.
// 3. For a charge of up to 8 pages (an order of at most 3), `oom` is noted, and victims of the subtree are killed. All
//    groups that die with a victim are killed before the next look at the limit. If the boot chose that no group is
//    killed, nothing of this is done.
//
// - `RequesterKilled`: the requester was killed, as a victim or with one.
// - `Over`: there is still no room, and no victim is left, the charge is of more than 8 pages, or no group is killed.
//
// All that was done stays.
pub(crate) fn make_room<N: BootName>(
    machine: &mut Machine<N>,
    tables: &Tables<N>,
    requester: GroupId,
    limited: GroupId,
    pages: u32,
) -> Result<(), AllocFault>
    requires there { IsTrue (has_group machine.old.ledger.groups limited) }
    requires held { IsHeld N.table machine.old.run.past }
    ensures relieves { BySteps Makes N.table (RelievesLimit requester limited pages) machine.old machine.new }
    ensures visit { StaysVisited N.table machine.old machine.new }
    ensures room { IsRoomAnswer requester limited pages result machine.new }
    ensures below { limited < most_groups }
{
    prove_number(limited);
    note_limit(machine, limited, pages);
    machine.note_event(tables, NoteKey::Max, limited);
    machine.drain_stocks(tables, limited);
    reclaim_for(machine, tables, limited, pages);
    kill_for_charge(machine, tables, requester, limited, pages);
    if machine.is_killed(requester) {
        return Err(AllocFault::RequesterKilled);
    }
    if has_room_at(machine.charges(), limited, pages) {
        Ok(())
    } else {
        Err(AllocFault::Over(limited))
    }
}
