//! Kills: the last thing to do if a limit has no room and reclaim made none.

ghost use Rattle.std.specs.Prelude.{◌≡◌, ◌↔◌, IsTrue, None};
ghost use Rattle.group_tree.specs.Groups.{has_group};
ghost use Rattle.boot_words.specs.Pasts.{IsHeld};
ghost use Rattle.mem_alloc.specs.Kills.{KillsForRoom, KillsIfAllowed, NeedsRoom, has_room_at};
ghost use Rattle.mem_alloc.specs.Room.{KillsForFewPages};
ghost use Rattle.mem_machine.specs.{Makes, StaysVisited, BySteps};

use cpu_part::{BootName, Tables};
use group_charge::charges::Charges;
use group_charge::note::Note;
use group_tree::group::GroupId;
use mem_machine::{Machine, prove_charges};
use mem_reclaim::kill;
use step_rules::step::NoteKey;

// The most pages for which groups are killed: those of an order of 3. Linux kills nobody for more either
// (`PAGE_ALLOC_COSTLY_ORDER`).
const MAX_KILLED_FOR: u32 = 8;

// Whether the limit of the group has room for this many more pages.
pub(crate) fn has_room_at(charges: &Charges, group: GroupId, pages: u32) -> bool
    requires { IsTrue (has_group charges.now.groups group) }
    ensures { result ≡ has_room_at charges.now group pages }
{
    match charges.max(group) {
        None => true,
        Some(limit) => u64::from(charges.current(group)) + u64::from(pages) <= u64::from(limit),
    }
}

// Whether a victim of the group is to be killed: its limit has no room for this many more pages, and the group that
// asks for them, if any, isn't killed.
fn needs_room<N: BootName>(
    machine: &Machine<N>,
    requester: &Option<GroupId>,
    limited: GroupId,
    pages: u32,
) -> bool
    requires { IsTrue (has_group machine.now.ledger.groups limited) }
    ensures { IsTrue result ↔ NeedsRoom requester.now limited pages machine.now }
{
    match requester {
        Some(asking) if machine.is_killed(*asking) => false,
        _ => !has_room_at(machine.charges(), limited, pages),
    }
}

// Kills for a limit. If the limit of `limited` has no room for this many more pages, that is noted once as `oom` at
// it. Then victims of it are killed, one after the other, until it has room, the group that asks for the pages is
// killed, or no victim is left. All groups that die with a victim (memory.oom.group) are killed before the next look
// at the limit. If `requester` is None, no group asks, as when a limit is written: with 0 `pages` there is room if the
// usage is at most the limit. If there is room, nothing is done. Modelled on what Linux does at a limit that it can't
// keep otherwise (cgroup-v2.rst, memory.max, memory.oom.group and memory.events).
fn kill_for<N: BootName>(
    machine: &mut Machine<N>,
    tables: &Tables<N>,
    requester: Option<GroupId>,
    limited: GroupId,
    pages: u32,
)
    requires there { IsTrue (has_group machine.old.ledger.groups limited) }
    requires held { IsHeld N.table machine.old.run.past }
    ensures kills { BySteps Makes N.table (KillsForRoom requester limited pages) machine.old machine.new }
    ensures visit { StaysVisited N.table machine.old machine.new }
{
    if has_room_at(machine.charges(), limited, pages) {
        return;
    }
    machine.note_event(tables, NoteKey::Oom, limited);
    machine.note(Note::Oom { group: limited });
    'kills: loop {
        machine.prove_consistent();
        let charges = machine.charges();
        prove_charges(charges);
        if !needs_room(machine, &requester, limited, pages) {
            return;
        }
        let Some(_killed) = kill(machine, tables, limited) else {
            return;
        };
    }
}

// Kills for a limit as `kill_for` does, if `requester` asks for at most 8 pages; for more, nobody is killed.
fn kill_for_few_pages<N: BootName>(
    machine: &mut Machine<N>,
    tables: &Tables<N>,
    requester: GroupId,
    limited: GroupId,
    pages: u32,
)
    requires there { IsTrue (has_group machine.old.ledger.groups limited) }
    requires held { IsHeld N.table machine.old.run.past }
    ensures kills { BySteps Makes N.table (KillsForFewPages requester limited pages) machine.old machine.new }
    ensures visit { StaysVisited N.table machine.old machine.new }
{
    if pages <= MAX_KILLED_FOR {
        kill_for(machine, tables, Some(requester), limited, pages);
    }
}

// Whether the boot chose that no group is killed.
fn is_no_kill<N: BootName>(tables: &Tables<N>) -> bool
    ensures { result ≡ N.table.choices.is_no_kill }
{
    tables.words.choices().is_no_kill
}

// Kills for a limit as `kill_for_few_pages` does, unless the boot chose that no group is killed.
pub(crate) fn kill_for_charge<N: BootName>(
    machine: &mut Machine<N>,
    tables: &Tables<N>,
    requester: GroupId,
    limited: GroupId,
    pages: u32,
)
    requires there { IsTrue (has_group machine.old.ledger.groups limited) }
    requires held { IsHeld N.table machine.old.run.past }
    ensures kills { BySteps Makes N.table (KillsIfAllowed (KillsForFewPages requester limited pages))
        machine.old machine.new }
    ensures visit { StaysVisited N.table machine.old machine.new }
{
    if is_no_kill(tables) {
        return;
    }
    kill_for_few_pages(machine, tables, requester, limited, pages);
}

/// Kills for a limit that was written below the usage, as `kill_for` does if no group asks for pages, unless the boot
/// chose that no group is killed.
pub fn kill_for_limit<N: BootName>(machine: &mut Machine<N>, tables: &Tables<N>, limited: GroupId)
    requires there { IsTrue (has_group machine.old.ledger.groups limited) }
    requires held { IsHeld N.table machine.old.run.past }
    ensures kills { BySteps Makes N.table (KillsIfAllowed (KillsForRoom None limited 0)) machine.old machine.new }
    ensures visit { StaysVisited N.table machine.old machine.new }
{
    if is_no_kill(tables) {
        return;
    }
    kill_for(machine, tables, None, limited, 0);
}
