//! What is done for memory.high before a charge: units are reclaimed. It refuses no charge and kills nobody.

ghost use Rattle.std.specs.Prelude.{◌≡◌, ◌↔◌, IsTrue};
ghost use Rattle.group_tree.specs.Groups.{has_group};
ghost use Rattle.boot_words.specs.Pasts.{IsHeld};
ghost use Rattle.mem_machine.specs.{Makes, BySteps};
ghost use Rattle.mem_reclaim.specs.Staying.{Keeps};
ghost use Rattle.mem_alloc.specs.High.{KeepsToHigh, PathHasHighRoom, ReclaimsHigh, has_high_room, high_of};

use cpu_part::{BootName, Tables};
use group_charge::charges::Charges;
use group_charge::note::Note;
use group_tree::group::GroupId;
use mem_machine::Machine;
use mem_reclaim::reclaim_in_batches;
use step_rules::step::NoteKey;

// Whether memory.high of the group has room for this many more pages.
fn has_high_room(charges: &Charges, group: GroupId, pages: u32) -> bool
    requires { IsTrue (has_group charges.now.groups group) }
    ensures { result ≡ has_high_room charges.now group pages }
{
    match charges.settings(group).high {
        None => true,
        Some(high) => u64::from(charges.current(group)) + u64::from(pages) <= u64::from(high),
    }
}

/// Whether memory.high of the group and of each ancestor has room for this many more pages.
#[inline]
pub(crate) fn path_has_high_room(charges: &Charges, group: GroupId, pages: u32) -> bool
    requires { IsTrue (has_group charges.now.groups group) }
    ensures { IsTrue result ↔ PathHasHighRoom charges.now group pages }
{
    let tree = charges.tree();
    for above in tree.ancestors(group) {
        if !has_high_room(charges, above, pages) {
            return false;
        }
    }
    true
}

// If `need` more pages would take the group's usage over its memory.high, notes that, and reclaims from its subtree in
// rounds that each want at least as many pages as the boot chose (`reclaim_batch`).
fn keep_to_high<N: BootName>(
    machine: &mut Machine<N>,
    tables: &Tables<N>,
    group: GroupId,
    need: u32,
)
    requires there { IsTrue (has_group machine.old.ledger.groups group) }
    requires held { IsHeld N.table machine.old.run.past }
    ensures high { BySteps Makes N.table (KeepsToHigh (high_of machine.old.ledger group) group need)
        machine.old machine.new }
    ensures keeps { Keeps N.table machine.old machine.new }
{
    let Some(high) = machine.charges().settings(group).high else {
        return;
    };
    let usage = machine.current(group);
    if u64::from(usage) + u64::from(need) <= u64::from(high) {
        return;
    }
    machine.note(Note::High {
        group,
        high,
        usage,
        need,
    });
    machine.note_event(tables, NoteKey::High, group);
    let batch = tables.words.choices().reclaim_batch;
    reclaim_in_batches(machine, tables, group, need, high, batch);
}

// Does so for the group and then for each ancestor, up to the root. Not inline, so that a charge below each memory.high
// doesn't pay for it.
#[inline(never)]
fn keep_path_to_high<N: BootName>(
    machine: &mut Machine<N>,
    tables: &Tables<N>,
    group: GroupId,
    need: u32,
)
    requires there { IsTrue (has_group machine.old.ledger.groups group) }
    requires held { IsHeld N.table machine.old.run.past }
    ensures high { BySteps Makes N.table (ReclaimsHigh group need) machine.old machine.new }
    ensures keeps { Keeps N.table machine.old machine.new }
{
    let mut next = Some(group);
    while let Some(above) = next {
        let tree = machine.charges().tree();
        next = tree.parent(above);
        keep_to_high(machine, tables, above, need);
    }
}

/// Reclaims for the memory.high of the group and then of each ancestor, up to the root, before `need` pages are
/// charged. Linux does so after the charge (`reclaim_high`).
#[inline(always)]
pub(crate) fn reclaim_high<N: BootName>(
    machine: &mut Machine<N>,
    tables: &Tables<N>,
    group: GroupId,
    need: u32,
)
    requires there { IsTrue (has_group machine.old.ledger.groups group) }
    requires held { IsHeld N.table machine.old.run.past }
    ensures high { BySteps Makes N.table (ReclaimsHigh group need) machine.old machine.new }
    ensures keeps { Keeps N.table machine.old machine.new }
{
    let charges = machine.charges();
    let _tree = charges.tree(); // Called for its contract.
    if path_has_high_room(charges, group, need) {
        return;
    }
    keep_path_to_high(machine, tables, group, need);
}
