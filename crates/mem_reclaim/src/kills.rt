//! Kills: a group loses all it has, if nothing else made room.

ghost use Rattle.std.specs.Prelude.{◌≡◌, ◌≢◌, ◌<◌, All, IfSome, IsTrue, None, [], ◌∷◌, false, slice_set, true};
ghost use Rattle.group_tree.specs.Groups.{has_group};
ghost use Rattle.lru_lists.specs.declared.record.LruList.{LruList};
ghost use Rattle.mem_machine.specs.{is_killed, entries_in, AreOwnDrained};
ghost use Rattle.boot_words.specs.Pasts.{IsHeld};
ghost use Rattle.mem_reclaim.specs.Victim.{IsVictim};
ghost use Rattle.mem_reclaim.specs.Sets.{alive_in_subtree, kill_set};
ghost use Rattle.mem_reclaim.specs.Killing.{HasNoKeptUnit, KeepsStocks, KillsGroupBySteps, KillsGroups};
ghost use Rattle.mem_reclaim.specs.Killing.{KillsGroupNoted, KillsGroupsBySteps, KillsSubtree, KillsVictim};
ghost use Rattle.mem_reclaim.specs.Killing.{OnlyDrains, OnlyReleases, ReleasesUnitsBySteps, victim_of, with_all_killed};

use crate::noting::{count_before_kill, note_killed, note_subtree, note_victim};
use crate::sets::{Killed, highest_flagged};
use crate::victims::{may_be_killed, victim};
use cpu_part::{BootName, Tables};
use group_tree::group::GroupId;
use lru_lists::record::LruList;
use mem_machine::Machine;

// Releases all units on one of a group's lists, the oldest first.
fn release_units<N: BootName>(
    machine: &mut Machine<N>,
    tables: &Tables<N>,
    group: GroupId,
    list: LruList,
)
    requires held { IsHeld N.table machine.old.run.past }
    ensures releases { ReleasesUnitsBySteps N.table (entries_in machine.old group list) machine.old machine.new }
    ensures empty { entries_in machine.new group list ≡ [] }
    ensures keeps { OnlyReleases N.table machine.old machine.new }
    ensures stocks { KeepsStocks N.table machine.old machine.new }
{
    for _unit in 0..machine.list_len(group, list) {
        machine.prove_consistent();
        let Some(unit) = machine.oldest(group, list) else {
            unreachable!()
        };
        let Some(frame) = tables.words.frame(unit.number) else {
            unreachable!()
        };
        machine.put_zone_reference(tables, frame);
    }
}

// Kills a group that isn't killed.
fn kill_group<N: BootName>(machine: &mut Machine<N>, tables: &Tables<N>, group: GroupId)
    requires there { IsTrue (has_group machine.old.ledger.groups group) }
    requires alive { is_killed machine.old.killed group ≡ false }
    requires held { IsHeld N.table machine.old.run.past }
    ensures kills { KillsGroupBySteps N.table group machine.old machine.new }
    ensures marked { machine.new.killed ≡ slice_set machine.old.killed group true }
    ensures drained { AreOwnDrained N.table group machine.new }
    ensures stocks { OnlyDrains N.table machine.old machine.new }
    ensures none_kept { HasNoKeptUnit group machine.new }
    ensures keeps { OnlyReleases N.table machine.old machine.new }
{
    machine.mark_killed(tables, group);
    machine.drain_group_stocks(tables, group);
    release_units(machine, tables, group, LruList::Inactive);
    machine.prove_consistent();
    release_units(machine, tables, group, LruList::Active);
    machine.prove_consistent();
}

// Kills a group that isn't killed for the group `limited`, and notes what became of its units.
fn kill_noted<N: BootName>(
    machine: &mut Machine<N>,
    tables: &Tables<N>,
    limited: GroupId,
    group: GroupId,
)
    requires limited { IsTrue (has_group machine.old.ledger.groups limited) }
    requires there { IsTrue (has_group machine.old.ledger.groups group) }
    requires alive { is_killed machine.old.killed group ≡ false }
    requires held { IsHeld N.table machine.old.run.past }
    ensures kills { KillsGroupsBySteps N.table (group ∷ []) (KillsGroupNoted N.table limited group) machine.old
        machine.new }
    ensures marked { machine.new.killed ≡ slice_set machine.old.killed group true }
    ensures drained { AreOwnDrained N.table group machine.new }
    ensures stocks { OnlyDrains N.table machine.old machine.new }
    ensures none_kept { HasNoKeptUnit group machine.new }
    ensures keeps { OnlyReleases N.table machine.old machine.new }
{
    let had = count_before_kill(machine, group);
    kill_group(machine, tables, group);
    note_killed(machine, limited, group, had);
}

// Kills the groups of this subtree that aren't killed, by ascending number, for the group `limited`.
fn kill_below<N: BootName>(
    machine: &mut Machine<N>,
    tables: &Tables<N>,
    limited: GroupId,
    killed_root: GroupId,
)
    requires limited { IsTrue (has_group machine.old.ledger.groups limited) }
    requires killed_root { IsTrue (has_group machine.old.ledger.groups killed_root) }
    requires held { IsHeld N.table machine.old.run.past }
    ensures kills { KillsGroupsBySteps N.table (alive_in_subtree machine.old killed_root)
        (KillsGroups N.table limited (alive_in_subtree machine.old killed_root)) machine.old machine.new }
    ensures marked { machine.new.killed ≡ with_all_killed machine.old.killed
        (alive_in_subtree machine.old killed_root) }
    ensures drained { All (λ group. AreOwnDrained N.table group machine.new)
        (alive_in_subtree machine.old killed_root) }
    ensures stocks { OnlyDrains N.table machine.old machine.new }
    ensures none_kept { All (λ group. HasNoKeptUnit group machine.new) (alive_in_subtree machine.old killed_root) }
    ensures keeps { OnlyReleases N.table machine.old machine.new }
{
    for number in 0..machine.room() {
        let Some(turn) = GroupId::of(number) else {
            unreachable!()
        };
        if may_be_killed(machine, killed_root, turn) {
            kill_noted(machine, tables, limited, turn);
        }
    }
}

// Kills a flagged group with its whole subtree, for the group `limited`.
fn kill_subtree<N: BootName>(
    machine: &mut Machine<N>,
    tables: &Tables<N>,
    limited: GroupId,
    killed_root: GroupId,
)
    requires limited { IsTrue (has_group machine.old.ledger.groups limited) }
    requires killed_root { IsTrue (has_group machine.old.ledger.groups killed_root) }
    requires below_root { killed_root ≢ 0 }
    requires held { IsHeld N.table machine.old.run.past }
    ensures kills { KillsGroupsBySteps N.table (alive_in_subtree machine.old killed_root)
        (KillsSubtree N.table limited killed_root) machine.old machine.new }
    ensures marked { machine.new.killed ≡ with_all_killed machine.old.killed
        (alive_in_subtree machine.old killed_root) }
    ensures drained { All (λ group. AreOwnDrained N.table group machine.new)
        (alive_in_subtree machine.old killed_root) }
    ensures stocks { OnlyDrains N.table machine.old machine.new }
    ensures none_kept { All (λ group. HasNoKeptUnit group machine.new) (alive_in_subtree machine.old killed_root) }
    ensures keeps { OnlyReleases N.table machine.old machine.new }
{
    note_subtree(machine, killed_root);
    kill_below(machine, tables, limited, killed_root);
    machine.note_group_kill(tables, killed_root);
}

/// Kills the victim of a group, and reports what was killed; None if there is no victim, and then nothing has changed.
/// If memory.oom.group is on in a group from the victim up to this group, both included, then each group of the subtree
/// of the highest such group is killed, by ascending number. Otherwise the victim is killed alone.
///
/// Nothing can be charged to a killed group until it is removed. It has no stock and keeps no unit: units without a pin
/// are freed and uncharged, dirty ones included, and the others stay charged until their last put is settled. Events
/// (memory.events) are `oom_kill` at each group that is killed, and one `oom_group_kill` at the killed root. Notes say
/// why this is the victim, how many groups die by a flag, and what became of each group's units.
pub fn kill<N: BootName>(
    machine: &mut Machine<N>,
    tables: &Tables<N>,
    group: GroupId,
) -> Option<Killed>
    requires there { IsTrue (has_group machine.old.ledger.groups group) }
    requires held { IsHeld N.table machine.old.run.past }
    ensures victim { IsVictim machine.old group (victim_of result) }
    ensures kills { KillsVictim N.table group result machine.old machine.new }
    ensures marked { IfSome result (λ killed.
        machine.new.killed ≡ with_all_killed machine.old.killed (kill_set machine.old killed)) }
    ensures drained { IfSome result (λ killed.
        All (λ g. AreOwnDrained N.table g machine.new) (kill_set machine.old killed)) }
    ensures stocks { OnlyDrains N.table machine.old machine.new }
    ensures none_kept { IfSome result (λ killed. All (λ g. HasNoKeptUnit g machine.new) (kill_set machine.old killed)) }
    ensures keeps { OnlyReleases N.table machine.old machine.new }
{
    let victim = victim(machine, group)?;
    note_victim(machine, group, victim);
    let tree = machine.charges().tree();
    match highest_flagged(tree, group, victim) {
        Some(killed_root) => {
            kill_subtree(machine, tables, group, killed_root);
            Some(Killed {
                victim,
                killed_root,
            })
        }
        None => {
            kill_noted(machine, tables, group, victim);
            Some(Killed {
                victim,
                killed_root: victim,
            })
        }
    }
}
