//! Which group is killed if a limit can't be kept otherwise. Modelled on the choice of Linux's out-of-memory killer
//! (cgroup-v2.rst, memory.max and memory.events), with a group as one killable unit.

ghost use Rattle.std.specs.Prelude.{◌≡◌, IsTrue, length};
ghost use Rattle.group_tree.specs.Groups.{has_group};
ghost use Rattle.mem_reclaim.specs.Victim.{IsMost, IsNext, IsVictim, candidates, is_candidate, is_excluded};
ghost use Rattle.mem_reclaim.specs.Victim.{may_be_chosen, may_be_killed};
ghost use Rattle.mem_reclaim.specs.Sets.{alive_in_subtree};

use cpu_part::BootName;
use group_tree::group::GroupId;
use mem_machine::{Machine, is_in_subtree, prove_charges};

/// Whether the other group is the group or a descendant of it, and isn't killed.
pub(crate) fn may_be_killed<N: BootName>(
    machine: &Machine<N>,
    group: GroupId,
    other: GroupId,
) -> bool
    requires { IsTrue (has_group machine.now.ledger.groups group) }
    ensures { result ≡ may_be_killed machine.now group other }
{
    is_in_subtree(machine.charges().tree(), group, other) && !machine.is_killed(other)
}

// Whether the group is this one, if there is one.
fn is_excluded(excluded: &Option<GroupId>, other: GroupId) -> bool
    ensures { result ≡ is_excluded excluded.now other }
{
    match excluded {
        Some(group) => group.number() == other.number(),
        None => false,
    }
}

// Whether the other group may be killed for the group, and isn't `excluded`.
fn may_be_chosen<N: BootName>(
    machine: &Machine<N>,
    group: GroupId,
    excluded: &Option<GroupId>,
    other: GroupId,
) -> bool
    requires { IsTrue (has_group machine.now.ledger.groups group) }
    ensures { result ≡ may_be_chosen machine.now group excluded.now other }
{
    !is_excluded(excluded, other) && may_be_killed(machine, group, other)
}

// The group with the most frames charged to itself, and the least number among equals, of those that may be killed for
// a group and aren't `excluded`. None if none of them has a frame.
fn most_charged<N: BootName>(
    machine: &Machine<N>,
    group: GroupId,
    excluded: &Option<GroupId>,
) -> Option<GroupId>
    requires { IsTrue (has_group machine.now.ledger.groups group) }
    ensures { IsMost machine.now (may_be_chosen machine.now group excluded.now) result }
{
    prove_charges(machine.charges());
    let mut best = None;
    let mut most = 0;
    for number in 0..machine.room() {
        let Some(turn) = GroupId::of(number) else {
            unreachable!()
        };
        if !may_be_chosen(machine, group, excluded, turn) {
            continue;
        }
        let frames = machine.frames_of(turn);
        if frames > most {
            best = Some(turn);
            most = frames;
        }
    }
    best
}

/// The victim for a group: of the groups of its subtree that aren't killed, the one with the most frames charged to
/// itself, and the least number among equals. None if none of them has a frame. Frames that are fresh at a CPU don't
/// count.
pub fn victim<N: BootName>(machine: &Machine<N>, group: GroupId) -> Option<GroupId>
    requires { IsTrue (has_group machine.now.ledger.groups group) }
    ensures { IsVictim machine.now group result }
{
    most_charged(machine, group, &None)
}

/// The group that would be the victim without this one, or this one again if there would be none.
pub(crate) fn next_after<N: BootName>(
    machine: &Machine<N>,
    group: GroupId,
    victim: GroupId,
) -> GroupId
    requires { IsTrue (has_group machine.now.ledger.groups group) }
    ensures { IsNext machine.now group victim result }
{
    match most_charged(machine, group, &Some(victim)) {
        Some(next) => next,
        None => victim,
    }
}

// Whether the other group may be killed for the group, and has frames of its own.
fn is_candidate<N: BootName>(machine: &Machine<N>, group: GroupId, other: GroupId) -> bool
    requires { IsTrue (has_group machine.now.ledger.groups group) }
    ensures { result ≡ is_candidate machine.now group other }
{
    may_be_killed(machine, group, other) && machine.frames_of(other) >= 1
}

/// How many groups may be killed for a group and have frames of their own.
pub(crate) fn count_candidates<N: BootName>(machine: &Machine<N>, group: GroupId) -> u32
    requires { IsTrue (has_group machine.now.ledger.groups group) }
    ensures { result ≡ candidates machine.now group }
{
    let mut count = 0;
    for number in 0..machine.room() {
        let Some(turn) = GroupId::of(number) else {
            unreachable!()
        };
        if is_candidate(machine, group, turn) {
            count += 1;
        }
    }
    count
}

/// How many groups of the group's subtree aren't killed.
pub(crate) fn count_alive<N: BootName>(machine: &Machine<N>, group: GroupId) -> u32
    requires { IsTrue (has_group machine.now.ledger.groups group) }
    ensures { result ≡ length (alive_in_subtree machine.now group) }
{
    let mut count = 0;
    for number in 0..machine.room() {
        let Some(turn) = GroupId::of(number) else {
            unreachable!()
        };
        if may_be_killed(machine, group, turn) {
            count += 1;
        }
    }
    count
}
