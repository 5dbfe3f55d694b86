//! What a group and those below it keep.

ghost use Rattle.std.specs.Prelude.{◌≡◌, ◌<◌, ◌≤◌, ◌^◌, IsTrue};
ghost use Rattle.group_tree.specs.Groups.{has_group};
ghost use Rattle.group_charge.specs.Charges.{current_of};
ghost use Rattle.control_files.specs.Stat.{file_pages};
ghost use Rattle.machine_texts.specs.Stat.{counted_pages, is_counted, memory_stat, pages_below, pages_on, pages_shared};
ghost use Rattle.machine_texts.specs.Stat.{pages_at};

use control_files::stat::MemoryStat;
use cpu_part::BootName;
use group_tree::group::GroupId;
use lru_lists::record::{Entry, LruList};
use mem_machine::{FrameState, Machine, prove_charges};

/// What memory.stat shows of a group: what it and those below it keep. The units are counted anew, list by list, since
/// nothing else needs these sums.
pub fn memory_stat<N: BootName>(machine: &Machine<N>, group: GroupId) -> MemoryStat
    requires { IsTrue (has_group machine.now.ledger.groups group) }
    ensures shown { result ≡ memory_stat machine.now group }
    ensures charged { file_pages result ≤ current_of machine.now.ledger group }
{
    let inactive = pages_below(machine, group, LruList::Inactive, false);
    let active = pages_below(machine, group, LruList::Active, false);
    let inactive_dirty = pages_below(machine, group, LruList::Inactive, true);
    let active_dirty = pages_below(machine, group, LruList::Active, true);
    machine.prove_consistent();
    machine.prove_usage(group); // Below 2^32, and no less than what is kept.
    prove_charges(machine.charges());
    MemoryStat {
        inactive: inactive as u32,
        active: active as u32,
        dirty: (inactive_dirty + active_dirty) as u32,
    }
}

// The pages on this list of the group and of each group below it: all, or those of dirty units.
fn pages_below<N: BootName>(
    machine: &Machine<N>,
    group: GroupId,
    list: LruList,
    only_dirty: bool,
) -> u64
    requires { IsTrue (has_group machine.now.ledger.groups group) }
    ensures pages { result ≡ pages_below machine.now list only_dirty group }
    ensures few { result < 2 ^ 53 }
{
    let mut pages = 0;
    for row in machine.charges().tree().groups() {
        pages += pages_shared(machine, group, row.number, list, only_dirty);
    }
    pages
}

// The pages on this list of the other group, if that is the group or below it.
fn pages_shared<N: BootName>(
    machine: &Machine<N>,
    group: GroupId,
    other: GroupId,
    list: LruList,
    only_dirty: bool,
) -> u64
    requires group { IsTrue (has_group machine.now.ledger.groups group) }
    requires other { IsTrue (has_group machine.now.ledger.groups other) }
    ensures pages { result ≡ pages_shared machine.now list only_dirty group other }
    ensures few { result < 2 ^ 42 }
{
    if machine.charges().tree().in_subtree(group, other) {
        pages_on(machine, other, list, only_dirty)
    } else {
        0
    }
}

// The pages on this list of the group itself.
fn pages_on<N: BootName>(
    machine: &Machine<N>,
    group: GroupId,
    list: LruList,
    only_dirty: bool,
) -> u64
    ensures pages { result ≡ pages_on machine.now list only_dirty group }
    ensures few { result < 2 ^ 42 }
{
    let _units = machine.list_len(group, list); // Fewer than 2^32, so no sum overflows.
    machine.prove_consistent();
    machine
        .entries(group, list)
        .map(|entry| counted_pages(machine, &entry, only_dirty))
        .sum()
}

// The pages of a unit, if it is counted.
fn counted_pages<N: BootName>(machine: &Machine<N>, entry: &Entry, only_dirty: bool) -> u64
    ensures pages { result ≡ counted_pages machine.now only_dirty entry.now }
    ensures few { result ≤ 1024 }
{
    if is_counted(entry, only_dirty) {
        pages_at(machine, entry.number)
    } else {
        0
    }
}

// Whether a unit is counted: each is, or only a dirty one.
fn is_counted(entry: &Entry, only_dirty: bool) -> bool
    ensures { result ≡ is_counted only_dirty entry.now }
{
    entry.is_dirty || !only_dirty
}

// The pages of the unit that the frame heads.
fn pages_at<N: BootName>(machine: &Machine<N>, head: u32) -> u64
    ensures pages { result ≡ pages_at machine.now head }
    ensures few { result ≤ 1024 }
{
    let frame_states = machine.frame_states();
    let head = head as usize;
    if head >= frame_states.len() {
        return 0;
    }
    match frame_states[head] {
        FrameState::Head(unit) => u64::from(unit.order.frames()),
        _ => 0,
    }
}
