//! The passes over the groups of a subtree, by ascending number.

ghost use Rattle.std.specs.Prelude.{◌≡◌, ◌<◌, ◌+◌, ◌≢◌, ◌&&◌, true, false, None, nat_lt, option_map, IfSome, IsTrue};
ghost use Rattle.group_tree.specs.Groups.{has_group, in_subtree, room_of};
ghost use Rattle.group_charge.specs.Charges.{current_of};
ghost use Rattle.group_charge.specs.declared.note.Note.TheVariants.{Spared};
ghost use Rattle.boot_words.specs.Pasts.{IsHeld};
ghost use Rattle.mem_machine.specs.Clean.{clean_pages};
ghost use Rattle.mem_reclaim.specs.Moves.{FreesBySteps};
ghost use Rattle.mem_reclaim.specs.Passes.{PassesGroup, ReclaimsGroup, TakesTurn, is_first};
ghost use Rattle.mem_reclaim.specs.Passes.{keeps_no_unit, is_last, subtree_of};
ghost use Rattle.mem_reclaim.specs.Shares.{TakesItsShare, part_of, shares_by};
ghost use Rattle.mem_reclaim.specs.Passes.{notes_spared, spared_by, third_pass, turn_want, with_detail_if};
ghost use Rattle.mem_reclaim.specs.Staying.{Keeps, MissedAll, MissedOfGroup, MissedOrKept, OnlyLeave};
ghost use Rattle.mem_reclaim.specs.Staying.{UsageFalls};
ghost use Rattle.mem_reclaim.specs.Wanted.{WhileWanted};

use crate::scan::scan;
use cpu_part::{BootName, Tables};
use group_charge::note::Note;
use group_protection::protecting::{Protection, protection_of};
use group_protection::reclaim_shares::Shares;
use group_tree::group::GroupId;
use lru_lists::record::LruList;
use mem_machine::{Machine, is_in_subtree, prove_charges};
use step_rules::step::NoteKey;

/// A pass over the groups of a subtree.
#[derive(Clone, Copy, Debug, PartialEq, Eq)]
pub enum Pass {
    /// It ages lists. It spares marked units, and what memory.min or memory.low protects.
    First,
    /// It tries all clean units, and spares what memory.min or memory.low protects.
    Second,
    /// It tries all clean units, and spares only what memory.min protects.
    Third,
}

/// How much of its usage the pass spares a group that is protected so.
pub(crate) fn spared_by(pass: Pass, protection: Protection) -> u32
    ensures { result ≡ spared_by pass protection.min protection.low }
{
    match pass {
        Pass::First | Pass::Second => protection.min.max(protection.low),
        Pass::Third => protection.min,
    }
}

// How many pages a turn wants of a group of whose usage the pass spares this much.
fn turn_want(want: u64, usage: u32, spared: u32) -> u64
    ensures { result ≡ turn_want want usage spared }
{
    if spared == 0 {
        return want;
    }
    want.min(u64::from(usage.saturating_sub(spared)))
}

// The first pass over a group: its lists are aged, and then its inactive units are scanned; marked ones are spared.
fn age_and_scan<N: BootName>(
    machine: &mut Machine<N>,
    tables: &Tables<N>,
    group: GroupId,
    want: u64,
) -> u64
    requires there { IsTrue (has_group machine.old.ledger.groups group) }
    requires held { IsHeld N.table machine.old.run.past }
    ensures passes { FreesBySteps N.table result machine.old machine.new (PassesGroup true group want) }
    ensures keeps { Keeps N.table machine.old machine.new }
    ensures usage { UsageFalls group result machine.old machine.new }
    ensures few { result < want + 1024 }
{
    machine.age(group);
    scan(machine, tables, group, LruList::Inactive, want, true)
}

// The second pass over a group: its inactive and then its active units are scanned, and marks don't count.
fn scan_both<N: BootName>(
    machine: &mut Machine<N>,
    tables: &Tables<N>,
    group: GroupId,
    want: u64,
) -> u64
    requires there { IsTrue (has_group machine.old.ledger.groups group) }
    requires wanted { 0 < want }
    requires held { IsHeld N.table machine.old.run.past }
    ensures passes { FreesBySteps N.table result machine.old machine.new (PassesGroup false group want) }
    ensures keeps { Keeps N.table machine.old machine.new }
    ensures usage { UsageFalls group result machine.old machine.new }
    ensures few { result < want + 1024 }
    ensures leaves { OnlyLeave machine.old machine.new }
    ensures missed { result < want → MissedOfGroup group machine.old machine.new }
{
    machine.prove_usage(group); // At most this many pages are freed.
    let inactive = scan(machine, tables, group, LruList::Inactive, want, false);
    if want <= inactive {
        return inactive;
    }
    let active = scan(
        machine,
        tables,
        group,
        LruList::Active,
        want - inactive,
        false,
    );
    inactive + active
}

// Whether an event `low` is due to a turn of the third pass that freed this many pages.
fn is_low_event(protection: Protection, freed: u64) -> bool
    ensures { result ≡ (nat_lt protection.min protection.low && nat_lt 0 freed) }
{
    protection.min < protection.low && freed > 0
}

// The third pass over a group is as the second. If it took what memory.low alone may protect, an event `low` is noted,
// and what was protected when the turn began.
fn scan_and_note<N: BootName>(
    machine: &mut Machine<N>,
    tables: &Tables<N>,
    group: GroupId,
    want: u64,
    usage: u32,
    protection: Protection,
) -> u64
    requires there { IsTrue (has_group machine.old.ledger.groups group) }
    requires wanted { 0 < want }
    requires held { IsHeld N.table machine.old.run.past }
    ensures passes { FreesBySteps N.table result machine.old machine.new
        (ReclaimsGroup third_pass protection.min protection.low usage group want) }
    ensures keeps { Keeps N.table machine.old machine.new }
    ensures usage { UsageFalls group result machine.old machine.new }
    ensures few { result < want + 1024 }
    ensures leaves { OnlyLeave machine.old machine.new }
    ensures missed { result < want → MissedOfGroup group machine.old machine.new }
{
    let freed = scan_both(machine, tables, group, want);
    if is_low_event(protection, freed) {
        machine.note_event(tables, NoteKey::Low, group);
        let Protection { min, low } = protection;
        machine.note_detail(Note::Low {
            group,
            usage,
            min,
            low,
        });
    }
    freed
}

// What the pass does with a group.
fn reclaim_group<N: BootName>(
    machine: &mut Machine<N>,
    tables: &Tables<N>,
    group: GroupId,
    want: u64,
    pass: Pass,
    usage: u32,
    protection: Protection,
) -> u64
    requires there { IsTrue (has_group machine.old.ledger.groups group) }
    requires wanted { 0 < want }
    requires held { IsHeld N.table machine.old.run.past }
    ensures passes { FreesBySteps N.table result machine.old machine.new
        (ReclaimsGroup pass protection.min protection.low usage group want) }
    ensures keeps { Keeps N.table machine.old machine.new }
    ensures usage { UsageFalls group result machine.old machine.new }
    ensures few { result < want + 1024 }
    ensures leaves { is_first pass ≡ false → OnlyLeave machine.old machine.new }
    ensures missed { is_first pass ≡ false → result < want → MissedOfGroup group machine.old machine.new }
{
    match pass {
        Pass::First => age_and_scan(machine, tables, group, want),
        Pass::Second => scan_both(machine, tables, group, want),
        Pass::Third => scan_and_note(machine, tables, group, want, usage, protection),
    }
}

// Whether this is the first pass, which wants fewer pages of a group than are wanted, and fewer than its clean ones.
fn notes_spared(pass: Pass, clean: u64, want: u64, wanted: u64) -> bool
    ensures { result ≡ notes_spared pass clean want wanted }
{
    wanted < want && wanted < clean && matches!(pass, Pass::First)
}

// Notes what protects the group, if the pass notes that.
fn note_spared<N: BootName>(
    machine: &mut Machine<N>,
    group: GroupId,
    want: u64,
    wanted: u64,
    pass: Pass,
    usage: u32,
    protection: Protection,
)
    ensures { machine.new ≡ with_detail_if (notes_spared pass (clean_pages machine.old group) want wanted) machine.old
        (Spared group usage protection.min protection.low) }
{
    if notes_spared(pass, machine.clean_pages(group), want, wanted) {
        let Protection { min, low } = protection;
        machine.note_detail(Note::Spared {
            group,
            usage,
            min,
            low,
        });
    }
}

// Whether the group keeps no unit.
fn keeps_no_unit<N: BootName>(machine: &Machine<N>, group: GroupId) -> bool
    ensures { result ≡ keeps_no_unit machine.now group }
{
    machine.list_len(group, LruList::Inactive) == 0 && machine.list_len(group, LruList::Active) == 0
}

// The turn of a group in a pass. A group that keeps no unit has nothing to give, whatever protects it. Otherwise what
// protects the group is found now, since earlier turns changed what its parents use.
fn take_turn<N: BootName>(
    machine: &mut Machine<N>,
    tables: &Tables<N>,
    target: GroupId,
    group: GroupId,
    want: u64,
    pass: Pass,
) -> u64
    requires there { IsTrue (has_group machine.old.ledger.groups group) }
    requires inside { in_subtree machine.old.ledger.groups target group ≡ true }
    requires held { IsHeld N.table machine.old.run.past }
    ensures turn { FreesBySteps N.table result machine.old machine.new (TakesTurn pass target group want) }
    ensures keeps { Keeps N.table machine.old machine.new }
    ensures usage { UsageFalls group result machine.old machine.new }
    ensures few { result < want + 1024 }
    ensures leaves { is_first pass ≡ false → OnlyLeave machine.old machine.new }
    ensures tried { is_last pass machine.old.ledger.settings ≡ true → result < want
        → MissedOrKept target group machine.old machine.new }
{
    machine.prove_consistent();
    let charges = machine.charges();
    prove_charges(charges);
    if keeps_no_unit(machine, group) {
        return 0;
    }
    let protection = protection_of(charges, target, group);
    let usage = charges.current(group);
    let wanted = turn_want(want, usage, spared_by(pass, protection));
    note_spared(machine, group, want, wanted, pass, usage, protection);
    if wanted == 0 {
        return 0;
    }
    reclaim_group(machine, tables, group, wanted, pass, usage, protection)
}

// How many pages a turn of the group wants: all that are wanted, but no more than its share if there are shares.
fn part_of(shares: Option<&Shares>, group: GroupId, want: u64) -> u64
    requires { IfSome shares (λ s. group < s.now.room) }
    ensures { result ≡ part_of (option_map (λ s. shares_by s.now) shares.entry) group want }
{
    match shares {
        Some(shares) => shares.share(group).min(want),
        None => want,
    }
}

/// One pass over the groups of the subtree of `target`, by ascending number, as long as pages are wanted. If there are
/// shares, no turn wants more than that of its group. Returns how many pages were freed.
pub(crate) fn reclaim_pass<N: BootName>(
    machine: &mut Machine<N>,
    tables: &Tables<N>,
    target: GroupId,
    want: u64,
    pass: Pass,
    shares: Option<&Shares>,
) -> u64
    requires there { IsTrue (has_group machine.old.ledger.groups target) }
    requires held { IsHeld N.table machine.old.run.past }
    requires shares { shares ≢ None → is_first pass ≡ true }
    requires room { IfSome shares (λ s. s.now.room ≡ room_of machine.old.ledger.groups) }
    ensures passes { FreesBySteps N.table result machine.old machine.new
        (WhileWanted (TakesItsShare (option_map (λ s. shares_by s.now) shares.entry) pass target)
        (subtree_of machine.old.ledger.groups target) want) }
    ensures keeps { Keeps N.table machine.old machine.new }
    ensures usage { current_of machine.new.ledger target + result ≡ current_of machine.old.ledger target }
    ensures few { result < want + 1024 }
    ensures tried { is_last pass machine.old.ledger.settings ≡ true → result < want
        → MissedAll target machine.old machine.new }
{
    prove_charges(machine.charges());
    machine.prove_usage(target); // At most this many pages are freed.
    let mut freed = 0;
    for number in 0..machine.room() {
        if want <= freed {
            return freed;
        }
        let Some(turn) = GroupId::of(number) else {
            unreachable!()
        };
        if !is_in_subtree(machine.charges().tree(), target, turn) {
            continue;
        }
        let part = part_of(shares, turn, want - freed);
        freed += take_turn(machine, tables, target, turn, part, pass);
    }
    freed
}
