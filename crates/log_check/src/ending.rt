//! What a log leaves at its end.

ghost use Rattle.std.specs.Prelude.{◌≡◌, ◌≤◌, ◌<◌, ◌^◌};
ghost use Rattle.group_tree.specs.Bounds.{most_groups};
ghost use Rattle.step_rules.specs.State.{sum_to, one_if};
ghost use Rattle.mem_core.specs.{state_in, FitsZone, IsBelowBounds};
ghost use Rattle.log_check.specs.Ends.{IsEnd, holder_in, is_unreferenced};

use crate::verdict::LogEnd;
use group_tree::group::{GroupId, MAX_GROUPS};
use mem_core::phases::is_head;
use mem_core::rows::Rows;
use step_rules::phase::Hold;

/// What the state leaves.
pub(crate) fn end_of(rows: &Rows) -> LogEnd
    requires fits { FitsZone rows.now }
    requires bounded { IsBelowBounds (state_in rows.now) }
    ensures { IsEnd (state_in rows.now) result }
{
    LogEnd {
        units: units(rows),
        pending: pending(rows),
        holder: holder(rows.hold),
    }
}

// The CPU that holds the lock.
fn holder(hold: Hold) -> Option<u32>
    ensures { result ≡ holder_in hold }
{
    match hold {
        Hold::Unheld => None,
        Hold::HeldBy(cpu) => Some(cpu),
        Hold::Visiting(cpu) => Some(cpu),
    }
}

// Whether the frame heads a unit that has no reference.
fn is_unreferenced(rows: &Rows, frame: u32) -> bool
    requires fits { FitsZone rows.now }
    requires bounded { IsBelowBounds (state_in rows.now) }
    ensures { result ≡ is_unreferenced (state_in rows.now) frame }
{
    is_head(rows.phase(frame)) && rows.live_references(frame) == 0
}

// 1 if the frame heads a unit that has no reference, else 0.
fn unreferenced(rows: &Rows, frame: u32) -> u32
    requires fits { FitsZone rows.now }
    requires bounded { IsBelowBounds (state_in rows.now) }
    ensures one { result ≡ one_if (is_unreferenced (state_in rows.now) frame) }
    ensures few { result ≤ 1 }
{
    if is_unreferenced(rows, frame) { 1 } else { 0 }
}

// How many units have no reference.
#[tactic(auto, using(mem_core::proofs::Adding::sum_start, mem_core::proofs::Adding::sum_next))]
fn units(rows: &Rows) -> u32
    requires fits { FitsZone rows.now }
    requires bounded { IsBelowBounds (state_in rows.now) }
    ensures { result ≡ sum_to rows.now.frames (λ f. one_if (is_unreferenced (state_in rows.now) f)) }
{
    let mut sum = 0u32;
    for frame in 0..rows.frames {
        sum += unreferenced(rows, frame);
    }
    sum
}

// How many pages are pending, for all groups together.
#[tactic(auto, using(mem_core::proofs::Adding::sum_start, mem_core::proofs::Adding::sum_next))]
fn pending(rows: &Rows) -> u128
    requires bounded { IsBelowBounds (state_in rows.now) }
    ensures { result ≡ sum_to most_groups (state_in rows.now).pending }
{
    let mut sum = 0u128;
    for number in 0..MAX_GROUPS as u32 {
        sum += pending_for(rows, number);
    }
    sum
}

// How many pages are pending for the group of this number.
fn pending_for(rows: &Rows, number: u32) -> u128
    requires number { number < most_groups }
    requires bounded { IsBelowBounds (state_in rows.now) }
    ensures pages { result ≡ (state_in rows.now).pending number }
    ensures few { result ≤ 2 ^ 96 }
{
    rows.pending(GroupId::of(number).unwrap())
}
