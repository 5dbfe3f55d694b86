//! Which conditions a state meets.

ghost use Rattle.std.specs.Prelude.{◌≡◌};
ghost use Rattle.group_tree.specs.Groups.{has_child};
ghost use Rattle.mem_core.specs.Rows.{state_in};
ghost use Rattle.mem_core.specs.Rooms.{FitsZone, IsBelowBounds};
ghost use Rattle.mem_core.specs.Conditions.{is_in_place, is_met, quantity_in};

use crate::conditions::{Condition, PlaceTest};
use crate::holds::{is_held_by, is_unheld, may_zone_act, visits};
use crate::legal::{is_passable, is_returnable, takes_fill};
use crate::phases::{is_free, is_fresh_at, is_head, is_head_in_hand, passes_back, passes_out};
use crate::quantity::Quantity;
use crate::rows::Rows;
use group_tree::group::GroupId;

/// The number in the state.
pub fn quantity(rows: &Rows, what: &Quantity) -> u128
    requires fits { FitsZone rows.now }
    requires bounded { IsBelowBounds (state_in rows.now) }
    ensures { result ≡ quantity_in (state_in rows.now) what.now }
{
    match *what {
        Quantity::Own { seat, frame } => u128::from(rows.references(seat, frame)),
        Quantity::References(frame) => u128::from(rows.live_references(frame)),
        Quantity::Pins(cpu) => u128::from(rows.pin_count(cpu)) + rows.back_len(cpu) as u128,
        Quantity::Listed(cpu) => rows.list_len(cpu) as u128,
        Quantity::Fresh(cpu) => rows.fresh_len(cpu) as u128,
        Quantity::Unreported(cpu) => rows.unreported(cpu),
        Quantity::Reported(cpu) => rows.reported(cpu),
        Quantity::InStock(cpu) => rows.stock_pages(cpu),
        Quantity::Pending(group) => rows.pending(group),
        Quantity::Usage(group) => rows.usage(group),
    }
}

/// Whether the condition is met.
#[inline(always)]
pub fn is_met(rows: &Rows, condition: &Condition<'_>) -> bool
    requires fits { FitsZone rows.now }
    requires bounded { IsBelowBounds (state_in rows.now) }
    ensures { result ≡ is_met (state_in rows.now) condition.now }
{
    match *condition {
        Condition::Cpu(seat) => rows.is_cpu(seat),
        Condition::ZoneSeat(seat) => seat == 0,
        Condition::AnySeat(seat) => rows.is_cpu(seat) || may_zone_act(rows.hold, seat),
        Condition::Locked => !is_unheld(rows.hold),
        Condition::Unlocked => is_unheld(rows.hold),
        Condition::HeldBy(cpu) => is_held_by(rows.hold, cpu),
        Condition::Visited(cpu) => visits(rows.hold, cpu),
        Condition::Frame(frame) => rows.is_frame(frame),
        Condition::Group(group) => rows.tree.contains(group),
        Condition::NonePending => rows.no_page_pends(),
        Condition::NonePassing => rows.no_frame_passes(),
        Condition::NonePassingAt(cpu) => rows.nothing_passes(cpu),
        Condition::AtLeast(what, least) => u128::from(least) <= quantity(rows, &what),
        Condition::Below(what, bound) => quantity(rows, &what) < u128::from(bound),
        Condition::IsZero(what) => quantity(rows, &what) == 0,
        Condition::OneUp(count) => 1 <= count,
        Condition::UpTo255(count) => count <= 255,
        Condition::InPlace(frame, test) => is_in_place(rows, frame, test),
        Condition::TakesFill(cpu, group) => takes_fill(rows, cpu, group),
        Condition::NotKilled(group) => !rows.is_killed(group),
        Condition::NotRoot(group) => group.number() != 0,
        Condition::NoChild(group) => !has_child(rows, group),
        Condition::Makeable(ref path) => rows.tree.make_fault(path.text.as_bytes()).is_none(),
    }
}

// Whether a group is below this one.
#[tactic(auto, using(crate::proofs::Childless::childless))]
fn has_child(rows: &Rows, group: GroupId) -> bool
    ensures { result ≡ has_child rows.now.tree group }
{
    if !rows.tree.contains(group) {
        return false;
    }
    rows.tree.has_child(group)
}

// Whether the frame is in this place.
fn is_in_place(rows: &Rows, frame: u32, test: PlaceTest) -> bool
    ensures { result ≡ is_in_place (state_in rows.now) frame test }
{
    let phase = rows.phase(frame);
    match test {
        PlaceTest::Free => is_free(phase),
        PlaceTest::OutTo(cpu) => passes_out(phase, cpu),
        PlaceTest::Passable(cpu) => is_passable(rows, cpu, frame),
        PlaceTest::BackFrom(cpu) => passes_back(phase, cpu),
        PlaceTest::FreshAt(cpu) => is_fresh_at(phase, cpu),
        PlaceTest::InHand => is_head_in_hand(phase),
        PlaceTest::Head => is_head(phase),
        PlaceTest::Returnable => is_returnable(rows, frame),
    }
}
