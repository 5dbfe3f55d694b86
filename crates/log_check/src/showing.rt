//! Why a condition isn't met.

ghost use Rattle.std.specs.Prelude.{◌≡◌, false, is_none};
ghost use Rattle.group_tree.specs.Groups.{make_fault};
ghost use Rattle.step_rules.specs.Legal.{is_passable, no_frame_passes, no_page_pends, nothing_passes, takes_fill};
ghost use Rattle.mem_core.specs.{state_in, FitsZone, IsBelowBounds, is_met, quantity_in};
ghost use Rattle.log_check.specs.Reasons.{ShowsUnmet};
ghost use Rattle.mem_core.specs.declared.conditions.Condition.TheVariants as kinds;
ghost use Rattle.mem_core.specs.declared.conditions.PlaceTest.TheVariants.{Passable, Returnable};
ghost use Rattle.log_check.specs.declared.reason.Reason.{Reason};

use crate::reason::Reason;
use group_tree::group::{GroupId, MAX_GROUPS};
use group_tree::path::PathText;
use mem_core::conditions::{Condition, PlaceTest};
use mem_core::meeting::quantity;
use mem_core::phases::{is_listed_at, is_passing, passes_back, passes_out};
use mem_core::quantity::Quantity;
use mem_core::rows::Rows;
use step_rules::phase::{Phase, Stage};

/// Why a condition isn't met.
pub(crate) fn show(rows: &Rows, condition: &Condition<'_>) -> Reason
    requires fits { FitsZone rows.now }
    requires bounded { IsBelowBounds (state_in rows.now) }
    requires unmet { is_met (state_in rows.now) condition.now ≡ false }
    ensures { ShowsUnmet (state_in rows.now) condition.now result }
{
    match *condition {
        Condition::Cpu(seat) => Reason::NoCpu(seat),
        Condition::ZoneSeat(seat) => Reason::NoZoneSeat(seat),
        Condition::AnySeat(seat) => show_seat(rows, seat),
        Condition::Locked => Reason::Lock(rows.hold),
        Condition::Unlocked => Reason::Lock(rows.hold),
        Condition::HeldBy(_) => Reason::Lock(rows.hold),
        Condition::Visited(_) => Reason::Lock(rows.hold),
        Condition::Frame(frame) => Reason::NoFrame(frame),
        Condition::Group(group) => Reason::NoGroup(group),
        Condition::NonePending => show_pending(rows),
        Condition::NonePassing => show_passing(rows),
        Condition::NonePassingAt(cpu) => show_passing_at(rows, cpu),
        Condition::AtLeast(what, _) => number(rows, &what),
        Condition::Below(what, _) => number(rows, &what),
        Condition::IsZero(what) => number(rows, &what),
        Condition::OneUp(_) => Reason::BadCount,
        Condition::UpTo255(_) => Reason::BadCount,
        Condition::InPlace(frame, test) => show_place(rows, frame, test),
        Condition::TakesFill(cpu, group) => show_stock(rows, cpu, group),
        Condition::NotKilled(group) => Reason::Killed(group),
        Condition::NotRoot(_) => Reason::Root,
        Condition::NoChild(group) => Reason::Child(group),
        Condition::Makeable(ref path) => show_refusal(rows, path.text),
    }
}

/// The number in the state.
pub(crate) fn number(rows: &Rows, what: &Quantity) -> Reason
    requires fits { FitsZone rows.now }
    requires bounded { IsBelowBounds (state_in rows.now) }
    ensures { result ≡ Reason.Number what.now (quantity_in (state_in rows.now) what.now) }
{
    let count = quantity(rows, what);
    Reason::Number { what: *what, count }
}

/// What a frame is.
pub(crate) fn place(rows: &Rows, frame: u32) -> Reason
    ensures { result ≡ Reason.Place frame ((state_in rows.now).phases frame) }
{
    Reason::Place {
        frame,
        phase: rows.phase(frame),
    }
}

fn show_seat(rows: &Rows, seat: u32) -> Reason
    ensures { ShowsUnmet (state_in rows.now) (kinds.AnySeat seat) result }
{
    if seat == 0 {
        Reason::Lock(rows.hold)
    } else {
        Reason::NoCpu(seat)
    }
}

// The least group for which pages are pending.
#[tactic(auto, using(mem_core::proofs::Adding::all_is, mem_core::proofs::Adding::all_not))]
fn show_pending(rows: &Rows) -> Reason
    requires fits { FitsZone rows.now }
    requires unmet { no_page_pends (state_in rows.now) ≡ false }
    ensures { ShowsUnmet (state_in rows.now) kinds.NonePending result }
{
    for index in 0..MAX_GROUPS as u32 {
        let group = GroupId::of(index).unwrap();
        let count = rows.pending(group);
        if count != 0 {
            return Reason::Number {
                what: Quantity::Pending(group),
                count,
            };
        }
    }
    unreachable!()
}

// The least frame in transit.
#[tactic(auto, using(mem_core::proofs::Adding::all_is, mem_core::proofs::Adding::all_not))]
fn show_passing(rows: &Rows) -> Reason
    requires unmet { no_frame_passes (state_in rows.now) ≡ false }
    ensures { ShowsUnmet (state_in rows.now) kinds.NonePassing result }
{
    for frame in 0..rows.frames {
        if is_passing(rows.phase(frame)) {
            return place(rows, frame);
        }
    }
    unreachable!()
}

// The least frame in transit to or from the CPU.
#[tactic(auto, using(mem_core::proofs::Adding::all_is, mem_core::proofs::Adding::all_not))]
fn show_passing_at(rows: &Rows, cpu: u32) -> Reason
    requires unmet { nothing_passes (state_in rows.now) cpu ≡ false }
    ensures { ShowsUnmet (state_in rows.now) (kinds.NonePassingAt cpu) result }
{
    for frame in 0..rows.frames {
        if passes_out(rows.phase(frame), cpu) || passes_back(rows.phase(frame), cpu) {
            return place(rows, frame);
        }
    }
    unreachable!()
}

// What a frame is that isn't in this place.
fn show_place(rows: &Rows, frame: u32, test: PlaceTest) -> Reason
    requires unmet { is_met (state_in rows.now) (kinds.InPlace frame test) ≡ false }
    ensures { ShowsUnmet (state_in rows.now) (kinds.InPlace frame test) result }
{
    match test {
        PlaceTest::Passable(cpu) => show_passable(rows, frame, cpu),
        PlaceTest::Returnable => show_unit(rows, frame),
        _ => place(rows, frame),
    }
}

// What a frame is that can't be passed back.
fn show_passable(rows: &Rows, frame: u32, cpu: u32) -> Reason
    requires unmet { is_passable (state_in rows.now) cpu frame ≡ false }
    ensures { ShowsUnmet (state_in rows.now) (kinds.InPlace frame (Passable cpu)) result }
{
    if is_listed_at(rows.phase(frame), cpu) {
        Reason::NotFirst { frame, cpu }
    } else {
        place(rows, frame)
    }
}

// What a frame is that can't be returned.
fn show_unit(rows: &Rows, frame: u32) -> Reason
    requires unmet { is_met (state_in rows.now) (kinds.InPlace frame Returnable) ≡ false }
    ensures { ShowsUnmet (state_in rows.now) (kinds.InPlace frame Returnable) result }
{
    match rows.phase(frame) {
        Phase::Head {
            unit,
            stage: Stage::Collected,
        } => Reason::Unkilled {
            frame,
            group: unit.group,
        },
        _ => place(rows, frame),
    }
}

// What a stock is that can't be filled.
fn show_stock(rows: &Rows, cpu: u32, group: GroupId) -> Reason
    requires unmet { takes_fill ((state_in rows.now).parts cpu) group ≡ false }
    ensures { ShowsUnmet (state_in rows.now) (kinds.TakesFill cpu group) result }
{
    let count = rows.stock_pages(cpu);
    if count == 0 {
        Reason::Book {
            cpu,
            group: rows.stock_group(cpu),
        }
    } else {
        Reason::Number {
            what: Quantity::InStock(cpu),
            count,
        }
    }
}

// Why the tree refuses to make a group of this path.
fn show_refusal(rows: &Rows, path: &PathText) -> Reason
    requires unmet { is_none (make_fault (state_in rows.now).groups path.now) ≡ false }
    ensures { ShowsUnmet (state_in rows.now) (kinds.Makeable path.now) result }
{
    Reason::Refused(rows.tree.make_fault(path.as_bytes()).unwrap())
}
