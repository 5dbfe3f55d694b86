//! Which steps may be made, exactly by the table of the rules, and what several conditions share.

ghost use Rattle.std.specs.Prelude.{◌≡◌, ◌∷◌, [], is_none};
ghost use Rattle.step_rules.specs.{is_returnable, is_legal, is_passable, takes_fill};
ghost use Rattle.mem_core.specs.Conditions.{conditions_of, first_unmet, zone_conditions};
ghost use Rattle.mem_core.specs.Rows.{state_in};
ghost use Rattle.mem_core.specs.Rooms.{FitsZone, IsBelowBounds};

use crate::conditions::Condition::{
    AnySeat, AtLeast, Below, Cpu, Frame, Group, HeldBy, InPlace, IsZero, Locked, Makeable, NoChild,
    NonePassing, NonePassingAt, NonePending, NotKilled, NotRoot, OneUp, TakesFill, Unlocked,
    UpTo255, Visited, ZoneSeat,
};
use crate::conditions::PlaceTest::{
    BackFrom, Free, FreshAt, Head, InHand, OutTo, Passable, Returnable,
};
use crate::conditions::{Condition, NewPath};
use crate::holds::is_unheld;
use crate::meeting::is_met;
use crate::phases::{is_back_at, is_fresh_at, is_listed_at, is_stage_returnable};
use crate::quantity::Quantity::{Fresh, Listed, Own, Pending, Pins, Reported, Unreported, Usage};
use crate::rows::Rows;
use crate::sums::is_of_group;
use group_tree::group::GroupId;
use step_rules::phase::Phase;
use step_rules::step::{Action, Step};

/// The frame is the front of the CPU's list, a fresh frame there or a back frame there.
pub fn is_passable(rows: &Rows, cpu: u32, frame: u32) -> bool
    ensures { result ≡ is_passable (state_in rows.now) cpu frame }
{
    is_listed_at(rows.phase(frame), cpu) && rows.front(cpu) == frame
        || is_fresh_at(rows.phase(frame), cpu)
        || is_back_at(rows.phase(frame), cpu)
}

/// The stock has no page, and the book is 0 or the stock is of the group.
pub fn takes_fill(rows: &Rows, cpu: u32, group: GroupId) -> bool
    ensures { result ≡ takes_fill ((state_in rows.now).parts cpu) group }
{
    rows.stock_pages(cpu) == 0 && (rows.book(cpu) == 0 || is_of_group(rows.stock_group(cpu), group))
}

/// The frame heads a unit that may be returned.
pub fn is_returnable(rows: &Rows, frame: u32) -> bool
    ensures { result ≡ is_returnable (state_in rows.now).killed ((state_in rows.now).phases frame) }
{
    match rows.phase(frame) {
        Phase::InZone => false,
        Phase::Lent { cpu: _, way: _ } => false,
        Phase::Head { unit, stage } => is_stage_returnable(rows.is_killed(unit.group), stage),
        Phase::Tail(_) => false,
    }
}

// The first of these conditions that isn't met; `None` if each is. These are inlined, as `is_met` is. Otherwise each
// condition of the table would be a value in memory, and every step would clear all of them.
#[inline(always)]
fn one<'a>(rows: &Rows, a: Condition<'a>) -> Option<Condition<'a>>
    requires fits { FitsZone rows.now }
    requires bounded { IsBelowBounds (state_in rows.now) }
    ensures { result ≡ first_unmet (state_in rows.now) (a.entry ∷ []) }
{
    if !is_met(rows, &a) {
        return Some(a);
    }
    None
}

#[inline(always)]
fn two<'a>(rows: &Rows, a: Condition<'a>, b: Condition<'a>) -> Option<Condition<'a>>
    requires fits { FitsZone rows.now }
    requires bounded { IsBelowBounds (state_in rows.now) }
    ensures { result ≡ first_unmet (state_in rows.now) (a.entry ∷ b.entry ∷ []) }
{
    if !is_met(rows, &a) {
        return Some(a);
    }
    one(rows, b)
}

#[inline(always)]
fn three<'a>(
    rows: &Rows,
    a: Condition<'a>,
    b: Condition<'a>,
    c: Condition<'a>,
) -> Option<Condition<'a>>
    requires fits { FitsZone rows.now }
    requires bounded { IsBelowBounds (state_in rows.now) }
    ensures { result ≡ first_unmet (state_in rows.now) (a.entry ∷ b.entry ∷ c.entry ∷ []) }
{
    if !is_met(rows, &a) {
        return Some(a);
    }
    two(rows, b, c)
}

#[inline(always)]
fn four<'a>(
    rows: &Rows,
    a: Condition<'a>,
    b: Condition<'a>,
    c: Condition<'a>,
    d: Condition<'a>,
) -> Option<Condition<'a>>
    requires fits { FitsZone rows.now }
    requires bounded { IsBelowBounds (state_in rows.now) }
    ensures { result ≡ first_unmet (state_in rows.now) (a.entry ∷ b.entry ∷ c.entry ∷ d.entry ∷ []) }
{
    if !is_met(rows, &a) {
        return Some(a);
    }
    three(rows, b, c, d)
}

// The first condition of a step by seat 0 that isn't met, after the two that each such step has.
fn unmet_by_zone<'a>(rows: &Rows, action: &'a Action) -> Option<Condition<'a>>
    requires fits { FitsZone rows.now }
    requires bounded { IsBelowBounds (state_in rows.now) }
    ensures { result ≡ first_unmet (state_in rows.now) (zone_conditions action.now) }
{
    match *action {
        Action::OpenVisit { cpu } => one(rows, HeldBy(cpu)),
        Action::ShutVisit { cpu } => four(
            rows,
            Visited(cpu),
            NonePassingAt(cpu),
            IsZero(Unreported(cpu)),
            IsZero(Reported(cpu)),
        ),
        Action::Freeze { frame, count } => three(
            rows,
            Frame(frame),
            OneUp(count),
            AtLeast(Own { seat: 0, frame }, count),
        ),
        Action::Unfreeze { frame, count } => four(
            rows,
            Frame(frame),
            InPlace(frame, InHand),
            OneUp(count),
            UpTo255(count),
        ),
        Action::PassOut { frame, cpu } => three(
            rows,
            Frame(frame),
            Visited(cpu),
            InPlace(frame, Free),
        ),
        Action::Collect { frame, cpu } => three(
            rows,
            Frame(frame),
            Cpu(cpu),
            InPlace(frame, BackFrom(cpu)),
        ),
        Action::Absorb { cpu } => one(rows, Visited(cpu)),
        Action::Fill { cpu, group, pages } => four(
            rows,
            Visited(cpu),
            Group(group),
            TakesFill(cpu, group),
            AtLeast(Pending(group), pages),
        ),
        Action::DrainStock { cpu } => one(rows, Cpu(cpu)),
        Action::Grant { group, .. } => two(rows, Group(group), NotKilled(group)),
        Action::Ungrant { group, pages } => two(rows, Group(group), AtLeast(Pending(group), pages)),
        Action::PlaceBlock { group, order } => two(
            rows,
            Group(group),
            AtLeast(Pending(group), order.frames()),
        ),
        Action::Publish { frame } => three(
            rows,
            Frame(frame),
            InPlace(frame, Head),
            AtLeast(Own { seat: 0, frame }, 1),
        ),
        Action::Return { frame } => two(rows, Frame(frame), InPlace(frame, Returnable)),
        Action::Note { group, .. } => one(rows, Group(group)),
        Action::NoteGroupKill { group } => two(rows, Group(group), NotRoot(group)),
        Action::SetMax { group, .. } => two(rows, Group(group), NotRoot(group)),
        Action::SetFlag { group, .. } => two(rows, Group(group), NotRoot(group)),
        Action::Make { ref path } => one(rows, Makeable(NewPath { text: path })),
        Action::Remove { group } => four(
            rows,
            Group(group),
            NotRoot(group),
            NoChild(group),
            IsZero(Usage(group)),
        ),
        Action::Kill { group } => two(rows, Group(group), NotKilled(group)),
        _ => None,
    }
}

/// The first condition of the step, in the order of the table of rules, that isn't met; `None` if each is.
#[tactic(auto, using(crate::proofs::AllMet::legal_is))]
pub fn first_unmet<'a>(rows: &Rows, step: &'a Step) -> Option<Condition<'a>>
    requires fits { FitsZone rows.now }
    requires bounded { IsBelowBounds (state_in rows.now) }
    ensures first { result ≡ first_unmet (state_in rows.now) (conditions_of step.now.seat step.now.action) }
    ensures legal { is_none result ≡ is_legal (state_in rows.now) step.now.seat step.now.action }
{
    let seat = step.seat;
    match step.action {
        Action::Lock => two(rows, Cpu(seat), Unlocked),
        Action::Unlock => four(rows, Cpu(seat), HeldBy(seat), NonePending, NonePassing),
        Action::Get { frame } => three(rows, Cpu(seat), Frame(frame), Below(Pins(seat), 256)),
        Action::Put { frame } => three(
            rows,
            AnySeat(seat),
            Frame(frame),
            AtLeast(Own { seat, frame }, 1),
        ),
        Action::TakeIn { frame } => three(
            rows,
            Cpu(seat),
            Frame(frame),
            InPlace(frame, OutTo(seat)),
        ),
        Action::PassBack { frame } => four(
            rows,
            Cpu(seat),
            Frame(frame),
            Visited(seat),
            InPlace(frame, Passable(seat)),
        ),
        Action::Consume { .. } => three(
            rows,
            Cpu(seat),
            AtLeast(Listed(seat), 1),
            Below(Fresh(seat), 32),
        ),
        Action::Credit { frame } => three(
            rows,
            Cpu(seat),
            Frame(frame),
            InPlace(frame, FreshAt(seat)),
        ),
        Action::Report { pages } => three(
            rows,
            Cpu(seat),
            Visited(seat),
            AtLeast(Unreported(seat), pages),
        ),
        _ if seat != 0 => Some(ZoneSeat(seat)),
        _ if is_unheld(rows.hold) => Some(Locked),
        _ => unmet_by_zone(rows, &step.action),
    }
}

/// Whether a step may be made.
pub fn is_legal(rows: &Rows, step: &Step) -> bool
    requires fits { FitsZone rows.now }
    requires bounded { IsBelowBounds (state_in rows.now) }
    ensures { result ≡ is_legal (state_in rows.now) step.now.seat step.now.action }
{
    matches!(first_unmet(rows, step), None)
}
