//! Prepaid pages: each leaves a stock for a unit, or becomes pending again, as the rules say.

ghost use Rattle.std.specs.Prelude.{◌≡◌, ◌≢◌, ◌+◌, ◌-◌, ◌<◌, ◌≤◌, ◌^◌, true, false, ℕ, Some, length};
ghost use Rattle.step_rules.specs.{with_more, is_legal};
ghost use Rattle.step_rules.specs.declared.step.Action.{Action};
ghost use Rattle.mem_core.specs.Rows.{state_in};
ghost use Rattle.mem_core.specs.Rooms.{FitsZone, IsBelowBounds, MakesOnRows};

use crate::rows::Rows;
use crate::sums::is_of_group;
use group_tree::group::GroupId;
use step_rules::phase::{ChargedUnit, Phase, Stage, Way};
use step_rules::step::Answer;
use zone_blocks::order::Order;

// The order of a block of one frame.
fn least_order() -> Order
    ensures { result ≡ 0 }
{
    Order::of(0).unwrap()
}

/// A CPU pays for the front of its list from its stock, for a group.
pub(crate) fn consume(rows: &mut Rows, seat: u32, group: GroupId) -> Answer
    requires fits { FitsZone rows.old }
    requires bounded { IsBelowBounds (state_in rows.old) }
    requires legal { is_legal (state_in rows.old) seat (Action.Consume group) ≡ true }
    ensures made { MakesOnRows rows.old seat (Action.Consume group) result rows.new }
{
    if !is_of_group(rows.stock_group(seat), group) {
        return Answer::OtherGroup;
    }
    if rows.is_drained(seat) {
        return Answer::Drained;
    }
    if rows.stock_pages(seat) == 0 {
        return Answer::Empty;
    }
    take_front(rows, seat, group)
}

/// The stock has a page, and pays.
pub(crate) fn take_front(rows: &mut Rows, seat: u32, group: GroupId) -> Answer
    requires fits { FitsZone rows.old }
    requires bounded { IsBelowBounds (state_in rows.old) }
    requires legal { is_legal (state_in rows.old) seat (Action.Consume group) ≡ true }
    requires of { ((state_in rows.old).parts seat).stock.group ≡ Some group }
    requires undrained { ((state_in rows.old).parts seat).stock.is_drained ≡ false }
    requires page { 1 ≤ ((state_in rows.old).parts seat).stock.pages }
    ensures made { MakesOnRows rows.old seat (Action.Consume group) result rows.new }
{
    let unit = ChargedUnit {
        group,
        order: least_order(),
    };
    let front = rows.front(seat);
    rows.set_phase(
        front,
        Phase::Head {
            unit,
            stage: Stage::FreshAt(seat),
        },
    );
    rows.pay(seat);
    Answer::Took
}

/// A CPU puts a fresh frame back on its list, and the page into its stock.
pub(crate) fn credit(rows: &mut Rows, seat: u32, frame: u32) -> Answer
    requires fits { FitsZone rows.old }
    requires bounded { IsBelowBounds (state_in rows.old) }
    requires legal { is_legal (state_in rows.old) seat (Action.Credit frame) ≡ true }
    ensures made { MakesOnRows rows.old seat (Action.Credit frame) result rows.new }
{
    if rows.is_drained(seat) {
        return Answer::Drained;
    }
    rows.set_phase(
        frame,
        Phase::Lent {
            cpu: seat,
            way: Way::OnList,
        },
    );
    rows.credit(seat, frame);
    Answer::Stocked
}

/// The visited CPU reports pages.
pub(crate) fn report(rows: &mut Rows, seat: u32, pages: u32) -> Answer
    requires fits { FitsZone rows.old }
    requires bounded { IsBelowBounds (state_in rows.old) }
    requires legal { is_legal (state_in rows.old) seat (Action.Report pages) ≡ true }
    ensures made { MakesOnRows rows.old seat (Action.Report pages) result rows.new }
{
    rows.report_pages(seat, pages);
    Answer::Done
}

/// The zone takes what the visited CPU reported off the CPU's book.
pub(crate) fn absorb(rows: &mut Rows, seat: u32, cpu: u32) -> Answer
    requires fits { FitsZone rows.old }
    requires bounded { IsBelowBounds (state_in rows.old) }
    requires legal { is_legal (state_in rows.old) seat (Action.Absorb cpu) ≡ true }
    ensures made { MakesOnRows rows.old seat (Action.Absorb cpu) result rows.new }
{
    let pages = rows.absorb_pages(cpu);
    Answer::Pages(pages)
}

/// The zone fills the visited CPU's stock with pending pages.
pub(crate) fn fill(rows: &mut Rows, seat: u32, cpu: u32, group: GroupId, pages: u32) -> Answer
    requires fits { FitsZone rows.old }
    requires bounded { IsBelowBounds (state_in rows.old) }
    requires legal { is_legal (state_in rows.old) seat (Action.Fill cpu group pages) ≡ true }
    ensures made { MakesOnRows rows.old seat (Action.Fill cpu group pages) result rows.new }
{
    let left = rows.pending(group) - u128::from(pages);
    rows.set_pending(group, left);
    rows.fill_stock(cpu, group, pages);
    Answer::Done
}

/// The zone drains all pages from a CPU's stock; they are pending then.
pub(crate) fn drain_stock(rows: &mut Rows, seat: u32, cpu: u32) -> Answer
    requires fits { FitsZone rows.old }
    requires bounded { IsBelowBounds (state_in rows.old) }
    requires legal { is_legal (state_in rows.old) seat (Action.DrainStock cpu) ≡ true }
    ensures made { MakesOnRows rows.old seat (Action.DrainStock cpu) result rows.new }
{
    let of = rows.stock_group(cpu);
    let pages = rows.drain_stock(cpu);
    add_pending(rows, of, pages);
    Answer::Pages(pages)
}

/// Adds to the pages that are pending for a group, if there is one.
fn add_pending(rows: &mut Rows, of: Option<GroupId>, pages: u128)
    requires fits { FitsZone rows.old }
    requires few { (g : ℕ) → (state_in rows.old).pending g ≤ 2 ^ 96 }
    requires room { pages ≤ 2 ^ 96 }
    ensures state { state_in rows.new
        ≡ record (state_in rows.old) { pending = with_more (state_in rows.old).pending of pages } }
    ensures fits { FitsZone rows.new }
{
    match of {
        None => {}
        Some(group) => {
            let more = rows.pending(group) + pages;
            rows.set_pending(group, more);
        }
    }
}
