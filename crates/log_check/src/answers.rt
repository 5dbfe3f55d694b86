//! Why a step that may be made isn't answered so.

ghost use Rattle.std.specs.Prelude.{◌≡◌, IsTrue, false, true};
ghost use Rattle.zone_blocks.specs.Areas.{IsFreeBlock};
ghost use Rattle.group_tree.specs.{has_group, has_room};
ghost use Rattle.step_rules.specs.{free_in, usage_of, Allows, is_legal};
ghost use Rattle.step_rules.specs.declared.step.Action.{Action};
ghost use Rattle.mem_core.specs.{state_in, FitsZone, IsBelowBounds};
ghost use Rattle.log_check.specs.Reasons.{Decides, IsNoRoom, DeniesClaim, SaysFreeBlock};
ghost use Rattle.log_check.specs.Reasons.{SaysNumber, SaysRoom, SaysStock};
ghost use Rattle.log_check.specs.declared.reason.Reason.{Reason};

use crate::reason::Reason;
use crate::showing::{number, place};
use group_tree::group::GroupId;
use group_tree::path::PathText;
use mem_core::phases::is_free;
use mem_core::quantity::Quantity;
use mem_core::rows::Rows;
use step_rules::step::{Action, Answer, Step};
use zone_blocks::block::Block;
use zone_blocks::order::Order;

/// What decides the answer that is due to a step, which may be made and wasn't answered so.
pub(crate) fn decide(rows: &Rows, step: &Step, answer: &Answer, due: &Answer) -> Reason
    requires fits { FitsZone rows.now }
    requires bounded { IsBelowBounds (state_in rows.now) }
    requires legal { is_legal (state_in rows.now) step.now.seat step.now.action ≡ true }
    requires due { Allows (state_in rows.now) step.now.seat step.now.action due.now }
    requires denied { ¬ Allows (state_in rows.now) step.now.seat step.now.action answer.now }
    ensures { Decides (state_in rows.now) step.now.seat step.now.action answer.now due.now result }
{
    let seat = step.seat;
    match step.action {
        Action::Get { frame } => number(rows, &Quantity::References(frame)),
        Action::Put { frame } => number(rows, &Quantity::References(frame)),
        Action::Freeze { frame, .. } => number(rows, &Quantity::References(frame)),
        Action::Consume { .. } => decide_consume(rows, seat, answer, due),
        Action::Credit { .. } => stock(rows, seat),
        Action::Absorb { cpu } => number(rows, &Quantity::Reported(cpu)),
        Action::DrainStock { cpu } => number(rows, &Quantity::InStock(cpu)),
        Action::Grant { group, pages } => decide_grant(rows, group, pages),
        Action::PlaceBlock { group, order } => decide_place(rows, seat, group, order, answer, due),
        Action::Make { path } => decide_make(rows, seat, &path, due),
        _ => Reason::OnlyDone,
    }
}

// What the stock of a CPU is.
fn stock(rows: &Rows, cpu: u32) -> Reason
    ensures { result ≡ Reason.Stock cpu ((state_in rows.now).parts cpu).stock.group
        ((state_in rows.now).parts cpu).stock.is_drained }
{
    Reason::Stock {
        cpu,
        group: rows.stock_group(cpu),
        is_drained: rows.is_drained(cpu),
    }
}

// The pages of the stock, if they alone decide between the answer and the one that is due; else what stock it is.
fn decide_consume(rows: &Rows, seat: u32, answer: &Answer, due: &Answer) -> Reason
    requires fits { FitsZone rows.now }
    requires bounded { IsBelowBounds (state_in rows.now) }
    ensures { SaysStock (state_in rows.now) seat answer.now due.now result }
{
    if matches!(
        (answer, due),
        (Answer::Took, Answer::Empty) | (Answer::Empty, Answer::Took)
    ) {
        number(rows, &Quantity::InStock(seat))
    } else {
        stock(rows, seat)
    }
}

// The lowest group whose limit has no room, or that each has room.
fn decide_grant(rows: &Rows, group: GroupId, pages: u32) -> Reason
    requires fits { FitsZone rows.now }
    requires bounded { IsBelowBounds (state_in rows.now) }
    requires there { IsTrue (has_group rows.now.tree group) }
    ensures { SaysRoom (state_in rows.now) group pages result }
{
    match rows.lowest_over(group, pages) {
        None => Reason::Room { group, pages },
        Some(over) => no_room(rows, over, pages),
    }
}

// The limit of a group, which has no room.
fn no_room(rows: &Rows, over: GroupId, pages: u32) -> Reason
    requires fits { FitsZone rows.now }
    requires bounded { IsBelowBounds (state_in rows.now) }
    requires there { IsTrue (has_group rows.now.tree over) }
    requires over { has_room rows.now.tree (usage_of (state_in rows.now)) over pages ≡ false }
    ensures { IsNoRoom (state_in rows.now) over pages result }
{
    match rows.tree.max(over) {
        None => unreachable!(),
        Some(limit) => Reason::NoRoom {
            path: *rows.tree.path_of(over),
            usage: rows.usage(over),
            pages,
            limit,
        },
    }
}

// Why a block can't be placed, or which can be.
fn decide_place(
    rows: &Rows,
    seat: u32,
    group: GroupId,
    order: Order,
    answer: &Answer,
    due: &Answer,
) -> Reason
    requires fits { FitsZone rows.now }
    requires legal { is_legal (state_in rows.now) seat (Action.PlaceBlock group order) ≡ true }
    requires due { Allows (state_in rows.now) seat (Action.PlaceBlock group order) due.now }
    requires denied { ¬ Allows (state_in rows.now) seat (Action.PlaceBlock group order) answer.now }
    ensures { Decides (state_in rows.now) seat (Action.PlaceBlock group order) answer.now due.now result }
{
    match answer {
        Answer::Placed(block) => refuse_block(rows, order, block),
        _ => free_block(rows, seat, group, order, due),
    }
}

// Which block can be placed, or that none can.
fn free_block(rows: &Rows, seat: u32, group: GroupId, order: Order, due: &Answer) -> Reason
    requires legal { is_legal (state_in rows.now) seat (Action.PlaceBlock group order) ≡ true }
    requires due { Allows (state_in rows.now) seat (Action.PlaceBlock group order) due.now }
    ensures { SaysFreeBlock (state_in rows.now) order due.now result }
{
    match due {
        Answer::Placed(block) => Reason::FreeBlock(*block),
        Answer::NoFreeBlock => Reason::NoFreeBlock(order),
        _ => unreachable!(),
    }
}

// Why a block can't be placed.
fn refuse_block(rows: &Rows, order: Order, block: &Block) -> Reason
    requires fits { FitsZone rows.now }
    requires denied { block.now.order ≡ order → ¬ IsFreeBlock (free_in (state_in rows.now).zone
        (state_in rows.now).phases) block.now }
    ensures { DeniesClaim (state_in rows.now) order block.now result }
{
    if block.order.exponent() != order.exponent() {
        return Reason::OtherOrder(order);
    }
    if !block.is_block_of(rows.frames) {
        return Reason::NoBlock(*block);
    }
    for frame in block.at..block.at + block.order.frames() {
        if !is_free(rows.phase(frame)) {
            return place(rows, frame);
        }
    }
    unreachable!()
}

// The least number that no group has.
fn decide_make(rows: &Rows, seat: u32, path: &PathText, due: &Answer) -> Reason
    requires legal { is_legal (state_in rows.now) seat (Action.Make path.now) ≡ true }
    requires due { Allows (state_in rows.now) seat (Action.Make path.now) due.now }
    ensures { SaysNumber (state_in rows.now) result }
{
    match due {
        Answer::Number(group) => Reason::LeastNumber(*group),
        _ => unreachable!(),
    }
}
