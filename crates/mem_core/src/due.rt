//! The answer that is due to a step, read without making it: the one that `serve` gives.

ghost use Rattle.std.specs.Prelude.{◌≡◌, ◌<◌, length, true};
ghost use Rattle.group_tree.specs.{most_groups, IsLeastFreeNumber};
ghost use Rattle.step_rules.specs.declared.step.Action.{Action};
ghost use Rattle.step_rules.specs.Legal.{Allows, IsAnswer, IsCounted, is_legal};
ghost use Rattle.mem_core.specs.Rows.{state_in};
ghost use Rattle.mem_core.specs.Rooms.{AreasFor, FitsZone, IsBelowBounds};

use crate::blocks::free_block;
use crate::legal::is_legal;
use crate::rows::Rows;
use crate::sums::is_of_group;
use group_tree::group::{GroupId, MAX_GROUPS};
use group_tree::path::PathText;
use group_tree::tree::Tree;
use step_rules::step::{Action, Answer, Step};
use zone_blocks::areas::FreeAreas;
use zone_blocks::order::Order;

/// The answer that is due to a step, which isn't made: Illegal if it may not be. Only a block that is to be placed is
/// looked up in the areas.
pub fn due_answer(rows: &Rows, areas: &FreeAreas, step: &Step) -> Answer
    requires fits { FitsZone rows.now }
    requires bounded { IsBelowBounds (state_in rows.now) }
    requires areas { AreasFor (state_in rows.now) step.now.action areas.now.blocks }
    ensures { Allows (state_in rows.now) step.now.seat step.now.action result }
{
    if is_legal(rows, step) {
        legal_answer(rows, areas, step)
    } else {
        Answer::Illegal
    }
}

// The answer that is due to a step that is legal.
fn legal_answer(rows: &Rows, areas: &FreeAreas, step: &Step) -> Answer
    requires fits { FitsZone rows.now }
    requires bounded { IsBelowBounds (state_in rows.now) }
    requires areas { AreasFor (state_in rows.now) step.now.action areas.now.blocks }
    requires legal { is_legal (state_in rows.now) step.now.seat step.now.action ≡ true }
    ensures { Allows (state_in rows.now) step.now.seat step.now.action result }
{
    let seat = step.seat;
    match &step.action {
        Action::Get { frame } => get_answer(rows, *frame, seat),
        Action::Put { frame } => put_answer(rows, seat, *frame),
        Action::Freeze { frame, count } => freeze_answer(rows, *frame, *count, seat),
        Action::Consume { group } => consume_answer(rows, seat, *group),
        Action::Credit { frame } => credit_answer(rows, seat, *frame),
        Action::Absorb { cpu } => Answer::Pages(rows.reported(*cpu)),
        Action::DrainStock { cpu } => Answer::Pages(rows.stock_pages(*cpu)),
        Action::Grant { group, pages } => grant_answer(rows, *group, *pages, seat),
        Action::PlaceBlock { group, order } => place_answer(rows, areas, *group, *order, seat),
        Action::Make { path } => make_answer(rows, path, seat),
        _ => Answer::Done,
    }
}

fn get_answer(rows: &Rows, frame: u32, seat: u32) -> Answer
    requires fits { FitsZone rows.now }
    requires bounded { IsBelowBounds (state_in rows.now) }
    requires legal { is_legal (state_in rows.now) seat (Action.Get frame) ≡ true }
    ensures { Allows (state_in rows.now) seat (Action.Get frame) result }
{
    let live = rows.live_references(frame);
    if 1 <= live && live <= 254 {
        Answer::Held
    } else if live == 255 {
        Answer::Full
    } else {
        Answer::Zero
    }
}

fn put_answer(rows: &Rows, seat: u32, frame: u32) -> Answer
    requires fits { FitsZone rows.now }
    requires bounded { IsBelowBounds (state_in rows.now) }
    requires legal { is_legal (state_in rows.now) seat (Action.Put frame) ≡ true }
    ensures { Allows (state_in rows.now) seat (Action.Put frame) result }
{
    let live = rows.live_references(frame);
    if live == 1 {
        Answer::Last
    } else {
        Answer::Left(live - 1)
    }
}

fn freeze_answer(rows: &Rows, frame: u32, count: u32, seat: u32) -> Answer
    requires fits { FitsZone rows.now }
    requires bounded { IsBelowBounds (state_in rows.now) }
    requires legal { is_legal (state_in rows.now) seat (Action.Freeze frame count) ≡ true }
    ensures { Allows (state_in rows.now) seat (Action.Freeze frame count) result }
{
    if rows.live_references(frame) == count {
        Answer::Done
    } else {
        Answer::Missed
    }
}

fn consume_answer(rows: &Rows, seat: u32, group: GroupId) -> Answer
    requires legal { is_legal (state_in rows.now) seat (Action.Consume group) ≡ true }
    ensures { Allows (state_in rows.now) seat (Action.Consume group) result }
{
    if !is_of_group(rows.stock_group(seat), group) {
        Answer::OtherGroup
    } else if rows.is_drained(seat) {
        Answer::Drained
    } else if rows.stock_pages(seat) == 0 {
        Answer::Empty
    } else {
        Answer::Took
    }
}

fn credit_answer(rows: &Rows, seat: u32, frame: u32) -> Answer
    requires legal { is_legal (state_in rows.now) seat (Action.Credit frame) ≡ true }
    ensures { Allows (state_in rows.now) seat (Action.Credit frame) result }
{
    if rows.is_drained(seat) {
        Answer::Drained
    } else {
        Answer::Stocked
    }
}

fn grant_answer(rows: &Rows, group: GroupId, pages: u32, seat: u32) -> Answer
    requires fits { FitsZone rows.now }
    requires bounded { IsBelowBounds (state_in rows.now) }
    requires legal { is_legal (state_in rows.now) seat (Action.Grant group pages) ≡ true }
    ensures { Allows (state_in rows.now) seat (Action.Grant group pages) result }
{
    match rows.lowest_over(group, pages) {
        None => Answer::Granted,
        Some(over) => Answer::Over(over),
    }
}

fn place_answer(rows: &Rows, areas: &FreeAreas, group: GroupId, order: Order, seat: u32) -> Answer
    requires areas { AreasFor (state_in rows.now) (Action.PlaceBlock group order) areas.now.blocks }
    requires legal { is_legal (state_in rows.now) seat (Action.PlaceBlock group order) ≡ true }
    ensures { Allows (state_in rows.now) seat (Action.PlaceBlock group order) result }
{
    match free_block(rows, areas, order) {
        None => Answer::NoFreeBlock,
        Some(block) => Answer::Placed(block),
    }
}

fn make_answer(rows: &Rows, path: &PathText, seat: u32) -> Answer
    requires legal { is_legal (state_in rows.now) seat (Action.Make path.now) ≡ true }
    ensures { Allows (state_in rows.now) seat (Action.Make path.now) result }
{
    let _groups = rows.tree.groups(); // Called for its contract: they are those of a tree.
    Answer::Number(least_free(&rows.tree))
}

// The least number that no group has.
fn least_free(tree: &Tree) -> GroupId
    requires few { length tree.now < most_groups }
    ensures { IsLeastFreeNumber tree.now result }
{
    for number in 0..MAX_GROUPS as u32 {
        let group = GroupId::of(number).unwrap();
        if !tree.contains(group) {
            return group;
        }
    }
    unreachable!()
}
