//! Every step, made if it is legal: its answer is one that the rules allow, and an illegal step changes nothing.

ghost use Rattle.std.specs.Prelude.{◌≡◌, ◌<◌, ◌^◌, true};
ghost use Rattle.step_rules.specs.declared.step.Answer.TheVariants.{Illegal};
ghost use Rattle.step_rules.specs.{is_legal, Allows, after};
ghost use Rattle.mem_core.specs.Rows.{state_in};
ghost use Rattle.mem_core.specs.Rooms.{AreasFor, FitsZone, IsBelowBounds, MakesOnRows, PlacesFront, pages_asked};

use crate::blocks::{place_block, return_unit};
use crate::groups::{grant, kill, make, note, note_group_kill, remove, set_flag, set_max, ungrant};
use crate::hand_over::{collect, pass_back, pass_out, take_in};
use crate::legal::is_legal;
use crate::lock::{lock, open_visit, shut_visit, unlock};
use crate::references::{freeze, get, publish, put, unfreeze};
use crate::rows::Rows;
use crate::stocks::{absorb, consume, credit, drain_stock, fill, report};
use step_rules::step::{Action, Answer, Step};
use zone_blocks::areas::FreeAreas;

/// Makes one step, if it is legal, and answers it. A step that isn't legal is answered Illegal and changes nothing.
/// Only a block that is to be placed is looked up in the areas.
pub fn serve(rows: &mut Rows, areas: &FreeAreas, step: &Step) -> Answer
    requires fits { FitsZone rows.old }
    requires bounded { IsBelowBounds (state_in rows.old) }
    requires areas { AreasFor (state_in rows.old) step.now.action areas.now.blocks }
    ensures allowed { Allows (state_in rows.old) step.now.seat step.now.action result }
    ensures state { state_in rows.new ≡ after (state_in rows.old) step.now.seat step.now.action result }
    ensures fits { FitsZone rows.new }
    ensures front { PlacesFront areas.now.blocks step.now.action result }
    ensures unchanged { result ≡ Illegal → rows.new ≡ rows.old }
{
    if !is_legal(rows, step) {
        return Answer::Illegal;
    }
    make_step(rows, areas, step)
}

/// Makes a step that is legal.
fn make_step(rows: &mut Rows, areas: &FreeAreas, step: &Step) -> Answer
    requires fits { FitsZone rows.old }
    requires bounded { IsBelowBounds (state_in rows.old) }
    requires areas { AreasFor (state_in rows.old) step.now.action areas.now.blocks }
    requires legal { is_legal (state_in rows.old) step.now.seat step.now.action ≡ true }
    ensures made { MakesOnRows rows.old step.now.seat step.now.action result rows.new }
    ensures front { PlacesFront areas.now.blocks step.now.action result }
{
    let seat = step.seat;
    match &step.action {
        Action::Lock => lock(rows, seat),
        Action::Unlock => unlock(rows, seat),
        Action::OpenVisit { cpu } => open_visit(rows, seat, *cpu),
        Action::ShutVisit { cpu } => shut_visit(rows, seat, *cpu),
        Action::Get { frame } => get(rows, seat, *frame),
        Action::Put { frame } => put(rows, seat, *frame),
        Action::Freeze { frame, count } => freeze(rows, seat, *frame, *count),
        Action::Unfreeze { frame, count } => unfreeze(rows, seat, *frame, *count),
        Action::PassOut { frame, cpu } => pass_out(rows, seat, *frame, *cpu),
        Action::TakeIn { frame } => take_in(rows, seat, *frame),
        Action::PassBack { frame } => pass_back(rows, seat, *frame),
        Action::Collect { frame, cpu } => collect(rows, seat, *frame, *cpu),
        Action::Consume { group } => consume(rows, seat, *group),
        Action::Credit { frame } => credit(rows, seat, *frame),
        Action::Report { pages } => report(rows, seat, *pages),
        Action::Absorb { cpu } => absorb(rows, seat, *cpu),
        Action::Fill { cpu, group, pages } => fill(rows, seat, *cpu, *group, *pages),
        Action::DrainStock { cpu } => drain_stock(rows, seat, *cpu),
        Action::Grant { group, pages } => grant(rows, seat, *group, *pages),
        Action::Ungrant { group, pages } => ungrant(rows, seat, *group, *pages),
        Action::PlaceBlock { group, order } => place_block(rows, areas, seat, *group, *order),
        Action::Publish { frame } => publish(rows, seat, *frame),
        Action::Return { frame } => return_unit(rows, seat, *frame),
        Action::Note { key, group } => note(rows, seat, *key, *group),
        Action::NoteGroupKill { group } => note_group_kill(rows, seat, *group),
        Action::SetMax { group, limit } => set_max(rows, seat, *group, *limit),
        Action::SetFlag { group, oom_group } => set_flag(rows, seat, *group, *oom_group),
        Action::Make { path } => make(rows, seat, path),
        Action::Remove { group } => remove(rows, seat, *group),
        Action::Kill { group } => kill(rows, seat, *group),
    }
}

/// The pages that a step asks for: to be granted, or to be filled into a stock.
pub fn pages_asked(action: &Action) -> u32
    ensures pages { result ≡ pages_asked action.now }
    ensures few { result < 2 ^ 32 }
{
    match action {
        Action::Grant { group: _, pages } => *pages,
        Action::Fill {
            cpu: _,
            group: _,
            pages,
        } => *pages,
        _ => 0,
    }
}
