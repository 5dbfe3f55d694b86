//! The checker: it takes the steps of a log, each with its answer, one after another.

ghost use Rattle.std.specs.Prelude.{◌≡◌, ◌+◌, ◌^◌, ◌<◌, ◌≤◌, ◌↔◌, IfErr, IfOk, IsTrue, OnErr, OnOk, vec_capacity};
ghost use Rattle.step_rules.specs.{at_boot, Allows, IsPlacing};
ghost use Rattle.step_rules.specs.declared.step.Answer.TheVariants.{Placed};
ghost use Rattle.group_tree.specs.Groups.{AreGroups};
ghost use Rattle.mem_core.specs.Rows.{state_in};
ghost use Rattle.mem_core.specs.Rooms.{AreasFor, FitsZone, IsBelowBounds};
ghost use Rattle.mem_core.specs.Shown.{state_shown, zone_of_config};
ghost use Rattle.mem_core.specs.Checked.{Leads};
ghost use Rattle.zone_blocks.specs.Config.{IsValidConfig};

use crate::claims::place_at;
use crate::due::due_answer;
use crate::free_areas::set_areas;
use crate::rows::Rows;
use crate::serve::{pages_asked, serve};
use std::alloc::{AllocError, Global};
use std::marker::Model;
use step_rules::step::{Action, Answer, Step};
use zone_blocks::areas::FreeAreas;
use zone_blocks::block::Block;
use zone_blocks::config::Config;

/// The checker. It tracks the state as `Core` does, but keeps no accounts. It computes the free areas only for a
/// placing whose answer in the log isn't a block that may be placed. A contract sees it as a `CoreState` without
/// accounts and areas.
#[derive(Drop)]
pub struct Checker {
    rows: Rows,
    // Scratch space for `set_areas`: whether each frame is free.
    free: Vec<bool>,
    areas: FreeAreas,
    steps: u64,
}

impl Model for Checker {
    ghost use Rattle.mem_core.specs.Shown.{CoreState};

    ghost Value = { CoreState };

    ghost use Rattle.mem_core.specs.Ready.{checker_state, IsReady};

    ghost view = { checker_state };

    ghost invariant = { IsReady };
}

fn is_same(one: &Answer, other: &Answer) -> bool
    ensures { IsTrue result ↔ (one.now ≡ other.now) }
{
    *one == *other
}

// The answer that is due to a step. It computes the free areas only for a placing.
fn due_anew(rows: &Rows, free: &mut Vec<bool>, areas: &mut FreeAreas, step: &Step) -> Answer
    requires fits { FitsZone rows.now }
    requires bounded { IsBelowBounds (state_in rows.now) }
    requires frames { areas.old.frames ≡ rows.now.frames }
    requires room { rows.now.frames ≤ vec_capacity free.old }
    ensures allowed { Allows (state_in rows.now) step.now.seat step.now.action result }
    ensures areas { AreasFor (state_in rows.now) step.now.action areas.new.blocks }
    ensures frames { areas.new.frames ≡ areas.old.frames }
    ensures room { vec_capacity free.new ≡ vec_capacity free.old }
{
    match &step.action {
        Action::PlaceBlock { group: _, order: _ } => {
            set_areas(rows, free, areas);
            due_answer(rows, areas, step)
        }
        _ => due_answer(rows, areas, step),
    }
}

// Takes a step that the log says placed this block.
fn take_placing(
    rows: &mut Rows,
    free: &mut Vec<bool>,
    areas: &mut FreeAreas,
    step: &Step,
    block: &Block,
) -> Result<(), Answer>
    requires fits { FitsZone rows.old }
    requires bounded { IsBelowBounds (state_in rows.old) }
    requires frames { areas.old.frames ≡ rows.old.frames }
    requires room { rows.old.frames ≤ vec_capacity free.old }
    ensures accepted { OnOk result (Leads (state_in rows.old) step.now (Placed block.now)
        (state_in rows.new)) }
    ensures refused { IfErr result (Allows (state_in rows.old) step.now.seat step.now.action) }
    ensures denied { OnErr result (¬ Allows (state_in rows.old) step.now.seat step.now.action
        (Placed block.now)) }
    ensures unchanged { OnErr result (rows.new ≡ rows.old) }
    ensures fits { FitsZone rows.new }
    ensures frames { areas.new.frames ≡ areas.old.frames }
    ensures room { vec_capacity free.new ≡ vec_capacity free.old }
{
    if place_at(rows, step, block) {
        Ok(())
    } else {
        Err(due_anew(rows, free, areas, step))
    }
}

// Takes a step with the answer in the log, which isn't a placed block.
fn take_other(
    rows: &mut Rows,
    free: &mut Vec<bool>,
    areas: &mut FreeAreas,
    step: &Step,
    answer: &Answer,
) -> Result<(), Answer>
    requires fits { FitsZone rows.old }
    requires bounded { IsBelowBounds (state_in rows.old) }
    requires groups { AreGroups rows.old.tree }
    requires frames { areas.old.frames ≡ rows.old.frames }
    requires room { rows.old.frames ≤ vec_capacity free.old }
    requires other { ¬ IsPlacing answer.now }
    ensures accepted { OnOk result (Leads (state_in rows.old) step.now answer.now
        (state_in rows.new)) }
    ensures refused { IfErr result (Allows (state_in rows.old) step.now.seat step.now.action) }
    ensures denied { OnErr result (¬ Allows (state_in rows.old) step.now.seat step.now.action answer.now) }
    ensures unchanged { OnErr result (rows.new ≡ rows.old) }
    ensures fits { FitsZone rows.new }
    ensures frames { areas.new.frames ≡ areas.old.frames }
    ensures room { vec_capacity free.new ≡ vec_capacity free.old }
{
    let due = due_anew(rows, free, areas, step);
    if !is_same(&due, answer) {
        return Err(due);
    }
    serve(rows, areas, step);
    Ok(())
}

// Takes a step with the answer in the log.
fn take(
    rows: &mut Rows,
    free: &mut Vec<bool>,
    areas: &mut FreeAreas,
    step: &Step,
    answer: &Answer,
) -> Result<(), Answer>
    requires fits { FitsZone rows.old }
    requires bounded { IsBelowBounds (state_in rows.old) }
    requires groups { AreGroups rows.old.tree }
    requires frames { areas.old.frames ≡ rows.old.frames }
    requires room { rows.old.frames ≤ vec_capacity free.old }
    ensures accepted { OnOk result (Leads (state_in rows.old) step.now answer.now
        (state_in rows.new)) }
    ensures refused { IfErr result (Allows (state_in rows.old) step.now.seat step.now.action) }
    ensures denied { OnErr result (¬ Allows (state_in rows.old) step.now.seat step.now.action answer.now) }
    ensures unchanged { OnErr result (rows.new ≡ rows.old) }
    ensures fits { FitsZone rows.new }
    ensures frames { areas.new.frames ≡ areas.old.frames }
    ensures room { vec_capacity free.new ≡ vec_capacity free.old }
{
    match answer {
        Answer::Placed(block) => take_placing(rows, free, areas, step, block),
        _ => take_other(rows, free, areas, step, answer),
    }
}

impl Checker {
    /// A checker of logs that begin with all frames free, the root alone and the lock free. It reserves here all room
    /// that its steps need. Of the sizes only the frames, the CPUs and the room for groups matter.
    pub fn new(alloc: Global, config: Config) -> Result<Checker, AllocError>
        requires { IsValidConfig config }
        ensures state { IfOk result (λ checker. state_shown checker ≡ at_boot (zone_of_config config)) }
        ensures steps { IfOk result (λ checker. checker.steps ≡ 0) }
    {
        let free = Vec::with_capacity(alloc, config.frames as usize)?;
        let areas = FreeAreas::new(alloc, config.frames)?;
        let rows = Rows::new(alloc, config.frames, config.cpus, config.choices.groups)?;
        Ok(Checker {
            rows,
            free,
            areas,
            steps: 0,
        })
    }

    /// How many steps the checker has taken.
    pub fn steps(&self) -> u64
        ensures { result ≡ self.now.steps }
    {
        self.steps
    }

    /// What the checker knows of the zone, to be read.
    pub fn rows(&self) -> &Rows
        ensures state { state_in result.now ≡ state_shown self.now }
        ensures fits { FitsZone result.now }
        ensures bounded { IsBelowBounds (state_in result.now) }
    {
        &self.rows
    }

    /// Takes the next step of a log with its answer, if the rules allow it. Otherwise it returns an answer that the
    /// rules allow, and stays as it was.
    ///
    /// A block may be placed on any aligned block of its order whose frames are all free. The checker may take
    /// 2^64 - 1 steps.
    pub fn accept(&mut self, step: &Step, answer: &Answer) -> Result<(), Answer>
        requires { self.old.steps + 1 < 2 ^ 64 }
        ensures accepted { OnOk result (Leads (state_shown self.old) step.now answer.now (state_shown self.new)) }
        ensures counted { OnOk result (self.new.steps ≡ self.old.steps + 1) }
        ensures refused { IfErr result (Allows (state_shown self.old) step.now.seat step.now.action) }
        ensures denied { OnErr result (¬ Allows (state_shown self.old) step.now.seat step.now.action answer.now) }
        ensures unchanged { OnErr result (self.new ≡ self.old) }
    {
        let _ = pages_asked(&step.action); // Called for its contract: fewer than 2^32 pages.
        let taken = take(
            &mut self.rows,
            &mut self.free,
            &mut self.areas,
            step,
            answer,
        );
        match taken {
            Ok(()) => {
                self.steps += 1;
                Ok(())
            }
            Err(due) => Err(due),
        }
    }
}
