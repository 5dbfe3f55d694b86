//! Blocks that somebody else says were placed: any free block may be.

ghost use Rattle.std.specs.Prelude.{◌≡◌, ◌↔◌, ℕ, IsTrue, true, false};
ghost use Rattle.zone_blocks.specs.{IsBlock, Covers, IsFree, IsFreeBlock};
ghost use Rattle.step_rules.specs.{free_in, Allows, after};
ghost use Rattle.step_rules.specs.declared.step.Answer.TheVariants.{Placed};
ghost use Rattle.mem_core.specs.Rows.{state_in};
ghost use Rattle.mem_core.specs.Rooms.{FitsZone, IsBelowBounds};

use crate::blocks::charge_block;
use crate::legal::is_legal;
use crate::phases::is_free;
use crate::rows::Rows;
use step_rules::step::{Action, Step};
use zone_blocks::block::Block;

/// Whether each frame of a block of the zone is free.
fn is_all_free(rows: &Rows, block: &Block) -> bool
    requires fits { FitsZone rows.now }
    requires inside { IsBlock rows.now.frames block.now }
    ensures { IsTrue result ↔ ((f : ℕ) → Covers block.now f
        → IsFree (free_in (state_in rows.now).zone (state_in rows.now).phases) f) }
{
    for frame in block.at..block.at + block.order.frames() {
        if !is_free(rows.phase(frame)) {
            return false;
        }
    }
    true
}

/// Whether a block is one of the zone whose frames are all free.
fn is_free_block(rows: &Rows, block: &Block) -> bool
    requires { FitsZone rows.now }
    ensures { IsTrue result ↔ IsFreeBlock (free_in (state_in rows.now).zone (state_in rows.now).phases) block.now }
{
    block.is_block_of(rows.frames) && is_all_free(rows, block)
}

/// Places a block as claimed, if the rules allow it; else nothing changes.
pub fn place_at(rows: &mut Rows, step: &Step, block: &Block) -> bool
    requires fits { FitsZone rows.old }
    requires bounded { IsBelowBounds (state_in rows.old) }
    ensures allowed { IsTrue result ↔ Allows (state_in rows.old) step.now.seat step.now.action (Placed block.now) }
    ensures state { result ≡ true → state_in rows.new
        ≡ after (state_in rows.old) step.now.seat step.now.action (Placed block.now) }
    ensures unchanged { result ≡ false → rows.new ≡ rows.old }
    ensures fits { FitsZone rows.new }
{
    match &step.action {
        Action::PlaceBlock { group, order } => {
            if !is_legal(rows, step) {
                return false;
            }
            if block.order != *order || !is_free_block(rows, block) {
                return false;
            }
            charge_block(rows, *group, block);
            true
        }
        _ => false,
    }
}
