//! Blocks that are placed on free frames, and units whose frames are freed. What is left is the state that the rules
//! give.

ghost use Rattle.std.specs.Prelude.{◌≡◌, ◌+◌, ◌<◌, ◌≤◌, ◌^◌, ◌++◌, true, IfNone, IfSome, take, drop, replicate, length};
ghost use Rattle.zone_blocks.specs.declared.block.Block.{Block};
ghost use Rattle.zone_blocks.specs.Areas.{IsFreeBlock, IsFrontOfSmallest, AreMaximalBlocks};
ghost use Rattle.step_rules.specs.{free_in, is_legal, after, with_block, without_unit};
ghost use Rattle.step_rules.specs.declared.step.Action.{Action};
ghost use Rattle.step_rules.specs.declared.step.Answer.{Answer};
ghost use Rattle.mem_core.specs.Rows.{state_in};
ghost use Rattle.mem_core.specs.Rooms.{FitsZone, IsBelowBounds, MakesOnRows, PlacesFront};

use crate::phase_table::PhaseTable;
use crate::phases::unit_size;
use crate::rows::Rows;
use group_tree::group::GroupId;
use step_rules::phase::{ChargedUnit, Phase, Stage};
use step_rules::step::Answer;
use zone_blocks::areas::FreeAreas;
use zone_blocks::block::Block;
use zone_blocks::order::Order;

/// Sets the phases of this many frames from `at` on.
fn set_range(phases: &mut PhaseTable, at: u32, count: u32, phase: &Phase)
    requires inside { at + count ≤ length phases.old }
    requires few { length phases.old < 2 ^ 32 }
    ensures { phases.new ≡ take at phases.old ++ replicate count phase.now ++ drop (at + count) phases.old }
{
    for frame in at..at + count {
        phases.set(frame, *phase);
    }
}

/// Makes the frames of a block a newly placed unit of a group: the first its head, the others its tails.
fn set_unit(rows: &mut Rows, group: GroupId, block: &Block)
    requires fits { FitsZone rows.old }
    requires inside { block.now.at + 2 ^ block.now.order ≤ rows.old.frames }
    ensures state { state_in rows.new
        ≡ record (state_in rows.old) { phases = with_block (state_in rows.old).phases group block.now } }
    ensures fits { FitsZone rows.new }
{
    let unit = ChargedUnit {
        group,
        order: block.order,
    };
    set_range(
        &mut rows.phases,
        block.at,
        block.order.frames(),
        &Phase::Tail(group),
    );
    rows.phases.set(
        block.at,
        Phase::Head {
            unit,
            stage: Stage::Bare,
        },
    );
}

/// Frees the frames of a unit.
fn free_unit(rows: &mut Rows, frame: u32)
    requires fits { FitsZone rows.old }
    requires there { frame < rows.old.frames }
    ensures state { state_in rows.new
        ≡ record (state_in rows.old) { phases = without_unit (state_in rows.old).phases frame } }
    ensures fits { FitsZone rows.new }
{
    let left = rows.frames - frame;
    let size = unit_size(rows.phase(frame));
    let frames = size.min(left);
    set_range(&mut rows.phases, frame, frames, &Phase::InZone);
}

/// Places pending pages of a group on the front of the smallest sufficient free block, if there is one.
pub(crate) fn place_block(
    rows: &mut Rows,
    areas: &FreeAreas,
    seat: u32,
    group: GroupId,
    order: Order,
) -> Answer
    requires fits { FitsZone rows.old }
    requires bounded { IsBelowBounds (state_in rows.old) }
    requires legal { is_legal (state_in rows.old) seat (Action.PlaceBlock group order) ≡ true }
    requires areas { AreMaximalBlocks (free_in (state_in rows.old).zone (state_in rows.old).phases) areas.now.blocks }
    ensures made { MakesOnRows rows.old seat (Action.PlaceBlock group order) result rows.new }
    ensures front { PlacesFront areas.now.blocks (Action.PlaceBlock group order) result }
{
    match free_block(rows, areas, order) {
        None => Answer::NoFreeBlock,
        Some(block) => {
            charge_block(rows, group, &block);
            Answer::Placed(block)
        }
    }
}

/// The free block of the order that is placed next: the front of the smallest sufficient free block.
pub(crate) fn free_block(rows: &Rows, areas: &FreeAreas, order: Order) -> Option<Block>
    requires areas { AreMaximalBlocks (free_in (state_in rows.now).zone (state_in rows.now).phases) areas.now.blocks }
    ensures none { IfNone result ((b : Block) → b.order ≡ order
        → ¬ IsFreeBlock (free_in (state_in rows.now).zone (state_in rows.now).phases) b) }
    ensures some { IfSome result (IsFreeBlock (free_in (state_in rows.now).zone (state_in rows.now).phases)) }
    ensures order { IfSome result (λ b. b.order ≡ order) }
    ensures smallest { IfSome result (IsFrontOfSmallest areas.now.blocks order) }
{
    let area = areas.smallest_from(order)?;
    Some(Block { at: area.at, order })
}

/// Places pending pages of a group on a free block.
pub(crate) fn charge_block(rows: &mut Rows, group: GroupId, block: &Block)
    requires fits { FitsZone rows.old }
    requires free { IsFreeBlock (free_in (state_in rows.old).zone (state_in rows.old).phases) block.now }
    requires enough { 2 ^ block.now.order ≤ (state_in rows.old).pending group }
    ensures state { state_in rows.new
        ≡ after (state_in rows.old) 0 (Action.PlaceBlock group block.now.order) (Answer.Placed block.now) }
    ensures fits { FitsZone rows.new }
{
    let left = rows.pending(group) - u128::from(block.order.frames());
    rows.set_pending(group, left);
    set_unit(rows, group, block);
}

/// Returns the frames of a unit.
pub(crate) fn return_unit(rows: &mut Rows, seat: u32, frame: u32) -> Answer
    requires fits { FitsZone rows.old }
    requires bounded { IsBelowBounds (state_in rows.old) }
    requires legal { is_legal (state_in rows.old) seat (Action.Return frame) ≡ true }
    ensures made { MakesOnRows rows.old seat (Action.Return frame) result rows.new }
{
    free_unit(rows, frame);
    Answer::Done
}
