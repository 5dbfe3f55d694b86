//! The halves that a block leaves when a smaller one is taken from it.

ghost use Rattle.std.specs.Prelude.{◌≡◌, ◌≤◌, ◌<◌, ℕ, List, Bool};
ghost use Rattle.zone_blocks.specs.Block.{IsBlock, Covers};
ghost use Rattle.zone_blocks.specs.Areas.{IsFree};
ghost use Rattle.zone_blocks.specs.Zone.{block_at, free_set_of, AreSoundAreas, TakesFrames};

use crate::areas::FreeAreas;
use crate::block::Block;
use crate::order::Order;

/// Halves a block that is in use down to `order`. Each time the upper half goes into the areas, so that only the block
/// of that order at the front stays in use.
pub fn free_upper_halves(areas: &mut FreeAreas, block: &Block, order: Order)
    requires kept { AreSoundAreas areas.old }
    requires block { IsBlock areas.old.frames block.now }
    requires in_use { (f : ℕ) → Covers block.now f → ¬ IsFree (free_set_of areas.old) f }
    requires enough { order ≤ block.now.order }
    ensures kept { AreSoundAreas areas.new }
    ensures frames { areas.new.frames ≡ areas.old.frames }
    ensures in_use { (free : List Bool) → TakesFrames free block.now (free_set_of areas.old)
        → TakesFrames free (block_at block.now.at order) (free_set_of areas.new) }
{
    let mut exponent = block.order.exponent();
    while exponent > order.exponent() {
        exponent -= 1;
        let half = Order::of(exponent).unwrap();
        areas.insert(Block {
            at: block.at + half.frames(),
            order: half,
        });
    }
}
