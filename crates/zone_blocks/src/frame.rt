//! How one frame is taken from the free block that has it.

ghost use Rattle.std.specs.Prelude.{◌≡◌, ℕ, List, Bool, MatchOption};
ghost use Rattle.std.specs.List.{Contains};
ghost use Rattle.zone_blocks.specs.Block.{IsBlock, Covers};
ghost use Rattle.zone_blocks.specs.Areas.{IsFree};
ghost use Rattle.zone_blocks.specs.Zone.{block_at, free_set_of, AreSoundAreas, HasNoBlockWith, TakesFrames};

use crate::areas::FreeAreas;
use crate::block::Block;
use crate::order::Order;

/// The free block that has this frame, by one look for each order.
pub fn block_with(areas: &FreeAreas, frame: u32) -> Option<Block>
    requires { AreSoundAreas areas.now }
    ensures { MatchOption result (HasNoBlockWith areas.now.blocks frame)
        (λ block. Contains areas.now.blocks block × Covers block frame) }
{
    for exponent in 0..Order::COUNT {
        let order = Order::of(exponent).unwrap();
        let at = frame - frame % order.frames();
        if areas.contains(Block { at, order }) {
            return Some(Block { at, order });
        }
    }
    None
}

/// Halves a block that is in use down to one frame. Each time the half without the frame goes into the areas, so that
/// only the frame stays in use.
pub fn free_other_halves(areas: &mut FreeAreas, block: &Block, frame: u32)
    requires kept { AreSoundAreas areas.old }
    requires block { IsBlock areas.old.frames block.now }
    requires in_use { (f : ℕ) → Covers block.now f → ¬ IsFree (free_set_of areas.old) f }
    requires frame { Covers block.now frame }
    ensures kept { AreSoundAreas areas.new }
    ensures frames { areas.new.frames ≡ areas.old.frames }
    ensures in_use { (free : List Bool) → TakesFrames free block.now (free_set_of areas.old)
        → TakesFrames free (block_at frame 0) (free_set_of areas.new) }
{
    let mut exponent = block.order.exponent();
    let mut at = block.at;
    while exponent > 0 {
        exponent -= 1;
        let half = Order::of(exponent).unwrap();
        let middle = at + half.frames();
        if frame < middle {
            areas.insert(Block {
                at: middle,
                order: half,
            });
        } else {
            areas.insert(Block { at, order: half });
            at = middle;
        }
    }
}
