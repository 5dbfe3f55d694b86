//! The merging of a block with its buddy.

ghost use Rattle.std.specs.Prelude.{◌≡◌, ◌≤◌, ◌<◌, ◌^◌, ℕ, MatchOption};
ghost use Rattle.std.specs.List.{Contains};
ghost use Rattle.zone_blocks.specs.Block.{IsBlock, Covers};
ghost use Rattle.zone_blocks.specs.Areas.{IsFree};
ghost use Rattle.zone_blocks.specs.Zone.{free_set_of, AreSoundAreas, GivesFrames, TakesBuddy, HasNoBuddy};

use crate::areas::FreeAreas;
use crate::block::Block;
use crate::order::Order;

/// If the bit of the pair says that a block's buddy is free, removes the buddy, which makes the bit 0, and returns the
/// block of both. None, and nothing changed, exactly if the pair has no bit or it is 0.
fn take_buddy(areas: &mut FreeAreas, block: &Block) -> Option<Block>
    requires kept { AreSoundAreas areas.old }
    requires block { IsBlock areas.old.frames block.now }
    requires alone { ¬ Contains areas.old.blocks block.now }
    ensures { MatchOption result (HasNoBuddy areas.old block.now areas.new) (TakesBuddy areas.old block.now areas.new) }
{
    let is_one = areas.pair_bit(*block)?;
    if !is_one {
        return None;
    }
    let other = block.buddy_in(areas.frames())?;
    let order = Order::of(block.order.exponent() + 1)?;
    let at = block.at.min(other.at);
    areas.remove(other);
    Some(Block { at, order })
}

/// Inserts a block that is in use into the areas, merged with its buddy as long as that is free.
pub fn insert_merged(areas: &mut FreeAreas, block: Block)
    requires kept { AreSoundAreas areas.old }
    requires block { IsBlock areas.old.frames block }
    requires in_use { (f : ℕ) → Covers block f → ¬ IsFree (free_set_of areas.old) f }
    ensures kept { AreSoundAreas areas.new }
    ensures frames { areas.new.frames ≡ areas.old.frames }
    ensures free { GivesFrames (free_set_of areas.old) block (free_set_of areas.new) }
{
    let mut merged = block;
    while let Some(larger) = take_buddy(areas, &merged) {
        merged = larger;
    }
    areas.insert(merged);
}
