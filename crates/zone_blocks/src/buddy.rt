//! A zone whose frames are taken and freed in blocks.

ghost use Rattle.std.specs.Prelude.{◌≡◌, ◌↔◌, IsTrue, IfOk, MatchOption, replicate, true};
ghost use Rattle.std.specs.Option.{IfNone, IfSome};
ghost use Rattle.zone_blocks.specs.Areas.{AreMaximalBlocks, HasNoneFrom, IsFree, IsFrontOfSmallest};
ghost use Rattle.zone_blocks.specs.Zone.{TakesFrames, GivesFrames, IsInUse};

use crate::areas::FreeAreas;
use crate::block::Block;
use crate::frame::{block_with, free_other_halves};
use crate::merge::insert_merged;
use crate::order::Order;
use crate::split::free_upper_halves;
use crate::walk::Walk;
use std::alloc::{AllocError, Global};
use std::marker::Model;

/// A zone of page frames. A contract sees `free`, which of its frames are free, and `blocks`, the maximal free blocks
/// in walk order.
#[derive(Drop)]
pub struct Buddy {
    areas: FreeAreas,
}

impl Model for Buddy {
    ghost use Rattle.zone_blocks.specs.Zone.{BuddyZone, buddy_zone_of, AreSoundAreas};

    ghost Value = { BuddyZone };

    ghost view = { λ b. buddy_zone_of b.areas };

    ghost invariant = { λ b. AreSoundAreas b.areas };
}

impl Buddy {
    /// A zone of this many frames, all free. `AllocError` if memory runs out or there are more than 2^32 - 11 frames.
    /// All room is reserved here: no other call takes memory.
    pub fn new(alloc: Global, frames: u32) -> Result<Buddy, AllocError>
        ensures free { IfOk result (λ zone. zone.free ≡ replicate frames true) }
        ensures areas { IfOk result (λ zone. AreMaximalBlocks zone.free zone.blocks) }
    {
        let mut areas = FreeAreas::new(alloc, frames)?;
        areas.set_all_free();
        Ok(Buddy { areas })
    }

    /// Takes a block of this order: the front of the block with the least address of the least sufficient order. None,
    /// and nothing changed, exactly if there is no free block of that order or above.
    pub fn take(&mut self, order: Order) -> Option<Block>
        ensures taken { MatchOption result (HasNoneFrom self.old.blocks order)
            (IsFrontOfSmallest self.old.blocks order) }
        ensures none { IfNone result (self.new ≡ self.old) }
        ensures frames { IfSome result (λ block. TakesFrames self.old.free block self.new.free) }
        ensures areas { AreMaximalBlocks self.new.free self.new.blocks }
    {
        let found = self.areas.smallest_from(order)?;
        let taken = found;
        self.areas.remove(taken);
        free_upper_halves(&mut self.areas, &found, order);
        Some(Block {
            at: found.at,
            order,
        })
    }

    /// Takes one free frame, and leaves the rest of the free block that has it free, in halves.
    pub fn take_frame(&mut self, frame: u32)
        requires { IsFree self.old.free frame }
        ensures frames { TakesFrames self.old.free (record { at = frame; order = 0 }) self.new.free }
        ensures areas { AreMaximalBlocks self.new.free self.new.blocks }
    {
        let block = block_with(&self.areas, frame).unwrap();
        self.areas.remove(block);
        free_other_halves(&mut self.areas, &block, frame);
    }

    /// Whether it is a block of the zone whose frames are all in use, so that it may be freed.
    pub fn is_in_use(&self, block: Block) -> bool
        ensures { IsTrue result ↔ IsInUse self.now.free block }
    {
        block.is_block_of(self.areas.frames()) && !self.areas.overlaps(block)
    }

    /// Frees a block whose frames are all in use, and merges it with its buddy while that is a free block of the same
    /// order, up to order 10.
    pub fn give(&mut self, block: Block)
        requires { IsInUse self.old.free block }
        ensures frames { GivesFrames self.old.free block self.new.free }
        ensures areas { AreMaximalBlocks self.new.free self.new.blocks }
    {
        insert_merged(&mut self.areas, block);
    }

    /// The maximal free blocks, by order and then by address.
    pub fn blocks(&self) -> Walk<'_>
        ensures blocks { result ≡ self.now.blocks }
        ensures areas { AreMaximalBlocks self.now.free self.now.blocks }
    {
        self.areas.walk()
    }
}
