//! Blocks of frames.

ghost use Rattle.std.specs.Prelude.{◌≡◌, ◌↔◌, IsTrue, MatchOption};

use crate::order::Order;

/// A block of 2^`order` frames, of which `at` is the first. `IsBlock` says whether it is a block of a zone: aligned,
/// and inside.
#[derive(Clone, Copy, Debug, PartialEq, Eq)]
pub struct Block {
    /// The number of its first frame.
    pub at: u32,
    /// Its order, 0 to 10.
    pub order: Order,
}

impl Block {
    ghost use Rattle.zone_blocks.specs.Block.{IsBlock, HasPairBit, buddy};

    /// Whether it is a block of a zone of this many frames: aligned, and inside.
    pub fn is_block_of(&self, frames: u32) -> bool
        ensures { IsTrue result ↔ IsBlock frames self.now }
    {
        let size = self.order.frames();
        let number = self.at >> self.order.exponent();
        number * size == self.at && size <= frames && self.at <= frames - size
    }

    /// The buddy, with which the block may be merged (Knuth). None exactly if the order is 10, or one of the two isn't
    /// a block of a zone of this many frames.
    pub fn buddy_in(&self, frames: u32) -> Option<Block>
        ensures { MatchOption result (¬ HasPairBit frames self.now)
            (λ other. HasPairBit frames self.now × (other ≡ buddy self.now)) }
    {
        let order = self.order;
        let _next = Order::of(order.exponent() + 1)?;
        if !self.is_block_of(frames) {
            return None;
        }
        let size = order.frames();
        let number = self.at >> order.exponent();
        let at = if number % 2 == 0 {
            self.at + size
        } else {
            self.at - size
        };
        let other = Block { at, order };
        if !other.is_block_of(frames) {
            return None;
        }
        Some(Block { at, order })
    }
}
