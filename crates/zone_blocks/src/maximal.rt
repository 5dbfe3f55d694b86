//! Which blocks of a set of frames are its maximal free blocks.

ghost use Rattle.std.specs.Prelude.{◌≡◌, ◌<◌, ◌^◌, ◌↔◌, IsTrue, length, true};
ghost use Rattle.std.specs.List.{All};
ghost use Rattle.zone_blocks.specs.Areas.{IsFreeBlock, IsMaximalBlock};

use crate::block::Block;
use crate::order::Order;

/// Whether each of these frames is free.
fn are_all_free(frames: &[bool]) -> bool
    ensures { IsTrue result ↔ All (λ free. free ≡ true) frames.now }
{
    frames.iter().all(|free| *free)
}

/// Whether it is a block of the zone whose frames are all free.
pub fn is_free_block(free: &[bool], block: Block) -> bool
    requires { length free.now < 2 ^ 32 }
    ensures { IsTrue result ↔ IsFreeBlock free.now block }
{
    if !block.is_block_of(free.len() as u32) {
        return false;
    }
    let start = block.at as usize;
    are_all_free(&free[start..start + block.order.frames() as usize])
}

/// Whether it is a free block that is inside no free block of the next order.
pub fn is_maximal_block(free: &[bool], block: Block) -> bool
    requires { length free.now < 2 ^ 32 }
    ensures { IsTrue result ↔ IsMaximalBlock free.now block }
{
    let enclosed = match Order::of(block.order.exponent() + 1) {
        Some(order) => {
            let at = block.at - block.at % order.frames();
            is_free_block(free, Block { at, order })
        }
        None => false,
    };
    !enclosed && is_free_block(free, block)
}
