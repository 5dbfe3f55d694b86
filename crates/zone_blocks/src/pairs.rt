//! The bits of the pairs of buddies.

ghost use Rattle.std.specs.Prelude.{◌≡◌, ◌<◌, ◌+◌, ◌/◌, ◌^◌, ◌↔◌, ℕ, List, [], IfOk, MatchOption, length};
ghost use Rattle.std.specs.Prelude.{slice_index_or};
ghost use Rattle.zone_blocks.specs.declared.block.Block.{Block};
ghost use Rattle.zone_blocks.specs.Block.{IsBlock, HasPairBit};
ghost use Rattle.zone_blocks.specs.PairBits.{AreBitLists, ArePairBits, ChangesOne, bit_of, pair_of};

use crate::block::Block;
use crate::order::Order;
use bit_levels::bits::Bits;
use std::alloc::{AllocError, Global};

/// The pair bits of a zone without free blocks: one for each pair of each order below 10.
pub fn new_pairs(alloc: Global, frames: u32) -> Result<Vec<Bits>, AllocError>
    ensures { IfOk result (λ pairs. ArePairBits frames [] pairs.items) }
{
    let mut pairs = Vec::with_capacity(alloc, Order::GREATEST as usize)?;
    for exponent in 0..Order::GREATEST {
        let bits = Bits::new(alloc, (frames >> (exponent + 1)) as usize)?;
        pairs.push_reserved(bits);
    }
    Ok(pairs)
}

/// The number of a block's pair. None exactly if the pair has no bit.
fn pair_number(frames: u32, block: &Block) -> Option<usize>
    requires { IsBlock frames block.now }
    ensures { MatchOption result (¬ HasPairBit frames block.now)
        (λ number. HasPairBit frames block.now × (number ≡ pair_of block.now)) }
{
    let next = Order::of(block.order.exponent() + 1)?;
    let exponent = next.exponent();
    let number = block.at >> exponent;
    if number < frames >> exponent {
        Some(number as usize)
    } else {
        None
    }
}

/// Toggles the bit of a block's pair, if it has one.
pub fn toggle_pair(pairs: &mut Vec<Bits>, frames: u32, block: &Block)
    requires pairs { AreBitLists frames pairs.old.items }
    requires block { IsBlock frames block.now }
    ensures lists { AreBitLists frames pairs.new.items }
    ensures bits { (old new : List Block) → ArePairBits frames old pairs.old.items → ChangesOne old new block.now
        → ArePairBits frames new pairs.new.items }
{
    if let Some(number) = pair_number(frames, block) {
        pairs[block.order.exponent() as usize].toggle(number);
    }
}

/// The bit of a block's pair. None exactly if it has none.
pub fn read_pair(pairs: &Vec<Bits>, frames: u32, block: &Block) -> Option<bool>
    requires { AreBitLists frames pairs.now.items }
    ensures { MatchOption result (¬ HasPairBit frames block.now)
        (λ bit. HasPairBit frames block.now × (bit ≡ bit_of pairs.now.items block.now)) }
{
    if !block.is_block_of(frames) {
        return None;
    }
    let number = pair_number(frames, block)?;
    Some(pairs[block.order.exponent() as usize].contains(number))
}
