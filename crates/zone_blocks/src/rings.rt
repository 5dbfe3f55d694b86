//! The nodes of the lists: for each order the head and the blocks. The bits serve to find the node before a block.

ghost use Rattle.std.specs.Prelude.{◌≡◌, ◌≤◌, ◌<◌, ◌+◌, ◌*◌, ◌/◌, ◌^◌, ◌↔◌, IsTrue, IfOk, MatchOption, ℕ, length, []};
ghost use Rattle.zone_blocks.specs.declared.block.Block.{Block};
ghost use Rattle.zone_blocks.specs.Links.{next_of};
ghost use Rattle.zone_blocks.specs.Block.{IsBlock};
ghost use Rattle.zone_blocks.specs.OrderLists.{AreBlockBits, AreRings, MeetsRange, IsNodeBelow, IsNodeBefore};
ghost use Rattle.zone_blocks.specs.OrderLists.{blocks_of};

use crate::block::Block;
use crate::links::Links;
use crate::order::Order;
use bit_levels::levels::BitLevels;
use std::alloc::{AllocError, Global};

/// The block bits of a zone without free blocks.
pub fn new_bits(alloc: Global, frames: u32) -> Result<Vec<BitLevels>, AllocError>
    ensures bits { IfOk result (λ all. AreBlockBits frames all.items) }
    ensures none { IfOk result (λ all. blocks_of frames all.items ≡ []) }
{
    let mut all = Vec::with_capacity(alloc, Order::COUNT as usize)?;
    for exponent in 0..Order::COUNT {
        let bits = BitLevels::new(alloc, (frames >> exponent) as usize)?;
        all.push_reserved(bits);
    }
    Ok(all)
}

/// The rings of a zone without free blocks: each head is before and after itself.
pub fn new_rings(alloc: Global, frames: u32) -> Result<Links, AllocError>
    ensures { IfOk result (λ links. AreRings frames [] links) }
{
    let mut links = Links::new(alloc, frames as usize + Order::COUNT as usize)?;
    for exponent in 0..Order::COUNT as usize {
        let head = frames as usize + exponent;
        links.join(head, head);
    }
    Ok(links)
}

/// The head of the ring of an order; the heads come after all frames.
pub fn head_of(frames: u32, order: Order) -> usize
    ensures head { result ≡ frames + order }
    ensures within { order ≤ 10 }
{
    frames as usize + order.exponent() as usize
}

/// The block of this order that begins at a node, unless that is a head.
pub fn block_at(frames: u32, order: Order, node: usize) -> Option<Block>
    ensures { MatchOption result (frames ≤ node)
        (λ block. (node < frames) × (block ≡ record { at = node; order = order })) }
{
    if node < frames as usize {
        Some(Block {
            at: node as u32,
            order,
        })
    } else {
        None
    }
}

/// The first block of an order.
pub fn first_of(links: &Links, frames: u32, order: Order) -> Option<Block>
    requires { length links.now ≡ frames + 11 }
    ensures order { order ≤ 10 }
    ensures first { MatchOption result (frames ≤ next_of links.now (frames + order))
        (λ block. (next_of links.now (frames + order) < frames)
        × (block ≡ record { at = next_of links.now (frames + order); order = order })) }
{
    block_at(frames, order, links.next(head_of(frames, order)))
}

/// The node before that of a block's number in the ring of its order.
fn node_below(bits: &BitLevels, frames: u32, order: Order, number: usize) -> usize
    requires bits { length bits.now ≡ frames / 2 ^ order }
    requires number { number < length bits.now }
    ensures { IsNodeBelow frames bits.now order number result }
{
    let Some(below) = bits.last_below(number) else {
        return head_of(frames, order);
    };
    below * order.frames() as usize
}

/// The node before a block in the ring of its order: the head if it begins before the first block of the order, else by
/// the bits.
pub fn node_before(links: &Links, bits: &BitLevels, frames: u32, block: &Block) -> usize
    requires links { length links.now ≡ frames + 11 }
    requires bits { length bits.now ≡ frames / 2 ^ block.now.order }
    requires block { IsBlock frames block.now }
    ensures { IsNodeBefore frames links.now bits.now block.now result }
{
    let head = head_of(frames, block.order);
    if (block.at as usize) < links.next(head) {
        return head;
    }
    let number = (block.at >> block.order.exponent()) as usize;
    node_below(bits, frames, block.order, number)
}

/// Whether a block of this order, of which these are the bits, has a frame from `at` to just before `end`.
pub fn meets_range(bits: &BitLevels, order: Order, at: u32, end: usize) -> bool
    requires { end ≤ 2 ^ 33 }
    ensures { IsTrue result ↔ MeetsRange bits.now order at end }
{
    let size = order.frames() as usize;
    // How many blocks of the order begin before the end.
    let stop = (end + size - 1) >> order.exponent();
    let first = (at as usize) >> order.exponent();
    if first + 1 == stop {
        // One block of the order has the whole range.
        return first < bits.len() && bits.contains(first);
    }
    let Some(last) = bits.last_below(stop.min(bits.len())) else {
        return false;
    };
    first <= last
}
