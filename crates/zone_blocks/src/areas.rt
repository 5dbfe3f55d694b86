//! The free areas of a zone: for each order its free blocks, linked by address.

ghost use Rattle.std.specs.Prelude.{◌≡◌, ◌≤◌, ◌<◌, ◌↔◌, ◌+◌, IsTrue, IfOk, MatchOption, ℕ, length, [], replicate, true};
ghost use Rattle.std.specs.List.{Contains};
ghost use Rattle.zone_blocks.specs.Block.{IsBlock, HasPairBit};
ghost use Rattle.zone_blocks.specs.Areas.{AreMaximalBlocks, AreBlocksApart, HasNoneOf, HasNoneFrom};
ghost use Rattle.zone_blocks.specs.Areas.{IsFirstOf, IsSmallestFrom, Inserts, RemovesBlock, Overlaps, IsOneOfPair};
ghost use Rattle.zone_blocks.specs.OrderLists.{AreMaximalUpTo, HasNoneAfter, IsNextAfter};

use crate::block::Block;
use crate::links::Links;
use crate::maximal::is_maximal_block;
use crate::order::Order;
use crate::pairs::{new_pairs, read_pair, toggle_pair};
use crate::rings::{block_at, first_of, meets_range, new_bits, new_rings, node_before};
use crate::walk::Walk;
use bit_levels::bits::Bits;
use bit_levels::levels::BitLevels;
use std::alloc::{AllocError, Global};
use std::marker::Model;

/// The free areas of a zone: blocks of the zone, no two of which share a frame. A contract sees `frames`, how many
/// frames the zone has, and `blocks` in walk order (by order, then by address).
#[derive(Drop)]
pub struct FreeAreas {
    frames: u32,
    // For each order which of its blocks are in the areas, by number. So the one before a block is found without a
    // walk.
    bits: Vec<BitLevels>,
    // For each order the list of its blocks by address: a ring through the record of the first
    // frame of each, and through the head of the order.
    links: Links,
    // For each order below 10 one bit for each pair of buddies: 1 if exactly one of them is in the areas.
    pairs: Vec<Bits>,
}

impl Model for FreeAreas {
    ghost use Rattle.zone_blocks.specs.Areas.{FreeBlocks};

    ghost Value = { FreeBlocks };

    ghost use Rattle.zone_blocks.specs.OrderLists.{blocks_of, AreOrderLists};
    ghost use Rattle.zone_blocks.specs.PairBits.{ArePairBits};

    ghost view = { λ a. record { frames = a.frames; blocks = blocks_of a.frames a.bits.items } };

    ghost invariant = { λ a. AreOrderLists a.frames a.bits.items a.links
        × ArePairBits a.frames (blocks_of a.frames a.bits.items) a.pairs.items };
}

impl FreeAreas {
    /// The empty areas of a zone of this many frames, or an error if memory runs out or there are more than 2^32 - 11
    /// frames. All room is reserved here: no other call takes memory.
    pub fn new(alloc: Global, frames: u32) -> Result<FreeAreas, AllocError>
        ensures frames { IfOk result (λ areas. areas.frames ≡ frames) }
        ensures blocks { IfOk result (λ areas. areas.blocks ≡ []) }
    {
        let bits = new_bits(alloc, frames)?;
        let links = new_rings(alloc, frames)?;
        let pairs = new_pairs(alloc, frames)?;
        Ok(FreeAreas {
            frames,
            bits,
            links,
            pairs,
        })
    }

    /// Makes the areas those of a set of free frames. `free` has a value for each frame.
    pub fn set_from(&mut self, free: &[bool])
        requires { length free.now ≡ self.old.frames }
        ensures areas { AreMaximalBlocks free.now self.new.blocks }
        ensures frames { self.new.frames ≡ self.old.frames }
    {
        self.clear();
        for exponent in 0..Order::COUNT {
            let order = Order::of(exponent).unwrap();
            self.insert_maximal(free, order);
        }
    }

    /// Makes the areas those of a zone whose frames are all free, without a look at each frame. These are the blocks of
    /// order 10 that fit, and of each lower order the last block, if none of the next order has it.
    pub fn set_all_free(&mut self)
        ensures areas { AreMaximalBlocks (replicate self.old.frames true) self.new.blocks }
        ensures frames { self.new.frames ≡ self.old.frames }
    {
        self.clear();
        for exponent in 0..Order::COUNT {
            let order = Order::of(exponent).unwrap();
            self.insert_all_free(order);
        }
    }

    // Removes all blocks.
    fn clear(&mut self)
        ensures blocks { self.new.blocks ≡ [] }
        ensures frames { self.new.frames ≡ self.old.frames }
    {
        while let Some(block) = self.first_from(0) {
            self.remove(block);
        }
    }

    // Inserts the maximal free blocks of one order; those of the lower orders are in the areas.
    fn insert_maximal(&mut self, free: &[bool], order: Order)
        requires frames { length free.now ≡ self.old.frames }
        requires lower { AreMaximalUpTo free.now order 0 self.old.blocks }
        ensures filled { AreMaximalUpTo free.now (order + 1) 0 self.new.blocks }
        ensures frames { self.new.frames ≡ self.old.frames }
    {
        let size = order.frames();
        let count = self.frames() / size;
        for index in 0..count {
            let at = index * size;
            if is_maximal_block(free, Block { at, order }) {
                self.insert(Block { at, order });
            }
        }
    }

    // The same if all frames are free. Below order 10 only the last block can be maximal: any two
    // buddies make a free block of the next order.
    fn insert_all_free(&mut self, order: Order)
        requires lower { AreMaximalUpTo (replicate self.old.frames true) order 0 self.old.blocks }
        ensures filled { AreMaximalUpTo (replicate self.old.frames true) (order + 1) 0 self.new.blocks }
        ensures frames { self.new.frames ≡ self.old.frames }
    {
        let size = order.frames();
        let fitting = self.frames() / size;
        let first = if order.exponent() < Order::GREATEST {
            fitting - fitting % 2
        } else {
            0
        };
        for index in first..fitting {
            self.insert(Block {
                at: index * size,
                order,
            });
        }
    }

    /// How many frames the zone has.
    pub fn frames(&self) -> u32
        ensures { result ≡ self.now.frames }
    {
        self.frames
    }

    /// The blocks in the areas, by order and then by address.
    pub fn walk(&self) -> Walk<'_>
        ensures walk { result ≡ self.now.blocks }
        ensures apart { AreBlocksApart self.now.frames self.now.blocks }
    {
        Walk::over(self)
    }

    /// Whether exactly this block is in the areas.
    pub fn contains(&self, block: Block) -> bool
        ensures { IsTrue result ↔ Contains self.now.blocks block }
    {
        let exponent = block.order.exponent();
        let bits = &self.bits[exponent as usize];
        block.is_block_of(self.frames) && bits.contains((block.at >> exponent) as usize)
    }

    /// Whether a block in the areas shares a frame with this one.
    pub fn overlaps(&self, block: Block) -> bool
        ensures { IsTrue result ↔ Overlaps self.now.blocks block }
    {
        let end = block.at as usize + block.order.frames() as usize;
        for exponent in 0..Order::COUNT {
            let order = Order::of(exponent).unwrap();
            let bits = &self.bits[exponent as usize];
            if meets_range(bits, order, block.at, end) {
                return true;
            }
        }
        false
    }

    /// The block of exactly this order with the least address. None exactly if there is none.
    pub fn first(&self, order: Order) -> Option<Block>
        ensures { MatchOption result (HasNoneOf self.now.blocks order) (IsFirstOf self.now.blocks order) }
    {
        first_of(&self.links, self.frames, order)
    }

    /// Of the least order, from this one on, that has a block, the block with the least address. None exactly if the
    /// areas have no block of this order or above.
    pub fn smallest_from(&self, order: Order) -> Option<Block>
        ensures { MatchOption result (HasNoneFrom self.now.blocks order) (IsSmallestFrom self.now.blocks order) }
    {
        self.first_from(order.exponent())
    }

    // The same for an exponent, from which on there may be no order.
    pub(crate) fn first_from(&self, exponent: u32) -> Option<Block>
        ensures apart { AreBlocksApart self.now.frames self.now.blocks }
        ensures smallest { MatchOption result (HasNoneFrom self.now.blocks exponent)
            (IsSmallestFrom self.now.blocks exponent) }
    {
        for each in exponent..Order::COUNT {
            let order = Order::of(each).unwrap();
            if let Some(block) = first_of(&self.links, self.frames, order) {
                return Some(block);
            }
        }
        None
    }

    // The block after one in the areas, by order and then by address. None exactly if it is the last.
    pub(crate) fn after(&self, block: &Block) -> Option<Block>
        requires { Contains self.now.blocks block.now }
        ensures apart { AreBlocksApart self.now.frames self.now.blocks }
        ensures next { MatchOption result (HasNoneAfter self.now.blocks block.now)
            (IsNextAfter self.now.blocks block.now) }
    {
        let order = block.order;
        let node = self.links.next(block.at as usize);
        let next = block_at(self.frames, order, node);
        if next.is_some() {
            return next;
        }
        self.first_from(order.exponent() + 1)
    }

    /// Inserts a block of the zone that shares no frame with one in the areas.
    #[inline(always)]
    pub fn insert(&mut self, block: Block)
        requires block { IsBlock self.old.frames block }
        requires apart { ¬ Overlaps self.old.blocks block }
        ensures blocks { Inserts self.old.blocks block self.new.blocks }
        ensures frames { self.new.frames ≡ self.old.frames }
    {
        toggle_pair(&mut self.pairs, self.frames, &block);
        let exponent = block.order.exponent();
        let number = (block.at >> exponent) as usize;
        let bits = &mut self.bits[exponent as usize];
        let before = node_before(&self.links, bits, self.frames, &block);
        bits.set(number, true);
        let after = self.links.next(before);
        let node = block.at as usize;
        self.links.join(before, node);
        self.links.join(node, after);
    }

    /// Removes a block that is in the areas.
    #[inline(always)]
    pub fn remove(&mut self, block: Block)
        requires { Contains self.old.blocks block }
        ensures blocks { RemovesBlock self.old.blocks block self.new.blocks }
        ensures frames { self.new.frames ≡ self.old.frames }
    {
        toggle_pair(&mut self.pairs, self.frames, &block);
        let exponent = block.order.exponent();
        let number = (block.at >> exponent) as usize;
        self.bits[exponent as usize].set(number, false);
        let before = self.links.prev(block.at as usize);
        let after = self.links.next(block.at as usize);
        self.links.join(before, after);
    }

    /// Whether exactly one of the block and its buddy is in the areas, read from the bit of the pair (Gorman, chapter
    /// 6). None exactly if the pair has no bit: at order 10, and if one of the two isn't a block of the zone.
    pub fn pair_bit(&self, block: Block) -> Option<bool>
        ensures { MatchOption result (¬ HasPairBit self.now.frames block)
            (λ bit. HasPairBit self.now.frames block × (IsTrue bit ↔ IsOneOfPair self.now.blocks block)) }
    {
        read_pair(&self.pairs, self.frames, &block)
    }
}
