//! Laws of the maximal free blocks: what each function ensures holds of every set of free frames.

ghost use Rattle.zone_blocks.specs.Laws.{EveryFreeFrameIsInOneBlock, EveryFrameInABlockIsFree, MaximalBlocksAreUnique};

/// Every free frame is in exactly one of the maximal free blocks.
pub fn every_free_frame_is_in_one_block()
    ensures { EveryFreeFrameIsInOneBlock }
{}

/// Every frame of a maximal free block is free.
pub fn every_frame_in_a_block_is_free()
    ensures { EveryFrameInABlockIsFree }
{}

/// Two lists that are the maximal free blocks of one set are equal.
pub fn maximal_blocks_are_unique()
    ensures { MaximalBlocksAreUnique }
{}
