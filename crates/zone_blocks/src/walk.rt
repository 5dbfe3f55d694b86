//! The walk over free areas.

ghost use Rattle.std.specs.Iterator.{YieldsFirst, item_count};
ghost use Rattle.std.specs.Prelude.{List};

use crate::areas::FreeAreas;
use crate::block::Block;
use std::marker::Model;

/// The blocks that are left of a walk over free areas: by order, then by address.
#[derive(Drop)]
pub struct Walk<'a> {
    areas: &'a FreeAreas,
    next: Option<Block>,
}

impl<'a> Model for Walk<'a> {
    ghost use Rattle.std.specs.Prelude.{List, ◌≡◌, Some};
    ghost use Rattle.std.specs.List.{Contains};
    ghost use Rattle.zone_blocks.specs.declared.block.Block.{Block};
    ghost use Rattle.zone_blocks.specs.OrderLists.{blocks_from};

    ghost Value = { List Block };

    ghost view = { λ w. blocks_from w.areas.now.blocks w.next };

    ghost invariant = { λ w. (b : Block) → w.next ≡ Some b → Contains w.areas.now.blocks b };
}

impl<'a> Walk<'a> {
    ghost use Rattle.std.specs.Prelude.{◌≡◌};
    ghost use Rattle.zone_blocks.specs.Areas.{AreBlocksApart};

    /// A walk over all blocks of these areas.
    pub(crate) fn over(areas: &'a FreeAreas) -> Walk<'a>
        ensures walk { result ≡ areas.now.blocks }
        ensures apart { AreBlocksApart areas.now.frames areas.now.blocks }
    {
        Walk {
            areas,
            next: areas.first_from(0),
        }
    }
}

impl Iterator for Walk<'_> {
    type Item = Block;

    ghost next_gives = { YieldsFirst (λ blocks. blocks) };

    ghost remaining = { item_count (λ blocks. blocks) };

    fn next(&mut self) -> Option<Block> {
        let block = self.next?;
        self.next = self.areas.after(&block);
        Some(block)
    }
}
