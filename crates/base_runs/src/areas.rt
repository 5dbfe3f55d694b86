//! Free areas: the example in the README of `zone_blocks`, and worked rows.

ghost use Rattle.std.specs.Prelude.{◌≡◌};

use crate::calls::expect_true;
use crate::walks::{order_of, walks_blocks};
use std::process::Abort;
use zone_blocks::areas::FreeAreas;
use zone_blocks::block::Block;
use zone_blocks::order::Order;

// The calls that the README shows.
#[test]
fn areas_of_eleven_frames(rt: HostRuntime) {
    let mut areas = empty_areas(&rt, 11);
    areas.set_all_free();
    let order = order_of(&rt, 1);
    expect_true(&rt, areas.first(order) == Some(Block { at: 8, order }));
    if areas.contains(Block { at: 8, order }) {
        areas.remove(Block { at: 8, order });
    }
    expect_true(&rt, !areas.contains(Block { at: 8, order }));
    let rest = block_at(&rt, 0, 3);
    expect_true(&rt, areas.smallest_from(order) == Some(rest));
}

// The empty areas of a zone of this many frames.
fn empty_areas(rt: &(impl Abort + AllocGlobal), frames: u32) -> FreeAreas
    ensures { result.frames ≡ frames }
{
    FreeAreas::new(rt.alloc(), frames).expect(rt, "memory")
}

#[test]
fn sixteen_frames_with_five_in_use(rt: HostRuntime) {
    let mut free = [true; 16];
    for used in [0, 4, 5, 6, 7] {
        free[used] = false;
    }
    let mut areas = empty_areas(&rt, 16);
    areas.set_from(&free);
    walks_blocks(&rt, areas.walk(), &[(0, 1), (1, 2), (3, 8)]);
}

// A call on free areas and its required answer. A block is named by its first frame and the exponent of its order.
#[derive(Clone, Copy)]
enum AreaRow {
    PutBlock(u32, u32),
    TakeBlock(u32, u32),
    // The pair bit of the first pair of blocks of this order.
    PairBit(u32, Option<bool>),
}

fn block_at(rt: &impl Abort, at: u32, exponent: u32) -> Block {
    let order = order_of(rt, exponent);
    Block { at, order }
}

// Inserts a block, which must be a block of the zone and overlap no free block.
fn put_block(rt: &impl Abort, areas: &mut FreeAreas, block: Block) {
    assert!(rt; block.is_block_of(areas.frames()) && !areas.overlaps(block));
    areas.insert(block);
}

// Removes a block, which must be one of the free blocks.
fn take_block(rt: &impl Abort, areas: &mut FreeAreas, block: Block) {
    let taken = block;
    assert!(rt; areas.contains(block));
    areas.remove(taken);
}

// Makes the call of a row.
fn play_row(rt: &impl Abort, areas: &mut FreeAreas, row: AreaRow) {
    match row {
        AreaRow::PutBlock(at, exponent) => put_block(rt, areas, block_at(rt, at, exponent)),
        AreaRow::TakeBlock(at, exponent) => take_block(rt, areas, block_at(rt, at, exponent)),
        AreaRow::PairBit(exponent, bit) => {
            expect_true(rt, areas.pair_bit(block_at(rt, 0, exponent)) == bit);
        }
    }
}

// Sixteen frames: first frame 0 is taken, and then the block of four frames at frame 4.
#[test]
fn bits_of_pairs(rt: HostRuntime) {
    let mut areas = empty_areas(&rt, 16);
    areas.set_from(&[true; 16]);
    let rows = [
        AreaRow::TakeBlock(0, 4),
        AreaRow::PutBlock(8, 3),
        AreaRow::PutBlock(4, 2),
        AreaRow::PutBlock(2, 1),
        AreaRow::PutBlock(1, 0),
        AreaRow::PairBit(2, Some(true)),
        AreaRow::TakeBlock(4, 2),
        AreaRow::PairBit(0, Some(true)),
        AreaRow::PairBit(2, Some(false)),
        AreaRow::PairBit(4, None),
    ];
    play_rows(&rt, &mut areas, &rows);
}

fn play_rows(rt: &impl Abort, areas: &mut FreeAreas, rows: &[AreaRow]) {
    for row in rows {
        play_row(rt, areas, *row);
    }
}
