//! The buddy system: the example in its README, and a worked run.

use crate::calls::expect_true;
use crate::walks::{order_of, walks_blocks};
use std::process::Abort;
use zone_blocks::block::Block;
use zone_blocks::buddy::Buddy;
use zone_blocks::order::Order;

// The calls that the README shows.
#[test]
fn a_block_is_taken_and_given_back(rt: HostRuntime) {
    let mut zone = zone_of(&rt, 16);
    let order = order_of(&rt, 2);
    expect_true(&rt, zone.take(order) == Some(Block { at: 0, order }));
    if zone.is_in_use(Block { at: 0, order }) {
        zone.give(Block { at: 0, order });
    }
    for block in zone.blocks() {
        expect_true(&rt, block.order.frames() == 16);
    }
}

// Takes a block of this order. It must begin at this frame, or there must be none.
fn takes_block(rt: &impl Abort, zone: &mut Buddy, order: Order, at: Option<u32>) {
    match zone.take(order) {
        Some(block) => assert!(rt; at == Some(block.at) && block.order == order),
        None => assert!(rt; at == None),
    }
}

// Frees the block, which must be in use.
fn gives_block(rt: &impl Abort, zone: &mut Buddy, block: Block) {
    let given = block;
    assert!(rt; zone.is_in_use(block));
    zone.give(given);
}

// A zone of this many frames.
fn zone_of(rt: &(impl Abort + AllocGlobal), frames: u32) -> Buddy {
    Buddy::new(rt.alloc(), frames).expect(rt, "memory")
}

#[test]
fn sixteen_frames_one_by_one(rt: HostRuntime) {
    let order = order_of(&rt, 0);
    let mut zone = zone_of(&rt, 16);
    for at in 0..16 {
        takes_block(&rt, &mut zone, order, Some(at));
    }
    takes_block(&rt, &mut zone, order, None);
    for at in [7, 0, 12, 3, 15, 8, 1, 14, 6, 9, 2, 11, 5, 10, 4, 13] {
        gives_block(&rt, &mut zone, Block { at, order });
    }
    walks_blocks(&rt, zone.blocks(), &[(4, 0)]);
}
