//! A walk over free blocks next to the expected blocks.

use crate::calls::expect_true;
use std::process::Abort;
use zone_blocks::order::Order;
use zone_blocks::walk::Walk;

/// The order of this exponent, which must be valid.
pub fn order_of(rt: &impl Abort, exponent: u32) -> Order {
    Order::of(exponent).expect(rt, "an order")
}

/// The blocks of a walk must be these, as pairs of order and address.
pub fn walks_blocks(rt: &impl Abort, walk: Walk<'_>, pairs: &[(u32, u32)]) {
    let mut rest = pairs.iter();
    for block in walk {
        let (exponent, at) = rest.next().copied().unwrap_or((11, 0));
        expect_true(rt, block.order.exponent() == exponent);
        expect_true(rt, block.at == at);
    }
    expect_true(rt, rest.next().is_none());
}
