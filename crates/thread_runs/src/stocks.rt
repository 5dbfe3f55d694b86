//! The words of stocks, as numbers.
use crate::systems::expect_true;
use stock_word::Stock;

#[test]
fn a_stock_is_its_word(rt: HostRuntime) {
    let full = Stock::HeldBy { group: 1, pages: 4 };
    let paid = Stock::HeldBy { group: 1, pages: 3 };
    let drained = Stock::DrainedOf { group: 1 };
    expect_true(&rt, Stock::NoGroup.word() == 0);
    expect_true(&rt, full.word() == 131_076);
    expect_true(&rt, paid.word() == 131_075);
    expect_true(&rt, drained.word() == 4_295_098_368);
}
