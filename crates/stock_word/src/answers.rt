//! What `consume` and `credit` answer.

/// What a `consume` found.
#[derive(Clone, Copy, Debug, PartialEq, Eq)]
pub enum Consume {
    /// The CPU took a page of the stock.
    Took,
    /// The stock has no page.
    Empty,
    /// The stock is of another group, or of none.
    OtherGroup,
    /// The stock was drained and not filled since.
    Drained,
}

/// What a `credit` found.
#[derive(Clone, Copy, Debug, PartialEq, Eq)]
pub enum Credit {
    /// The page is in the stock again.
    Stocked,
    /// The stock was drained and not filled since. The page stays with the CPU.
    Drained,
}
