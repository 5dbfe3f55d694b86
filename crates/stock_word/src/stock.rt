//! What a stock word says.

// How much a group counts in a word. The pages are below it.
const GROUP: u64 = 1 << 16;

// The word of a drained stock is this or more.
const DRAINED: u64 = 1 << 32;

/// What a CPU has prepaid. Groups are numbers below `MAX_GROUPS` of `group_tree`.
#[derive(Clone, Copy, Debug, PartialEq, Eq)]
pub enum Stock {
    /// No group yet: the stock was never filled.
    NoGroup,
    /// This many pages, 0 to 65,535, are prepaid for the group.
    HeldBy { group: u32, pages: u32 },
    /// The stock of the group was drained, and stays drained until a fill.
    DrainedOf { group: u32 },
}

impl Stock {
    ghost use Rattle.std.specs.Prelude.{◌≡◌};
    ghost use Rattle.stock_word.specs.declared.stock.Stock.{Stock};
    ghost use Rattle.stock_word.specs.Stock.{word_of, HasWord, stock_pages_of, group_of};

    /// The word that encodes this stock in the table.
    pub fn word(self) -> u64
        ensures { result ≡ word_of self }
    {
        match self {
            Stock::NoGroup => 0,
            Stock::HeldBy { group, pages } => (u64::from(group) + 1) * GROUP + u64::from(pages),
            Stock::DrainedOf { group } => DRAINED + (u64::from(group) + 1) * GROUP,
        }
    }

    /// The stock that a word encodes. The contract says nothing of a word that encodes no stock.
    pub fn of_word(word: u64) -> Stock
        ensures { (stock : Stock) → HasWord stock → word ≡ word_of stock → result ≡ stock }
    {
        let code = (word % DRAINED) / GROUP;
        if code == 0 {
            return Stock::NoGroup;
        }
        let group = (code - 1) as u32;
        if word < DRAINED {
            let pages = (word % GROUP) as u32;
            Stock::HeldBy { group, pages }
        } else {
            Stock::DrainedOf { group }
        }
    }

    /// The group of the stock; None for a stock of no group.
    pub fn group(self) -> Option<u32>
        ensures { result ≡ group_of self }
    {
        match self {
            Stock::NoGroup => None,
            Stock::HeldBy { group, pages: _ } | Stock::DrainedOf { group } => Some(group),
        }
    }

    /// The pages in the stock.
    pub fn pages(self) -> u32
        ensures { result ≡ stock_pages_of self }
    {
        match self {
            Stock::HeldBy { group: _, pages } => pages,
            Stock::NoGroup | Stock::DrainedOf { group: _ } => 0,
        }
    }
}
