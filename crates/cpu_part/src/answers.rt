//! What the fast calls answer.
use frame_word::Frame;

/// What an `alloc_fast` answers.
#[derive(Clone, Copy, PartialEq, Eq, Debug)]
pub enum Fast {
    /// The front of the list is now the newest fresh frame, and its page is paid.
    Got(Frame),
    /// There are 32 fresh frames: a visit settles them.
    FreshFull,
    /// No frame is on the list: a visit refills it.
    ListEmpty,
    /// The CPU's stock is of another group, or of none.
    OtherGroup,
    /// The CPU's stock was drained and not filled since.
    Drained,
    /// The CPU's stock has no page.
    NoStock,
}

/// What a `drop_fresh` answers.
#[derive(Clone, Copy, PartialEq, Eq, Debug)]
pub enum Dropped {
    /// The page is in the stock again, and the frame is at the end of the list.
    Listed,
    /// The stock was drained and not filled since: a visit settles the frame.
    NeedVisit,
}
