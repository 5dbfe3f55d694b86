//! What `get` and `put` answer.

/// What a `get` answers.
#[derive(Clone, Copy, PartialEq, Eq, Debug)]
pub enum Get {
    /// The seat has one reference more.
    Held,
    /// No seat had a reference: the frame is in a hand, or in transit.
    Zero,
    /// The exchange found this word and not the one that the load saw: another seat changed it in between. Try again.
    Raced(u64),
    /// The frame has 255 references already.
    Full,
}

/// What a `put` answers.
#[derive(Clone, Copy, PartialEq, Eq, Debug)]
pub enum Put {
    /// This many references are left to all seats, at least one.
    Left(u64),
    /// That was the last reference. The frame is in the seat's hand now, as its own.
    Last,
}
