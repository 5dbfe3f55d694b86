//! The record of one frame: the list that holds it, and its two neighbours on that list.

/// One of a group's two lists.
#[derive(Clone, Copy, PartialEq, Eq)]
pub enum LruList {
    /// Units that reclaim tries first.
    Inactive,
    /// Units that were used again.
    Active,
}

/// The list that holds a unit: its owner, and which of the owner's two.
#[derive(Clone, Copy, PartialEq, Eq)]
pub struct Home {
    /// The number of the owner of both lists, such as a group's.
    pub owner: u16,
    /// Which of the owner's lists.
    pub list: LruList,
}

/// The record of one frame.
#[derive(Clone, Copy, PartialEq, Eq)]
pub struct Link {
    /// The list that holds the unit, or None.
    pub home: Option<Home>,
    /// The unit just before it on the list.
    pub older: Option<u32>,
    /// The unit just after it on the list.
    pub newer: Option<u32>,
    /// Whether the unit was touched once since it joined the inactive list.
    pub is_marked: bool,
    /// Whether its pages are dirty.
    pub is_dirty: bool,
}

/// A unit on a list.
#[derive(Clone, Copy, PartialEq, Eq)]
pub struct Entry {
    /// The number of the unit: that of its first frame.
    pub number: u32,
    /// Whether the unit was touched once since it joined the inactive list.
    pub is_marked: bool,
    /// Whether its pages are dirty.
    pub is_dirty: bool,
}

impl Link {
    /// The record of a frame on no list.
    pub const NOWHERE: Link = Link {
        home: None,
        older: None,
        newer: None,
        is_marked: false,
        is_dirty: false,
    };
}
