//! The record of one frame as it is stored: in 12 bytes, less than half of what a `Link` takes.

ghost use Rattle.std.specs.Prelude.{◌≡◌, ◌<◌, IfSome, Some};
ghost use Rattle.lru_lists.specs.Packed.{neighbour_of, link_of, list_on, is_marked_by, is_dirty_by, IsNumber};

use crate::record::{Home, Link, LruList};

/// The number that is stored if there is no neighbour. It is 0, so that the records of a new table are zeros, which are
/// written fastest.
pub const NO_FRAME: u32 = 0;

/// Which of its owner's lists holds a unit. It takes one byte; an `Option<LruList>` would take two.
#[derive(Clone, Copy, PartialEq, Eq)]
pub enum OnList {
    /// Neither list.
    Neither,
    /// The inactive list.
    Inactive,
    /// The active list.
    Active,
}

/// Two flags of a unit in one byte: with two of `bool` the record would take 16 bytes.
#[derive(Clone, Copy, PartialEq, Eq)]
pub enum Flags {
    /// Neither marked nor dirty.
    Clean,
    /// Touched once since it joined the inactive list.
    Marked,
    /// Its pages are dirty.
    Dirty,
    /// Both.
    MarkedDirty,
}

/// The record of one frame, packed.
#[derive(Clone, Copy, PartialEq, Eq)]
pub struct Packed {
    /// One more than the unit just before it on the list, or `NO_FRAME`.
    pub older: u32,
    /// One more than the unit just after it on the list, or `NO_FRAME`.
    pub newer: u32,
    /// The owner of the list that holds the unit, if one does.
    pub owner: u16,
    /// Which of the owner's lists holds it.
    pub list: OnList,
    /// Whether it was touched once since it joined the inactive list, and whether its pages are dirty.
    pub flags: Flags,
}

impl OnList {
    /// The variant for this list.
    #[inline]
    pub fn of(list: LruList) -> OnList
        ensures { list_on result ≡ Some list }
    {
        match list {
            LruList::Inactive => OnList::Inactive,
            LruList::Active => OnList::Active,
        }
    }

    /// The list, or None for neither.
    #[inline]
    pub fn list(self) -> Option<LruList>
        ensures { result ≡ list_on self }
    {
        match self {
            OnList::Neither => None,
            OnList::Inactive => Some(LruList::Inactive),
            OnList::Active => Some(LruList::Active),
        }
    }
}

impl Flags {
    /// The variant for these two flags.
    #[inline]
    pub fn of(is_marked: bool, is_dirty: bool) -> Flags
        ensures marked { is_marked_by result ≡ is_marked }
        ensures dirty { is_dirty_by result ≡ is_dirty }
    {
        match (is_marked, is_dirty) {
            (false, false) => Flags::Clean,
            (true, false) => Flags::Marked,
            (false, true) => Flags::Dirty,
            (true, true) => Flags::MarkedDirty,
        }
    }

    /// Whether the unit was touched once since it joined the inactive list.
    #[inline]
    pub fn is_marked(self) -> bool
        ensures { result ≡ is_marked_by self }
    {
        match self {
            Flags::Marked | Flags::MarkedDirty => true,
            Flags::Clean | Flags::Dirty => false,
        }
    }

    /// Whether the unit's pages are dirty.
    #[inline]
    pub fn is_dirty(self) -> bool
        ensures { result ≡ is_dirty_by self }
    {
        match self {
            Flags::Dirty | Flags::MarkedDirty => true,
            Flags::Clean | Flags::Marked => false,
        }
    }
}

/// The number that is stored for a neighbour.
#[inline]
pub fn number(unit: Option<u32>) -> u32
    requires { IsNumber unit }
    ensures { neighbour_of result ≡ unit }
{
    match unit {
        None => NO_FRAME,
        Some(frame) => frame + 1,
    }
}

/// The neighbour for which a number is stored.
#[inline]
pub fn unit(number: u32) -> Option<u32>
    ensures { result ≡ neighbour_of number }
{
    if number == NO_FRAME {
        None
    } else {
        Some(number - 1)
    }
}

impl Packed {
    /// The record of a frame on no list.
    pub const NOWHERE: Packed = Packed {
        older: NO_FRAME,
        newer: NO_FRAME,
        owner: 0,
        list: OnList::Neither,
        flags: Flags::Clean,
    };

    /// Packs a record.
    #[inline]
    pub fn of(link: Link) -> Packed
        requires older { IsNumber link.older }
        requires newer { IsNumber link.newer }
        ensures { link_of result ≡ link }
    {
        let (owner, list) = match link.home {
            Some(home) => (home.owner, OnList::of(home.list)),
            None => (0, OnList::Neither),
        };
        Packed {
            older: number(link.older),
            newer: number(link.newer),
            owner,
            list,
            flags: Flags::of(link.is_marked, link.is_dirty),
        }
    }

    /// The home in the packed record.
    #[inline]
    pub fn home(self) -> Option<Home>
        ensures { result ≡ (link_of self).home }
    {
        let owner = self.owner;
        let list = self.list.list()?;
        Some(Home { owner, list })
    }

    /// The record that this one packs.
    #[inline]
    pub fn link(self) -> Link
        ensures { result ≡ link_of self }
    {
        Link {
            home: self.home(),
            older: unit(self.older),
            newer: unit(self.newer),
            is_marked: self.flags.is_marked(),
            is_dirty: self.flags.is_dirty(),
        }
    }
}
