//! What a CPU or the zone's own seat may ask of the core, and what it is answered.

ghost use Rattle.std.specs.Prelude.{◌≡◌};
ghost use Rattle.step_rules.specs.Events.{event_key};

use group_tree::event::EventKey;
use group_tree::group::GroupId;
use group_tree::path::PathText;
use zone_blocks::block::Block;
use zone_blocks::order::Order;

/// Where a frame is.
#[derive(Clone, Copy, PartialEq, Eq)]
pub enum FramePlace {
    /// In the zone's free areas.
    Free,
    /// Lent to this CPU: on its list, or in transit to or from it.
    LentTo(u32),
    /// Kept by this group: the group and each of its ancestors are charged for it.
    Charged(GroupId),
}

/// One step of the core, and the seat that makes it. Seat 0 is the zone's own, which acts only while a CPU holds the
/// lock. Seats from 1 on are those of the CPUs.
#[derive(Clone, Copy)]
pub struct Step {
    /// The seat's number. A number that isn't a seat's makes the step illegal.
    pub seat: u32,
    /// What is done.
    pub action: Action,
}

/// The events that are noted by a step of their own.
#[derive(Clone, Copy, PartialEq, Eq)]
pub enum NoteKey {
    /// A third pass of reclaim freed pages of the group, of which memory.low protects more than memory.min.
    Low,
    /// The usage of the group was about to go over its memory.high.
    High,
    /// The usage of the group was about to go over its limit.
    Max,
    /// Reclaim could not keep the group's limit.
    Oom,
}

impl NoteKey {
    /// The key that counts the event.
    pub fn event(self) -> EventKey
        ensures { result ≡ event_key self }
    {
        match self {
            NoteKey::Low => EventKey::Low,
            NoteKey::High => EventKey::High,
            NoteKey::Max => EventKey::Max,
            NoteKey::Oom => EventKey::Oom,
        }
    }
}

/// What a step does. A step that names a frame or CPU that doesn't exist is illegal. So is one, other than Consume,
/// that names a group that doesn't exist.
#[derive(Clone, Copy)]
pub enum Action {
    /// A CPU takes the zone's lock, which is free.
    Lock,
    /// The CPU that holds the lock releases it: no page is pending, no frame is in transit, no visit is open.
    Unlock,
    /// The zone opens a visit of the CPU that holds the lock.
    OpenVisit {
        cpu: u32,
    },
    /// The zone shuts that visit: no frame is in transit, and no page of the CPU is unreported or unabsorbed.
    ShutVisit {
        cpu: u32,
    },
    /// A CPU whose pins and back frames are below 256 asks for one more reference.
    Get {
        frame: u32,
    },
    /// A seat gives up one of its references.
    Put {
        frame: u32,
    },
    /// The zone removes all references on a frame at once, if they are its own and as many as it says.
    Freeze {
        frame: u32,
        count: u32,
    },
    /// The zone puts 1 to 255 references on the head of a charged unit that is in its hand.
    Unfreeze {
        frame: u32,
        count: u32,
    },
    /// The zone passes a free frame to the CPU that is visited.
    PassOut {
        frame: u32,
        cpu: u32,
    },
    /// The CPU takes a frame that is in transit to it, and puts it at the end of its list.
    TakeIn {
        frame: u32,
    },
    /// The visited CPU passes back the front of its list, a fresh frame or a back frame.
    PassBack {
        frame: u32,
    },
    /// The zone takes a frame that was passed back.
    Collect {
        frame: u32,
        cpu: u32,
    },
    /// A CPU, with fewer than 32 fresh frames, pays for the front of its list from its stock, for a group.
    Consume {
        group: GroupId,
    },
    /// A CPU puts a fresh frame back at the end of its list, and its page into its stock.
    Credit {
        frame: u32,
    },
    /// The visited CPU reports this many of the pages of the fresh frames that it passed back.
    Report {
        pages: u32,
    },
    /// The zone takes the pages that the visited CPU reported off the CPU's book.
    Absorb {
        cpu: u32,
    },
    /// The zone fills the visited CPU's stock, which has no page, with pending pages of a group. That is the group of
    /// the CPU's book, or any group if the book is 0.
    Fill {
        cpu: u32,
        group: GroupId,
        pages: u32,
    },
    /// The zone removes all pages from a CPU's stock; they are pending then.
    DrainStock {
        cpu: u32,
    },
    /// Pages are granted to a group that isn't killed, if the limits of the group and of each ancestor have room for
    /// all of them. They are pending then.
    Grant {
        group: GroupId,
        pages: u32,
    },
    /// Pending pages of a group are ungranted, at most as many as it has.
    Ungrant {
        group: GroupId,
        pages: u32,
    },
    /// Pending pages, as many as the block has frames, are placed on a free block. The group keeps its frames from then
    /// on.
    PlaceBlock {
        group: GroupId,
        order: Order,
    },
    /// The zone keeps the head of a charged unit, on which it has a reference, for the unit's group.
    Publish {
        frame: u32,
    },
    /// The frames of a unit in the zone's hand are returned. The last reference of the unit was dropped, or it is a
    /// fresh frame that was passed back and collected, and its group is killed by now.
    Return {
        frame: u32,
    },
    /// Notes an event of a group.
    Note {
        key: NoteKey,
        group: GroupId,
    },
    /// Notes that a group other than the root was killed as a whole, with all groups below it.
    NoteGroupKill {
        group: GroupId,
    },
    /// A group other than the root gets another limit, in pages, or None for no limit. It binds only later grants.
    SetMax {
        group: GroupId,
        limit: Option<u32>,
    },
    /// The flag of a group other than the root is set: whether it is killed as a whole. Only later kills read it.
    SetFlag {
        group: GroupId,
        oom_group: bool,
    },
    /// A group is made, unless the tree refuses it (`Tree::make_fault`).
    Make {
        path: PathText,
    },
    /// A group other than the root is removed, which has no child and whose usage is 0.
    Remove {
        group: GroupId,
    },
    /// A group that isn't killed is killed: it gets no more grants.
    Kill {
        group: GroupId,
    },
}

/// What a step is answered.
#[derive(Clone, Copy, PartialEq, Eq)]
pub enum Answer {
    /// The step is not legal, and changed nothing.
    Illegal,
    /// The step was made.
    Done,
    /// The reference was given: there were 1 to 254.
    Held,
    /// No reference was given: there was none.
    Zero,
    /// No reference was given: there were 255.
    Full,
    /// This many references are left.
    Left(u32),
    /// It was the last reference, and the frame is in the seat's hand.
    Last,
    /// The references were not exactly this many.
    Missed,
    /// One page was taken from the stock, and the front of the list is fresh.
    Took,
    /// The stock is of that group, and has no page.
    Empty,
    /// The stock isn't of that group.
    OtherGroup,
    /// The stock was drained.
    Drained,
    /// The page was put back into the stock.
    Stocked,
    /// This many pages were absorbed, or drained.
    Pages(u128),
    /// The pages were granted.
    Granted,
    /// The lowest group on the path whose limit has no room for the pages. Nothing was granted.
    Over(GroupId),
    /// The block on which the pages were placed.
    Placed(Block),
    /// There is no free block of that order.
    NoFreeBlock,
    /// The number of the group that was made.
    Number(GroupId),
}
