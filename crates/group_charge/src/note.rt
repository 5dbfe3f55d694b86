//! One note.

use group_tree::group::GroupId;

/// A group that may be killed, and how many frames are charged to it.
#[derive(Clone, Copy, PartialEq, Eq)]
pub struct Candidate {
    pub group: GroupId,
    /// How many frames are charged to the group itself: not those of groups below it, and not those that are fresh at a
    /// CPU.
    pub frames: u64,
}

/// What is noted while pages are reclaimed: for a limit without room, if no frame or block is free, or because they
/// were asked for. The kinds of note follow what Linux's killer writes to the kernel's log. Sizes are in pages of 4,096
/// bytes.
#[derive(Clone, Copy, PartialEq, Eq)]
pub enum Note {
    /// The limit of the group, `max` pages, had no room: `usage` pages were charged in its subtree, and `need` more
    /// were asked for. `need` is 0 if the limit was written.
    Limit {
        group: GroupId,
        max: u32,
        usage: u32,
        need: u32,
    },
    /// `need` more pages would have taken the usage of the group over its memory.high, `high` pages: `usage` pages were
    /// charged in its subtree. `need` is 0 if memory.high was written. Rounds of reclaim from the subtree follow.
    High {
        group: GroupId,
        high: u32,
        usage: u32,
        need: u32,
    },
    /// No block of 2^`order` frames was free: rounds of reclaim from all groups follow.
    Zone {
        order: u32,
    },
    /// `pages` pages were asked for: rounds of reclaim from the group's subtree follow (memory.reclaim).
    Asked {
        group: GroupId,
        pages: u64,
    },
    /// The stock of this CPU, 1 to 64, was drained. It had this many pages, which are no longer charged to their group.
    Stock {
        cpu: u32,
        pages: u32,
    },
    /// Units of the group were reclaimed, one right after the other: their frames are all from `first` to `last`. No
    /// other unit that was freed right before or after them is of the group and adjoins them.
    Reclaimed {
        group: GroupId,
        first: u64,
        last: u64,
    },
    /// A turn of the group in the first pass of a reclaim was cut short or left out: of the `usage` pages charged in its
    /// subtree, memory.min protected `min` and memory.low `low`.
    Spared {
        group: GroupId,
        usage: u32,
        min: u32,
        low: u32,
    },
    /// The third pass freed pages of the group, so its events count one more `low`. When its turn began, `usage` pages
    /// were charged in its subtree; memory.min protected `min` of them and memory.low `low`, which was more.
    Low {
        group: GroupId,
        usage: u32,
        min: u32,
        low: u32,
    },
    /// A round of reclaim ended; the first for a limit is number 1. It freed `returned` units, of `pages` pages in all,
    /// and tried `missed` more. Then `usage` pages are charged in the subtree.
    Round {
        number: u32,
        returned: u64,
        missed: u64,
        pages: u64,
        usage: u32,
    },
    /// Reclaim couldn't keep the limit of the group. Its events count one more `oom`.
    Oom {
        group: GroupId,
    },
    /// This many groups may be killed for the limit and have a frame of their own. This one has the most frames, and
    /// `next` has the most of the others. If there is no other, `next` is the victim.
    Victim {
        victim: Candidate,
        candidates: u32,
        next: Candidate,
    },
    /// The group is killed as a whole, since its memory.oom.group is 1: `groups` groups of its subtree die, and a
    /// `Kill` follows for each of them. Its events count one more `oom_group_kill`.
    GroupKill {
        group: GroupId,
        groups: u32,
    },
    /// The group was killed. `returned` of its kept units were freed, of `pages` pages in all. The other `pinned` units
    /// stay charged, since CPUs have pins on them. `left` frames stay charged to the group itself, and `usage` pages in
    /// the subtree of the group whose limit had no room.
    Kill {
        group: GroupId,
        returned: u64,
        pages: u64,
        pinned: u64,
        left: u64,
        usage: u32,
    },
}
