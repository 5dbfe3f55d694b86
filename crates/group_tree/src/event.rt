//! The events that the controller counts for each group, and their counts.

ghost use Rattle.std.specs.Prelude.{◌≡◌, ◌<◌};
ghost use Rattle.group_tree.specs.Events.{count_of, key_index, key_name, no_events, with_one_more};

use std::marker::Model;

// The number of kinds of event.
const KEYS: usize = 6;

/// The kinds of event that are counted: the keys of memory.events.
#[derive(Clone, Copy, Debug, PartialEq, Eq)]
pub enum EventKey {
    /// A third pass of reclaim freed pages of a group of which memory.low protects more than memory.min.
    Low,
    /// A charge was about to exceed memory.high.
    High,
    /// A charge was about to exceed the limit.
    Max,
    /// An allocation was about to fail at the limit, and a kill was possible.
    Oom,
    /// A group was killed.
    OomKill,
    /// A group was killed as a whole.
    OomGroupKill,
}

impl EventKey {
    /// All keys, in the order of the lines of memory.events.
    pub const ALL: [EventKey; 6] = [
        EventKey::Low,
        EventKey::High,
        EventKey::Max,
        EventKey::Oom,
        EventKey::OomKill,
        EventKey::OomGroupKill,
    ];

    /// The key, as memory.events writes it.
    pub fn name(self) -> &'static str
        ensures { result.now ≡ key_name self }
    {
        match self {
            EventKey::Low => "low",
            EventKey::High => "high",
            EventKey::Max => "max",
            EventKey::Oom => "oom",
            EventKey::OomKill => "oom_kill",
            EventKey::OomGroupKill => "oom_group_kill",
        }
    }

    // The index of the key's count.
    fn index(self) -> usize
        ensures value { result ≡ key_index self }
        ensures below { result < 6 }
    {
        match self {
            EventKey::Low => 0,
            EventKey::High => 1,
            EventKey::Max => 2,
            EventKey::Oom => 3,
            EventKey::OomKill => 4,
            EventKey::OomGroupKill => 5,
        }
    }
}

/// How often each kind of event happened. A count that reaches 2^64 - 1 stays there.
#[derive(Clone, Copy, Debug, PartialEq, Eq)]
pub struct EventCounts {
    // In the order of `EventKey::ALL`.
    counts: [u64; KEYS],
}

impl Model for EventCounts {
    ghost use Rattle.std.specs.Prelude.{◌≡◌, ℕ, List, length};

    ghost Value = { List ℕ };

    ghost view = { λ c. c.counts };

    ghost invariant = { λ c. length c.counts ≡ 6 };

    ghost inverse = { λ counts. record { counts = counts } };
}

impl EventCounts {
    /// All counts are 0.
    pub fn none() -> EventCounts
        ensures { result ≡ no_events }
    {
        EventCounts { counts: [0; KEYS] }
    }

    /// How often events of this kind happened.
    #[tactic(auto, unfolding(crate::specs::Events::count_of))]
    pub fn count(&self, key: EventKey) -> u64
        ensures { result ≡ count_of self.now key }
    {
        self.counts[key.index()]
    }

    /// The counts after one more event of this kind.
    pub fn with_one_more(self, key: EventKey) -> EventCounts
        ensures { result ≡ with_one_more key self }
    {
        let mut counts = self.counts;
        let index = key.index();
        counts[index] = counts[index].saturating_add(1);
        EventCounts { counts }
    }
}
