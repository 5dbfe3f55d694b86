//! How many units ended, were freed, or were missed.

ghost use Rattle.std.specs.Prelude.{◌≡◌};
ghost use Rattle.mem_machine.specs.Counts.{with_last_put, with_freeze, with_killed_fresh, with_miss};

/// How many units ended, were freed, or were missed since the boot. A count stays at 2^64 - 1. The returns are the last
/// puts, freezes and killed fresh frames together, or 2^64 - 1 if that is less.
#[derive(Clone, Copy)]
pub struct Counts {
    /// The last puts: those of the zone itself, and those of CPUs, counted when the CPU is settled.
    pub last_puts: u64,
    /// The freezes that took a unit out of use.
    pub freezes: u64,
    /// The fresh frames of killed groups that were freed.
    pub killed_fresh: u64,
    /// The units that were freed.
    pub returns: u64,
    /// The freezes that missed, because someone else had a reference.
    pub misses: u64,
}

impl Counts {
    // One more unit that was freed after its last put.
    pub(crate) fn with_last_put(self) -> Counts
        ensures { result ≡ with_last_put self }
    {
        Counts {
            last_puts: self.last_puts.saturating_add(1),
            returns: self.returns.saturating_add(1),
            ..self
        }
    }

    // One more unit that was frozen and freed.
    pub(crate) fn with_freeze(self) -> Counts
        ensures { result ≡ with_freeze self }
    {
        Counts {
            freezes: self.freezes.saturating_add(1),
            returns: self.returns.saturating_add(1),
            ..self
        }
    }

    // One more fresh frame of a killed group that was freed.
    pub(crate) fn with_killed_fresh(self) -> Counts
        ensures { result ≡ with_killed_fresh self }
    {
        Counts {
            killed_fresh: self.killed_fresh.saturating_add(1),
            returns: self.returns.saturating_add(1),
            ..self
        }
    }

    // One more freeze that missed.
    pub(crate) fn with_miss(self) -> Counts
        ensures { result ≡ with_miss self }
    {
        Counts {
            misses: self.misses.saturating_add(1),
            ..self
        }
    }
}
