//! How a zone differs from one that is booted without any choice.

ghost use Rattle.std.specs.Prelude.{◌↔◌, IsTrue};

use group_tree::group::MAX_GROUPS;

/// The choices of a boot: how the zone reclaims, whether it kills, and how many groups it has room for.
#[derive(Clone, Copy, Debug, PartialEq, Eq)]
pub struct Choices {
    /// Whether a reclaim begins with a pass of shares: each group gives back pages in proportion to its clean pages.
    pub is_proportional: bool,
    /// Whether no group is killed: a charge that finds no room even after reclaim is refused, whatever its order, and a
    /// limit that is written below the usage may stay below it.
    pub is_no_kill: bool,
    /// The fewest pages that a round of reclaim wants if a limit has no room for a charge: 1 to 64. Linux wants 32
    /// (`SWAP_CLUSTER_MAX`).
    pub reclaim_batch: u32,
    /// How many groups may exist at once, the root included: 1 to 1,024.
    pub groups: u32,
}

impl Choices {
    ghost use Rattle.zone_blocks.specs.Config.{AreValidChoices};

    /// The choices of a boot that makes none.
    pub const NONE: Choices = Choices {
        is_proportional: false,
        is_no_kill: false,
        reclaim_batch: 1,
        groups: 64,
    };

    /// The most pages that a round may have to want.
    pub const MAX_RECLAIM_BATCH: u32 = 64;

    /// The most groups that a zone may have room for.
    pub const MAX_GROUPS: u32 = MAX_GROUPS as u32;

    /// Whether every choice is in its range.
    pub fn is_valid(&self) -> bool
        ensures { IsTrue result ↔ AreValidChoices self.now }
    {
        1 <= self.reclaim_batch
            && self.reclaim_batch <= Choices::MAX_RECLAIM_BATCH
            && 1 <= self.groups
            && self.groups <= Choices::MAX_GROUPS
    }
}
