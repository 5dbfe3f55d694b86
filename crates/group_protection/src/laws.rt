//! What holds of the effective values of every subtree, and of the shares of every reclaim.

ghost use Rattle.group_protection.specs.Protections.{NothingSetProtectsNothing, ProtectionIsBounded};
ghost use Rattle.group_protection.specs.Protections.{ProtectionPassesDown, UsageAboveEachMinIsNotKept};
ghost use Rattle.group_protection.specs.Breaches.{MinKeepsWhatItProtects};
ghost use Rattle.group_protection.specs.Shares.{SharesAddUp, SharesAreAvailable, SharesAreInProportion, SmallShares};

/// What protects a group follows from what protects its parent, by the kernel's rule.
pub fn protection_passes_down()
    ensures { ProtectionPassesDown }
{}

/// A group gets no more than is set for the group right below the target on its path.
pub fn protection_is_bounded()
    ensures { ProtectionIsBounded }
{}

/// If no group has memory.low or memory.min above 0, nothing is protected.
pub fn nothing_set_protects_nothing()
    ensures { NothingSetProtectsNothing }
{}

/// A group isn't kept if its usage is above each memory.min on its path below the limit.
pub fn usage_above_each_min_is_not_kept()
    ensures { UsageAboveEachMinIsNotKept }
{}

/// Small ledgers, and what memory.min keeps in each.
pub fn min_keeps_what_it_protects()
    ensures { MinKeepsWhatItProtects }
{}

/// All shares together are the pages wanted, or all there are.
pub fn shares_add_up()
    ensures { SharesAddUp }
{}

/// A share is the group's part in proportion to what it may give, rounded up or down.
pub fn shares_are_in_proportion()
    ensures { SharesAreInProportion }
{}

/// A share is at most what the group may give.
pub fn shares_are_available()
    ensures { SharesAreAvailable }
{}

/// Small shares, and who gives what lacks.
pub fn small_shares()
    ensures { SmallShares }
{}
