//! Laws of kills and of reclaim: what each function ensures holds of every victim and all groups that die with it, of
//! every unit that was tried, and of every note.

ghost use Rattle.mem_reclaim.specs.Laws.{BatchesOfOneWantWhatIsMissing, FlaggedGroupsDieWhole, GroupsWithoutShareHaveNoTurn};
ghost use Rattle.mem_reclaim.specs.Laws.{LoneKillsAreNotedAsMade, MissedUnitsWereTried};
ghost use Rattle.mem_reclaim.specs.Laws.{OnlyTheLivingDie, ProtectedGroupsHaveNoTurn, RoundsAreNotedAsMade};
ghost use Rattle.mem_reclaim.specs.Laws.{TheVictimIsOne, TurnsFreeFewMore, TurnsKeepToTheirShare, TurnsLeaveOutNoGroup};
ghost use Rattle.mem_reclaim.specs.Laws.{TurnsOfFramesLeaveMin, VictimsDie};

/// If a group in the subtree of the limited group has memory.oom.group on, it is killed as a whole, or no group of its
/// subtree is killed.
pub fn flagged_groups_die_whole()
    ensures { FlaggedGroupsDieWhole }
{}

/// The victim is among the groups that are killed.
pub fn victims_die()
    ensures { VictimsDie }
{}

/// Only groups of the limited group's subtree that aren't killed yet are killed.
pub fn only_the_living_die()
    ensures { OnlyTheLivingDie }
{}

/// A group has at most one victim: two answers to the question are always the same.
pub fn the_victim_is_one()
    ensures { TheVictimIsOne }
{}

/// No pass takes a page of a group whose usage, when its turn begins, is no more than memory.min protects.
pub fn protected_groups_have_no_turn()
    ensures { ProtectedGroupsHaveNoTurn }
{}

/// A turn frees fewer pages than those that it wants and the largest unit together.
pub fn turns_free_few_more()
    ensures { TurnsFreeFewMore }
{}

/// A turn over single frames leaves what memory.min protects when it begins.
pub fn turns_of_frames_leave_min()
    ensures { TurnsOfFramesLeaveMin }
{}

/// A unit counts as missed only if a freeze of it missed.
pub fn missed_units_were_tried()
    ensures { MissedUnitsWereTried }
{}

/// The note of a round reports the freezes that the round's own steps made.
pub fn rounds_are_noted_as_made()
    ensures { RoundsAreNotedAsMade }
{}

/// The note of a victim that dies alone reports the units that the steps of its kill returned.
pub fn lone_kills_are_noted_as_made()
    ensures { LoneKillsAreNotedAsMade }
{}

/// Each pass, that of shares included, gives each group of the subtree one turn.
pub fn turns_leave_out_no_group()
    ensures { TurnsLeaveOutNoGroup }
{}

/// In the pass of shares a group without a share isn't touched.
pub fn groups_without_share_have_no_turn()
    ensures { GroupsWithoutShareHaveNoTurn }
{}

/// In the pass of shares a turn frees fewer pages than the group's share and the largest unit together.
pub fn turns_keep_to_their_share()
    ensures { TurnsKeepToTheirShare }
{}

/// Rounds that have to want at least one page want just the pages that are missing.
pub fn batches_of_one_want_what_is_missing()
    ensures { BatchesOfOneWantWhatIsMissing }
{}
