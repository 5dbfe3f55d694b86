//! Laws of the rules: what each function ensures holds of every legal run.

ghost use Rattle.step_rules.specs.Promise.{ThePromiseIsKept, EachStepIsPromised};
ghost use Rattle.step_rules.specs.Laws.{OwnStepIsLegal, OtherStepIsHidden};
ghost use Rattle.step_rules.specs.Seen.{AllLegalityIsSeen, LockIsPassedOn, AllIsSeen};
ghost use Rattle.step_rules.specs.Reaches.{LocalRunsInterleave, LocalRunsCompose};
ghost use Rattle.step_rules.specs.Places.{EveryFrameHasOnePlace};
ghost use Rattle.step_rules.specs.Returns.{EveryFrameReturnsOnce, NothingPendsWhileTheLockIsFree};
ghost use Rattle.step_rules.specs.Units.{AllUnitsFollowRun};
ghost use Rattle.step_rules.specs.Live.{AllLiveAreReferenced};
ghost use Rattle.step_rules.specs.Booked.{AllPartsAreBooked};
ghost use Rattle.step_rules.specs.Lent.{FramesAreLentToCpus, FramesPassInVisits, BeginningsAreLegal};
ghost use Rattle.step_rules.specs.Keepers.{AllKeepersAreThere};
ghost use Rattle.step_rules.specs.Peaks.{OnlyGrantsRaiseUsage, PeaksAreKept};
ghost use Rattle.step_rules.specs.Events.{EventsAreCounted};
ghost use Rattle.step_rules.specs.Grants.{NoGrantPassesALimit, PendingIsCounted};
ghost use Rattle.step_rules.specs.Folds.{AllGroupsFollowRun, TheLockFollowsRun, AllPartsFollowRun};
ghost use Rattle.step_rules.specs.Kept.{AllPublishedIsKept};
ghost use Rattle.step_rules.specs.FreeAreas.{AllAreasFollowRun};
ghost use Rattle.step_rules.specs.Current.{AllCurrentFollowsRun};
ghost use Rattle.step_rules.specs.Answers.{AnswersAreDetermined, EveryStepIsAnswered, OnlySeatsAct};
ghost use Rattle.step_rules.specs.Counts.{ReferencesAreCounted, StocksAreCounted, BooksAreCounted};

/// After every legal run that leaves the lock free, what is shown keeps the promise. The free areas are maximal, each
/// frame is in one place, and each memory.current is right. No grant passed a limit, no frame was returned twice for
/// one use, and references were given and dropped as the answers say.
pub fn the_promise_is_kept()
    ensures { ThePromiseIsKept }
{}

/// At every beginning of a legal run, whether the lock is free or not, the next step keeps the limits, returns no frame
/// twice for one use, and counts references as its answer says.
pub fn each_step_is_promised()
    ensures { EachStepIsPromised }
{}

/// While a CPU holds the lock, let it or the zone's seat make a step other than Lock and Unlock. If what the CPU sees
/// makes the step legal and its answer allowed, and the answer agrees with others' counts, then the step is legal.
/// Afterwards the CPU sees what the step makes of what it saw.
pub fn own_step()
    ensures { OwnStepIsLegal }
{}

/// While a CPU holds the lock, no allowed step of another CPU changes what it sees, nor does any step that is answered
/// Illegal.
pub fn other_step()
    ensures { OtherStepIsHidden }
{}

/// While a CPU holds the lock, a step of that CPU or of the zone's seat is legal exactly if it is legal in what the CPU
/// sees. It is answered Illegal exactly if it isn't.
pub fn legality_is_seen()
    ensures { AllLegalityIsSeen }
{}

/// While a CPU holds the lock it sees these as they are: the groups, who is killed, what is pending, each group's
/// usage, which frames are free, and its own part. Of each other CPU it sees the book, as the pages of that CPU's
/// stock.
pub fn all_is_seen()
    ensures { AllIsSeen }
{}

/// A CPU that takes the lock sees the state from then on. If it may release the lock by what it sees, it may release
/// it, and the lock is free then.
pub fn the_lock_is_passed_on()
    ensures { LockIsPassedOn }
{}

/// Let a run show a CPU a local state, and let a list of local steps lead to another one. With any allowed steps of
/// other CPUs between them they make a legal run, which shows the CPU that other state.
pub fn local_runs_interleave()
    ensures { LocalRunsInterleave }
{}

/// A list of local steps that leads to a local state, and one that leads on from there, together are one list of local
/// steps.
pub fn local_runs_compose()
    ensures { LocalRunsCompose }
{}

/// After every legal run each frame of the zone has exactly one place, that of its phase: free, lent to a CPU, or
/// charged to a group.
pub fn every_frame_has_one_place()
    ensures { EveryFrameHasOnePlace }
{}

/// After every legal run each ended use of a frame is closed, except one that is open, and no use ends while one is
/// open. A return that closes no open end is that of a killed group's fresh frame.
pub fn every_frame_returns_once()
    ensures { EveryFrameReturnsOnce }
{}

/// After every legal run that leaves the lock free, no page is pending for any group number and no frame is in transit.
/// The usage of each group is the frames kept and the pages prepaid in its subtree. Each lent frame is once on the list
/// of its CPU and on no other list.
pub fn nothing_pends_while_the_lock_is_free()
    ensures { NothingPendsWhileTheLockIsFree }
{}

/// After every legal run the groups are those of a tree that has room for as many as the zone, with numbers below
/// `MAX_GROUPS`. Each that keeps a frame, has
/// pages in a stock or pending, or has children exists, killed or not. The holder of the lock is a CPU.
pub fn keepers_are_there()
    ensures { AllKeepersAreThere }
{}

/// After a grant that follows a legal run the usage of the group and of each ancestor is at most its limit.
pub fn no_grant_passes_a_limit()
    ensures { NoGrantPassesALimit }
{}

/// A grant raises the usage of the group and of each ancestor by the pages granted, and that of no other group. No
/// other allowed step that follows a legal run raises any usage.
pub fn only_grants_raise_usage()
    ensures { OnlyGrantsRaiseUsage }
{}

/// At boot the root's peak is 0. After each allowed step that follows a legal run: if pages were granted, the peak of
/// the group and of each ancestor is the greater of the old peak and the usage. The peak of a new group is 0, its
/// usage; any other peak is unchanged.
pub fn peaks_are_kept()
    ensures { PeaksAreKept }
{}

/// At boot each count of events is 0. A step that notes an event adds one to the count of its kind, at its group and
/// (in memory.events) at each ancestor. A count stays at 2^64 - 1, and a new group's counts are 0.
pub fn events_are_counted()
    ensures { EventsAreCounted }
{}

/// After every legal run a step has one allowed answer, except that any free block of its order may be placed.
pub fn answers_are_determined()
    ensures { AnswersAreDetermined }
{}

/// After every legal run each step has an allowed answer. So every list of steps makes a legal run.
pub fn every_step_is_answered()
    ensures { EveryStepIsAnswered }
{}

/// After every legal run a step that isn't answered Illegal is made by a CPU, or by the zone's seat while a CPU holds
/// the lock.
pub fn only_seats_act()
    ensures { OnlySeatsAct }
{}

/// After every legal run the pages pending for a group are those granted and drained, less those ungranted, filled and
/// placed.
pub fn pending_is_counted()
    ensures { PendingIsCounted }
{}

/// After every legal run a seat's references on a frame are those it was given, less those it gave up.
pub fn references_are_counted()
    ensures { ReferencesAreCounted }
{}

/// After every legal run the pages of a stock are those filled and credited, less those consumed and drained.
pub fn stocks_are_counted()
    ensures { StocksAreCounted }
{}

/// After every legal run a CPU's book is the pages filled, less those drained and absorbed.
pub fn books_are_counted()
    ensures { BooksAreCounted }
{}

/// After every legal run the limit and the flag of each existing group are the last that it was given since it was
/// made, if any. A group is killed if it was killed since it was made.
pub fn groups_follow_the_run()
    ensures { AllGroupsFollowRun }
{}

/// After every legal run the holder of the lock is the CPU that took it last and hasn't released it. A visit is open if
/// the last one that was opened hasn't been shut.
pub fn the_lock_follows_the_run()
    ensures { TheLockFollowsRun }
{}

/// After every legal run a CPU's list, fresh frames and back frames are those that its steps say, in their order. Its
/// stock is of the group of its last fill, and is drained exactly if a drain followed that fill.
pub fn parts_follow_the_run()
    ensures { AllPartsFollowRun }
{}

/// After every legal run a frame that was published and not returned since heads a charged unit. The unit is at the
/// stage Live or has an open end.
pub fn published_is_kept()
    ensures { AllPublishedIsKept }
{}

/// After every legal run the frames that are free by their phases are those with the place Free. They have one list of
/// maximal free blocks.
pub fn areas_follow_the_run()
    ensures { AllAreasFollowRun }
{}

/// After every legal run a group's usage is the sum of three parts, each counted over the run. These are the frames
/// placed in its subtree; the pages that went into stocks last filled for its subtree, less those that left them; and
/// its pending pages.
pub fn current_follows_the_run()
    ensures { AllCurrentFollowsRun }
{}

/// After every legal run the unit that a frame heads is the one that the run says. A consume makes a unit of one frame,
/// a placed block is a unit of its order, and a credit or a return ends it. A frame is fresh exactly if the run says
/// so.
pub fn units_follow_the_run()
    ensures { AllUnitsFollowRun }
{}

/// After every legal run a frame that isn't live has no reference, and a live one has 1 to 255.
pub fn live_are_referenced()
    ensures { AllLiveAreReferenced }
{}

/// After every legal run each fresh or back frame of a CPU is in its list of those once. There are at most 32 fresh
/// frames, and at most 256 pins and back frames. The book is the pages of the stock, the fresh frames, and the pages
/// unreported and reported; the last two are sums over the run.
pub fn parts_are_booked()
    ensures { AllPartsAreBooked }
{}

/// After every legal run a lent frame is lent to a CPU of the zone.
pub fn frames_are_lent_to_cpus()
    ensures { FramesAreLentToCpus }
{}

/// After every legal run a frame is in transit between the zone and a CPU only while that CPU's visit is open.
pub fn frames_pass_in_visits()
    ensures { FramesPassInVisits }
{}

/// Each beginning of a legal run is a legal run.
pub fn beginnings_are_legal()
    ensures { BeginningsAreLegal }
{}
