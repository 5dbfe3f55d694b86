//! Small runs that are checked by evaluation: the table allows every answer of each run, refused steps included.

ghost use Rattle.std.specs.Prelude.{◌≡◌, ◌++◌, true, false, Some};
ghost use Rattle.step_rules.specs.After.{IsLegalRun, state_of};
ghost use Rattle.step_rules.specs.Examples.{small_zone, life_of_a_frame, credited_twice, returned_twice};
ghost use Rattle.step_rules.specs.Examples.{unlocked_too_soon, returned_when_killed, at_the_borders, in_line};
ghost use Rattle.step_rules.specs.Examples.{noted_events, group_comes_and_goes, killed_group_ends, group_killed_whole};
ghost use Rattle.step_rules.specs.Examples.{group_dies_whole, stock_without_a_page, first_visit, hand_over, last_put};
ghost use Rattle.step_rules.specs.Examples.{lock_taken, vain_visit, with_pins, with_back_frames, with_fresh_frames};
ghost use Rattle.step_rules.specs.Legal.{is_legal};
ghost use Rattle.step_rules.specs.Views.{seen_by};
ghost use Rattle.step_rules.specs.Laws.{ShowsLocal};
ghost use Rattle.step_rules.specs.Reaches.{IsLocalRun, own_steps, IsInterleaved};
ghost use Rattle.step_rules.specs.Folds.{flag_given, was_killed};
ghost use Rattle.step_rules.specs.Returns.{awaits_return};
ghost use Rattle.step_rules.specs.Kept.{is_published};
ghost use Rattle.step_rules.specs.Lent.{lent_to};
ghost use Rattle.step_rules.specs.declared.step.Action.TheVariants.{Get, Consume};
ghost use Rattle.group_tree.specs.declared.event.EventKey.TheVariants.{Low, High, Max, Oom, OomKill, OomGroupKill};
ghost use Rattle.step_rules.specs.Events.{events_in, events_local_in};
ghost use Rattle.step_rules.specs.declared.phase.Phase.TheVariants.{InZone};
ghost use Rattle.step_rules.specs.declared.phase.Hold.TheVariants.{Unheld};

/// The life of a frame, in 29 steps of two CPUs and the zone: lent, consumed, handed over, kept, pinned by another CPU,
/// put there last, handed back and returned. At its end the lock and the frame are free.
pub fn the_life_of_a_frame_is_legal()
    ensures legal { IsLegalRun small_zone life_of_a_frame }
    ensures frame_free { (state_of small_zone life_of_a_frame).phases 0 ≡ InZone }
    ensures lock_free { (state_of small_zone life_of_a_frame).hold ≡ Unheld }
{}

/// A frame that was credited is not credited again: the second credit is answered Illegal.
pub fn a_second_credit_is_illegal()
    ensures { IsLegalRun small_zone credited_twice }
{}

/// A unit that was returned and placed again isn't returned a second time for the first end: the second return is
/// answered Illegal.
pub fn a_second_return_is_illegal()
    ensures { IsLegalRun small_zone returned_twice }
{}

/// The lock isn't released while pages are pending.
pub fn an_early_unlock_is_illegal()
    ensures { IsLegalRun small_zone unlocked_too_soon }
{}

/// A fresh frame that the zone collected is returned without a last put only if its group is killed. The return is
/// answered Illegal before the kill, and Done after it.
pub fn a_killed_groups_fresh_frame_is_returned()
    ensures legal { IsLegalRun small_zone returned_when_killed }
    ensures frame_free { (state_of small_zone returned_when_killed).phases 0 ≡ InZone }
{}

/// A frame gets at most 255 references, and none is given on one that has none. A freeze takes all references or none.
/// The root gets no limit, a killed group gets no page, and a group is killed once.
pub fn counts_and_kills_stop_at_their_borders()
    ensures { IsLegalRun small_zone at_the_borders }
{}

/// A CPU passes back only the front of its list, and the zone publishes only a frame that it has a reference on.
pub fn only_the_front_passes_back()
    ensures { IsLegalRun small_zone in_line }
{}

/// Each kind of event is counted at the group at which it is noted: two of `oom`, and one of each other kind.
pub fn notes_are_counted()
    ensures legal { IsLegalRun small_zone noted_events }
    ensures low { (events_in Low small_zone noted_events 0 ≡ 1) × (events_local_in Low small_zone noted_events 0 ≡ 1) }
    ensures high { (events_in High small_zone noted_events 0 ≡ 1)
        × (events_local_in High small_zone noted_events 0 ≡ 1) }
    ensures max { (events_in Max small_zone noted_events 0 ≡ 1) × (events_local_in Max small_zone noted_events 0 ≡ 1) }
    ensures oom { (events_in Oom small_zone noted_events 0 ≡ 2) × (events_local_in Oom small_zone noted_events 0 ≡ 2) }
    ensures oom_kill { (events_in OomKill small_zone noted_events 0 ≡ 1)
        × (events_local_in OomKill small_zone noted_events 0 ≡ 1) }
{}

/// The limit of the parent bounds the pages of a group: a grant over it names the parent, and it may be set below the
/// usage. A group is removed once it has no child and no usage, killed or not. A new group gets its number, with none
/// of its counts. What is noted at a group also counts for its ancestors.
pub fn a_group_comes_and_goes()
    ensures legal { IsLegalRun small_zone group_comes_and_goes }
    ensures killed { was_killed group_comes_and_goes 2 ≡ false }
    ensures above { (events_in Oom small_zone group_comes_and_goes 1 ≡ 1)
        × (events_local_in Oom small_zone group_comes_and_goes 1 ≡ 0) }
    ensures anew { (events_in Oom small_zone group_comes_and_goes 2 ≡ 0)
        × (events_in OomKill small_zone group_comes_and_goes 2 ≡ 0) }
    ensures noted { (events_in Max small_zone group_comes_and_goes 0 ≡ 1)
        × (events_local_in Max small_zone group_comes_and_goes 2 ≡ 1) }
{}

/// A killed group gets no more pages, and those pending for it are placed or ungranted. Events are noted at it and its
/// limit is set. It is removed once it has no child and no usage.
pub fn a_killed_group_ends()
    ensures { IsLegalRun small_zone killed_group_ends }
{}

/// The flag of a group is set; the root's can't be. A kill as a whole is counted once, at that group and its ancestors;
/// each single kill is counted too. A new group with its number has neither the flag nor the count.
pub fn a_group_dies_whole()
    ensures legal { IsLegalRun small_zone group_dies_whole }
    ensures flag { (flag_given group_killed_whole 1 ≡ true) × (flag_given group_killed_whole 2 ≡ false) }
    ensures at_group { (events_local_in OomGroupKill small_zone group_killed_whole 1 ≡ 1)
        × (events_local_in OomGroupKill small_zone group_killed_whole 2 ≡ 0) }
    ensures above { (events_in OomGroupKill small_zone group_killed_whole 0 ≡ 1)
        × (events_in OomKill small_zone group_killed_whole 0 ≡ 2) }
    ensures anew { (flag_given group_dies_whole 1 ≡ false)
        × (events_local_in OomGroupKill small_zone group_dies_whole 1 ≡ 0) }
{}

/// A stock pays only for its own group, for as many frames as it has pages, and for none once it is drained. If no
/// frame is free, none is placed.
pub fn a_stock_pays_once()
    ensures { IsLegalRun small_zone stock_without_a_page }
{}

/// In that life the frame is lent to CPU 1 after the first visit. It is published from the hand-over until it is
/// returned, and its last reference is gone from the last put until then.
pub fn a_frame_is_lent_published_and_gone()
    ensures lent { lent_to ((state_of small_zone first_visit).phases 0) ≡ Some 1 }
    ensures published { (is_published (first_visit ++ hand_over) 0 ≡ true) × (is_published life_of_a_frame 0 ≡ false) }
    ensures not_awaited { awaits_return (first_visit ++ hand_over) 0 ≡ false }
    ensures awaited { (awaits_return (first_visit ++ hand_over ++ last_put) 0 ≡ true)
        × (awaits_return life_of_a_frame 0 ≡ false) }
{}

/// The CPU that holds the lock and the zone's seat make local steps, with steps of others between them. The visit is
/// shown to that CPU as if it and the zone had been alone.
pub fn a_visit_is_local()
    ensures before { ShowsLocal small_zone lock_taken 1 (seen_by 1 (state_of small_zone lock_taken)) }
    ensures local { IsLocalRun 1 (seen_by 1 (state_of small_zone lock_taken)) (own_steps 1 vain_visit)
        (seen_by 1 (state_of small_zone lock_taken)) }
    ensures between { IsInterleaved small_zone lock_taken 1 vain_visit }
    ensures after { ShowsLocal small_zone (lock_taken ++ vain_visit) 1 (seen_by 1 (state_of small_zone lock_taken)) }
{}

/// A CPU gets a reference only if its pins and back frames are below 256. It pays for a frame only if fewer than 32 are
/// fresh.
pub fn pins_and_fresh_frames_are_bounded()
    ensures pins { (is_legal (with_pins 255) 1 (Get 1) ≡ true) × (is_legal (with_pins 256) 1 (Get 1) ≡ false) }
    ensures back { (is_legal (with_back_frames 255) 1 (Get 1) ≡ true)
        × (is_legal (with_back_frames 256) 1 (Get 1) ≡ false) }
    ensures fresh { (is_legal (with_fresh_frames 31) 1 (Consume 0) ≡ true)
        × (is_legal (with_fresh_frames 32) 1 (Consume 0) ≡ false) }
{}
