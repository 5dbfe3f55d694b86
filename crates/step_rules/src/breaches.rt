//! What breaks the promise: runs and shown states, each wrong in one thing. So each field of the promise says
//! something.

ghost use Rattle.std.specs.Prelude.{[]};
ghost use Rattle.step_rules.specs.declared.step.Action.TheVariants.{Get, Put, Freeze};
ghost use Rattle.step_rules.specs.declared.step.Answer.TheVariants.{Done, Held, Zero, Full, Left, Last};
ghost use Rattle.step_rules.specs.After.{IsLegalRun, state_of, cpu_makes, zone_makes};
ghost use Rattle.step_rules.specs.Examples.{small_zone, life_of_a_frame};
ghost use Rattle.step_rules.specs.Promise.{IsShown, Promise};
ghost use Rattle.step_rules.specs.Breaches.{BreaksPromise, past_a_limit, granted_when_killed, returned_unused};
ghost use Rattle.step_rules.specs.Breaches.{returned_in_use, returned_in_no_unit, returned_again, credited_again};
ghost use Rattle.step_rules.specs.Breaches.{credited_in_use, consumed_nothing, consumed_in_a_unit, placed_on_a_tail};
ghost use Rattle.step_rules.specs.Breaches.{placed_smaller, placed_in_use, placed_ended, placed_for_nobody};
ghost use Rattle.step_rules.specs.Breaches.{given_after_the_last, put_after_the_last, frozen_after_the_last};
ghost use Rattle.step_rules.specs.Breaches.{unfrozen_in_no_unit, unfrozen_in_use, kept_run, shown_rightly};
ghost use Rattle.step_rules.specs.Breaches.{MiscountsReferences, referred_twice, referred_by_one, never_referred};
ghost use Rattle.step_rules.specs.Breaches.{referred_fully, given_in_no_unit, IsShownWrongly, seen_nowhere, seen_twice};
ghost use Rattle.step_rules.specs.Breaches.{listed_twice, listed_by_nobody, kept_in_no_unit, seen_beyond};
ghost use Rattle.step_rules.specs.Breaches.{prepaid_for_nobody, prepaid_left_out, no_group_seen, group_too_many};
ghost use Rattle.step_rules.specs.Breaches.{limit_never_set, IsWrongAfter, shown_free, parted_areas, prepaid_by_nobody};
ghost use Rattle.step_rules.specs.Breaches.{prepaid_for_no_group, granted_and_lost, lost_in_number};

/// A grant that passes the limit of an ancestor breaks the promise. A grant to a killed group breaks it too.
pub fn a_grant_past_a_limit_breaks_the_promise()
    ensures limit { BreaksPromise past_a_limit }
    ensures killed { BreaksPromise granted_when_killed }
{}

/// A return breaks the promise if the last reference wasn't dropped, if a reference is left, if the frame heads no
/// unit, or if it is the second return for one end. A credit breaks it if it is the second one, or if a seat refers to
/// the frame.
pub fn a_return_out_of_turn_breaks_the_promise()
    ensures unused { BreaksPromise returned_unused }
    ensures in_use { BreaksPromise returned_in_use }
    ensures in_no_unit { BreaksPromise returned_in_no_unit }
    ensures again { BreaksPromise returned_again }
    ensures credited_again { BreaksPromise credited_again }
    ensures credited_in_use { BreaksPromise credited_in_use }
{}

/// A frame is paid for only from a list. It is paid for, or placed, only while it is in no use. A block is placed only
/// with the order asked for, and for a group that exists.
pub fn a_second_use_breaks_the_promise()
    ensures nothing { BreaksPromise consumed_nothing }
    ensures in_a_unit { BreaksPromise consumed_in_a_unit }
    ensures on_a_tail { BreaksPromise placed_on_a_tail }
    ensures smaller { BreaksPromise placed_smaller }
    ensures in_use { BreaksPromise placed_in_use }
    ensures ended { BreaksPromise placed_ended }
    ensures for_nobody { BreaksPromise placed_for_nobody }
{}

/// After the last reference was dropped no reference is given, dropped as the last or frozen. First references are put
/// only on a unit that has none.
pub fn a_reference_after_the_last_breaks_the_promise()
    ensures given { BreaksPromise given_after_the_last }
    ensures put { BreaksPromise put_after_the_last }
    ensures frozen { BreaksPromise frozen_after_the_last }
    ensures in_no_unit { BreaksPromise unfrozen_in_no_unit }
    ensures in_use { BreaksPromise unfrozen_in_use }
{}

/// A get answered Held breaks the promise on a frame without references: a free one, one that was returned, or a unit
/// that never had any. So it does at 255 references, for a seat that doesn't exist, and on a frame that heads no unit.
/// Zero breaks it if there is a reference, Full if there are fewer than 255.
pub fn a_reference_given_wrongly_breaks_the_promise()
    ensures free { MiscountsReferences kept_run (cpu_makes 2 (Get 1) Held) }
    ensures returned { MiscountsReferences life_of_a_frame (cpu_makes 2 (Get 0) Held) }
    ensures unreferred { MiscountsReferences never_referred (cpu_makes 2 (Get 0) Held) }
    ensures nobody { MiscountsReferences kept_run (cpu_makes 3 (Get 0) Held) }
    ensures past_255 { MiscountsReferences referred_fully (cpu_makes 2 (Get 0) Held) }
    ensures in_no_unit { BreaksPromise given_in_no_unit }
    ensures zero { MiscountsReferences kept_run (cpu_makes 2 (Get 0) Zero) }
    ensures full { MiscountsReferences kept_run (cpu_makes 2 (Get 0) Full) }
{}

/// A put breaks the promise if the seat has no reference, if it leaves another number than its answer says, or if that
/// number is 0. Last breaks it if a reference is left. A freeze breaks it if another seat has a reference, or if it
/// takes none, or more than seat 0 has.
pub fn a_reference_dropped_wrongly_breaks_the_promise()
    ensures anothers { MiscountsReferences kept_run (cpu_makes 2 (Put 0) (Left 1)) }
    ensures too_many_left { MiscountsReferences referred_twice (cpu_makes 2 (Put 0) (Left 2)) }
    ensures left_none { MiscountsReferences referred_by_one (cpu_makes 2 (Put 0) (Left 0)) }
    ensures last_of_none { MiscountsReferences kept_run (cpu_makes 2 (Put 1) Last) }
    ensures last_of_two { MiscountsReferences referred_twice (cpu_makes 2 (Put 0) Last) }
    ensures frozen_elsewhere { MiscountsReferences referred_twice (zone_makes (Freeze 0 1) Done) }
    ensures frozen_too_many { MiscountsReferences referred_fully (zone_makes (Freeze 0 256) Done) }
    ensures frozen_none { MiscountsReferences never_referred (zone_makes (Freeze 0 0) Done) }
{}

/// What is shown after a small run keeps the promise: one frame kept, one free, and one page in a stock.
pub fn what_is_shown_rightly_keeps_the_promise()
    ensures legal { IsLegalRun small_zone kept_run }
    ensures shown { IsShown (state_of small_zone kept_run) shown_rightly }
    ensures kept { Promise small_zone kept_run shown_rightly }
{}

/// Shown states that are wrong in one thing break the promise. A frame is nowhere, in two places, twice on a list, on
/// the list of no CPU, kept without a unit, or not of the zone. A page is prepaid for no group, or left out. No group
/// is shown, or a group that was never or a limit that was never set.
pub fn what_is_shown_wrongly_breaks_the_promise()
    ensures nowhere { IsShownWrongly seen_nowhere }
    ensures twice { IsShownWrongly seen_twice }
    ensures listed_twice { IsShownWrongly listed_twice }
    ensures by_nobody { IsShownWrongly listed_by_nobody }
    ensures in_no_unit { IsShownWrongly kept_in_no_unit }
    ensures beyond { IsShownWrongly seen_beyond }
    ensures for_nobody { IsShownWrongly prepaid_for_nobody }
    ensures left_out { IsShownWrongly prepaid_left_out }
    ensures no_group { IsShownWrongly no_group_seen }
    ensures too_many { IsShownWrongly group_too_many }
    ensures never_set { IsShownWrongly limit_never_set }
{}

/// Shown states with only free frames break the promise if one block is shown as two, or if a page is prepaid by no CPU
/// or for a group that doesn't exist. They also do if a granted page is nowhere, whether memory.current counts it or
/// not.
pub fn what_is_shown_free_wrongly_breaks_the_promise()
    ensures parted { IsWrongAfter [] parted_areas }
    ensures by_nobody { IsWrongAfter [] prepaid_by_nobody }
    ensures for_no_group { IsWrongAfter [] prepaid_for_no_group }
    ensures lost { IsWrongAfter granted_and_lost shown_free }
    ensures lost_in_number { IsWrongAfter granted_and_lost lost_in_number }
{}
