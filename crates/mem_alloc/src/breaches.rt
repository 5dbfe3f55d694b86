//! What breaks the laws of kills, each for one thing that is wrong. So each line of the definitions says something.
#![tactic(auto, unfolding(group_tree::specs::Groups::in_subtree, group_tree::specs::Groups::path_of, group_tree::specs::Groups::group_at, group_tree::specs::Path::names_of, group_tree::specs::Groups::is_oom_group, group_tree::specs::Groups::limit_of, group_charge::specs::Charges::usage_charged, step_rules::specs::State::sum_to))]

ghost use Rattle.std.specs.Prelude.{◌≢◌, true, false, [], ◌∷◌, ◌++◌};
ghost use Rattle.mem_machine.specs.Local.{lock_holder};
ghost use Rattle.mem_alloc.specs.High.{ReclaimsToHigh};
ghost use Rattle.mem_alloc.specs.Room.{ReclaimsFor};
ghost use Rattle.mem_alloc.specs.Laws.{TriedAll};
ghost use Rattle.mem_alloc.specs.KillBreaches.{MayKillIfAllIsTried, IsTooEarly, of_b, not_allowed, with_room, counted_twice};
ghost use Rattle.mem_alloc.specs.KillBreaches.{not_noted, noted_below, not_drained, killed_before, forgotten_kills};
ghost use Rattle.mem_alloc.specs.KillBreaches.{with_flags, tried, untried, tried_before, miscounted, made_dirty, given_away};
ghost use Rattle.mem_alloc.specs.KillBreaches.{min_written, min_of_a_stranger, UnitsAreTriedAsFound, IsIdleRound, IsNever, freed_dirty};
ghost use Rattle.mem_alloc.specs.KillBreaches.{MayNotAsk, IsRash, TheseMayDie, NobodyMayDie, kill_after_others};
ghost use Rattle.mem_alloc.specs.KillBreaches.{beside_a_greater, killed_for_a, raised, kills_of};

/// A victim may be killed after a call that tried all. The situations below differ from this one in one thing.
pub fn a_kill_after_all_was_tried_may_come()
    ensures { MayKillIfAllIsTried }
{}

/// Nobody is killed if the boot allows no kills or the limit has room, nor before `oom` is noted at the limit and its
/// stocks are drained. Pages that are counted twice, and marks of killed groups that are forgotten, excuse no kill.
pub fn a_kill_for_no_reason_is_too_early()
    ensures not_allowed { IsTooEarly not_allowed of_b }
    ensures with_room { IsTooEarly with_room of_b }
    ensures counted_twice { IsTooEarly counted_twice of_b }
    ensures not_noted { IsTooEarly not_noted of_b }
    ensures noted_below { IsTooEarly noted_below of_b }
    ensures not_drained { IsTooEarly not_drained of_b }
    ensures forgotten_kills { IsTooEarly forgotten_kills of_b }
{}

/// Nobody is killed before each clean unit was tried in the same call. Nor does it help to count a miss that isn't among
/// the steps, to make the unit dirty, to give it to another group, or to write a memory.min during the call. Another
/// group's memory.min keeps nothing.
pub fn a_kill_before_all_was_tried_is_too_early()
    ensures untried { IsTooEarly untried of_b }
    ensures tried_before { IsTooEarly tried_before of_b }
    ensures miscounted { IsTooEarly miscounted of_b }
    ensures made_dirty { IsTooEarly made_dirty of_b }
    ensures given_away { IsTooEarly given_away of_b }
    ensures min_written { IsTooEarly min_written of_b }
    ensures min_of_a_stranger { IsTooEarly min_of_a_stranger of_b }
{}

/// Nor does it help to say so of the machine before the first kill.
#[tactic(auto)]
pub fn units_are_tried_as_found()
    ensures { UnitsAreTriedAsFound }
{}

/// The victim is no group with fewer frames, none beyond the limit, and none that was killed. It dies alone only if no
/// memory.oom.group is set from it up to the limit, and else with all of the highest such group.
pub fn a_kill_of_another_is_wrong()
    ensures of_a_smaller { IsTooEarly tried (record { victim = 3; killed_root = 3 }) }
    ensures of_a_stranger { IsTooEarly beside_a_greater (record { victim = 4; killed_root = 4 }) }
    ensures of_a_killed { IsTooEarly killed_before of_b }
    ensures with_others { IsTooEarly tried (record { victim = 2; killed_root = 1 }) }
    ensures alone { IsTooEarly (with_flags false) of_b }
    ensures too_low { IsTooEarly (with_flags true) of_b }
{}

/// A charge kills for no more than 8 pages, for none but its own, and for no limit beside the path of its group.
pub fn a_charge_may_ask_for_no_more_than_its_pages()
    ensures many { MayNotAsk 9 1 9 }
    ensures others { MayNotAsk 1 1 2 }
    ensures beside { MayNotAsk 1 3 1 }
{}

/// A charge isn't refused as one that tried all if the limit has room, a stock isn't drained or a clean unit wasn't
/// tried. Nor is memory.high left exceeded before that, nor does a round end without a page.
pub fn a_refusal_before_all_was_tried_is_too_early()
    ensures with_room { IsNever (TriedAll 1 1) with_room }
    ensures not_drained { IsNever (TriedAll 1 1) not_drained }
    ensures untried { IsNever (TriedAll 1 1) untried }
    ensures high { IsNever (ReclaimsToHigh 1 1 2) untried }
    ensures round { IsNever IsIdleRound untried }
{}

/// No reclaim frees a dirty unit.
pub fn a_reclaim_of_a_dirty_unit_is_none()
    ensures { IsNever (ReclaimsFor 1 1) freed_dirty }
{}

/// A list of steps has a rash kill if nothing comes before the kill, if a CPU made a step without the lock, or if nobody
/// may be killed right before the first kill.
pub fn a_kill_out_of_turn_is_rash()
    ensures at_once { IsRash (λ table start. Unit {0}) (kills_of (2 ∷ [])) }
    ensures after_others { IsRash (λ table start. lock_holder start ≢ 2) kill_after_others }
    ensures raised { IsRash (NobodyMayDie raised) (raised ++ kills_of (2 ∷ [])) }
{}

/// Exactly the groups of a set die, and in their order.
pub fn a_kill_of_half_a_set_is_rash()
    ensures half { IsRash (TheseMayDie (2 ∷ 3 ∷ [])) (killed_for_a (2 ∷ [])) }
    ensures reversed { IsRash (TheseMayDie (2 ∷ 3 ∷ [])) (killed_for_a (3 ∷ 2 ∷ [])) }
    ensures one_more { IsRash (TheseMayDie (2 ∷ [])) (killed_for_a (2 ∷ 3 ∷ [])) }
{}
