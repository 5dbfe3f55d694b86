//! Making the steps that no word is of.

ghost use Rattle.std.specs.Prelude.{◌∷◌, []};
ghost use Rattle.step_rules.specs.After.{zone_makes};
ghost use Rattle.boot_words.specs.{IsHeld, MakesStep, IsPlain};
ghost use Rattle.step_rules.specs.declared.step.Action.{Action};
ghost use Rattle.step_rules.specs.declared.step.Answer.{Answer};
ghost use Rattle.step_watch.specs.Watched.{Builds};
ghost use Rattle.mem_machine.specs.Noted.{MayTake, Records};

use boot_words::PastSeat;
use cpu_part::{BootName, Tables};
use step_rules::step::{Action, Answer};
use step_watch::Watch;

/// Makes the step of the zone's seat that `made` builds, with its answer. The watch takes it. The note reads nothing of
/// the action, which has room for a path, so none is filled for a watch that is off.
#[inline(always)]
pub(crate) fn make_step<N: BootName, F: FnOnce() -> (Action, Answer) + Copy>(
    tables: &Tables<N>,
    past: &mut PastSeat,
    watch: &mut Watch,
    made: F,
)
    requires callable { F.IsAlwaysCallable made }
    requires held { IsHeld N.table past.old }
    requires legal { (action : Action) × (answer : Answer) × MayTake N.table past.old (zone_makes action answer)
        × IsPlain action × Builds (F.post made) action answer }
    ensures held { IsHeld N.table past.new }
    ensures run { (action : Action) (answer : Answer) → Builds (F.post made) action answer
        → MakesStep N.table past.old 0 action answer past.new }
    ensures notes { (action : Action) (answer : Answer) → Builds (F.post made) action answer
        → Records N.table (record { past = past.old; watch = watch.old }) (zone_makes action answer ∷ [])
        (record { past = past.new; watch = watch.new }) }
{
    let (action, answer) = made();
    tables.words.make_plain(past, 0, &action, &answer);
    watch.take(0, made);
}
