//! Collecting the frames that CPUs pass back.

ghost use Rattle.boot_words.specs.{IsHeld, IsHolder, MakesStep, MayMake};
ghost use Rattle.mem_machine.specs.Steps.{unlist_steps};
ghost use Rattle.step_rules.specs.declared.step.Action.TheVariants as action;
ghost use Rattle.step_rules.specs.declared.step.Answer.TheVariants.{Done};
ghost use Rattle.step_watch.specs.Watched.{Watches};

use boot_words::PastSeat;
use cpu_part::{BootName, Tables};
use frame_word::Frame;
use step_rules::step::{Action, Answer};
use step_watch::Watch;

/// The zone collects a frame that the CPU, which holds the lock, has just passed back. The watch takes both steps.
pub(crate) fn collect_passed<N: BootName>(
    tables: &Tables<N>,
    past: &mut PastSeat,
    watch: &mut Watch,
    cpu: u32,
    frame: Frame,
)
    requires held { IsHeld N.table past.old }
    requires holder { IsHolder past.old cpu }
    requires legal { MayMake N.table past.old 0 (action.Collect frame cpu) }
    ensures collected { MakesStep N.table past.old 0 (action.Collect frame cpu) Done past.new }
    ensures watched { Watches watch.old (unlist_steps cpu frame) watch.new }
{
    let at = frame.number();
    watch.take(cpu, || (Action::PassBack { frame: at }, Answer::Done));
    tables.words.collect(past, cpu, frame);
    watch.take(0, || (Action::Collect { frame: at, cpu }, Answer::Done));
}
