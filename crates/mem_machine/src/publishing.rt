//! Publishing units.

ghost use Rattle.boot_words.specs.Pasts.{IsHeld};
ghost use Rattle.mem_machine.specs.Noted.{MayTakeAll, Records};
ghost use Rattle.mem_machine.specs.Steps.{publish_steps};

use crate::stepping::make_step;
use boot_words::PastSeat;
use cpu_part::{BootName, Tables};
use frame_word::Frame;
use step_rules::step::{Action, Answer};
use step_watch::Watch;

/// Gives a unit that is in the zone's hand its first reference, which is the zone's, and publishes it: CPUs may get it
/// from now on. `head` is the unit's head. The watch takes both steps.
pub(crate) fn publish<N: BootName>(
    tables: &Tables<N>,
    past: &mut PastSeat,
    watch: &mut Watch,
    head: Frame,
)
    requires held { IsHeld N.table past.old }
    requires legal { MayTakeAll N.table past.old (publish_steps head) }
    ensures { Records N.table (record { past = past.old; watch = watch.old }) (publish_steps head)
        (record { past = past.new; watch = watch.new }) }
{
    let frame = head.number();
    tables.words.unfreeze(past, head, 1);
    watch.take(0, || (Action::Unfreeze { frame, count: 1 }, Answer::Done));
    make_step(tables, past, watch, || {
        (Action::Publish { frame }, Answer::Done)
    });
}
