//! Touching kept units, and noting them as dirty or clean.

ghost use Rattle.std.specs.Prelude.{◌≡◌, ◌<◌, None, IfSome, IfNone};
ghost use Rattle.mem_machine.specs.{BySteps, Makes, home_of};
ghost use Rattle.mem_system.specs.Units.{IsUnitOf, MakesNoStep, TouchesFrame, NotesDirt};
ghost use Rattle.mem_system.specs.Outcomes.{HasItsGroups};

use crate::outcome::Outcome;
use cpu_part::{BootName, Tables};
use frame_word::Frame;
use group_tree::fault::Fault;
use lru_lists::lru::Touched;
use mem_machine::Machine;

// The frame of this number; None exactly if it heads no kept unit.
pub(crate) fn find_unit<N: BootName>(
    machine: &Machine<N>,
    tables: &Tables<N>,
    frame: u32,
) -> Option<Frame>
    requires { frame < N.table.frames }
    ensures found { IfSome result (λ found. IsUnitOf machine.now frame found) }
    ensures none { IfNone result (home_of machine.now.links frame ≡ None) }
{
    let frame = tables.words.frame(frame).unwrap();
    if !machine.is_kept(frame) {
        return None;
    }
    Some(frame)
}

// Notes that the unit that the frame heads was used.
pub(crate) fn touch_frame<N: BootName>(
    machine: &mut Machine<N>,
    tables: &Tables<N>,
    frame: u32,
) -> Outcome
    requires { frame < N.table.frames }
    ensures touched { BySteps Makes N.table (MakesNoStep (TouchesFrame frame result)) machine.old machine.new }
    ensures groups { HasItsGroups machine.new.ledger result }
{
    let Some(frame) = find_unit(machine, tables, frame) else {
        return Outcome::Refused(Fault::NotKept);
    };
    match machine.touch(frame) {
        Touched::Marked => Outcome::Marked,
        Touched::Active => Outcome::Active,
    }
}

// Notes whether the pages of the unit that the frame heads are dirty.
pub(crate) fn note_dirt<N: BootName>(
    machine: &mut Machine<N>,
    tables: &Tables<N>,
    frame: u32,
    is_dirty: bool,
) -> Outcome
    requires { frame < N.table.frames }
    ensures noted { BySteps Makes N.table (MakesNoStep (NotesDirt frame is_dirty result)) machine.old machine.new }
    ensures groups { HasItsGroups machine.new.ledger result }
{
    let Some(frame) = find_unit(machine, tables, frame) else {
        return Outcome::Refused(Fault::NotKept);
    };
    machine.set_dirty(frame, is_dirty);
    Outcome::Done
}
