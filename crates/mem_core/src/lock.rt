//! Who holds the lock, and whether its visit is open.

ghost use Rattle.std.specs.Prelude.{◌≡◌, ◌≢◌, ◌+◌, ◌-◌, ◌<◌, ◌≤◌, ◌^◌, true, false, Some, length};
ghost use Rattle.step_rules.specs.Legal.{is_legal};
ghost use Rattle.step_rules.specs.declared.step.Action.{Action};
ghost use Rattle.mem_core.specs.Rows.{state_in};
ghost use Rattle.mem_core.specs.Rooms.{FitsZone, IsBelowBounds, MakesOnRows};

use crate::rows::Rows;
use step_rules::phase::Hold;
use step_rules::step::Answer;

/// A CPU takes the lock.
pub(crate) fn lock(rows: &mut Rows, seat: u32) -> Answer
    requires fits { FitsZone rows.old }
    requires bounded { IsBelowBounds (state_in rows.old) }
    requires legal { is_legal (state_in rows.old) seat Action.Lock ≡ true }
    ensures made { MakesOnRows rows.old seat Action.Lock result rows.new }
{
    rows.set_hold(Hold::HeldBy(seat));
    Answer::Done
}

/// The CPU releases the lock.
pub(crate) fn unlock(rows: &mut Rows, seat: u32) -> Answer
    requires fits { FitsZone rows.old }
    requires bounded { IsBelowBounds (state_in rows.old) }
    requires legal { is_legal (state_in rows.old) seat Action.Unlock ≡ true }
    ensures made { MakesOnRows rows.old seat Action.Unlock result rows.new }
{
    rows.set_hold(Hold::Unheld);
    Answer::Done
}

/// The zone opens a visit of the CPU.
pub(crate) fn open_visit(rows: &mut Rows, seat: u32, cpu: u32) -> Answer
    requires fits { FitsZone rows.old }
    requires bounded { IsBelowBounds (state_in rows.old) }
    requires legal { is_legal (state_in rows.old) seat (Action.OpenVisit cpu) ≡ true }
    ensures made { MakesOnRows rows.old seat (Action.OpenVisit cpu) result rows.new }
{
    rows.set_hold(Hold::Visiting(cpu));
    Answer::Done
}

/// The zone shuts the visit.
pub(crate) fn shut_visit(rows: &mut Rows, seat: u32, cpu: u32) -> Answer
    requires fits { FitsZone rows.old }
    requires bounded { IsBelowBounds (state_in rows.old) }
    requires legal { is_legal (state_in rows.old) seat (Action.ShutVisit cpu) ≡ true }
    ensures made { MakesOnRows rows.old seat (Action.ShutVisit cpu) result rows.new }
{
    rows.set_hold(Hold::HeldBy(cpu));
    Answer::Done
}
