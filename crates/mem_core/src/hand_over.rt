//! Frames that are handed over between the zone and a CPU. Each is in the phase, and on the list, that the rules give.

ghost use Rattle.std.specs.Prelude.{◌≡◌, ◌≢◌, ◌+◌, ◌-◌, ◌<◌, ◌≤◌, ◌^◌, true, false, Some, length};
ghost use Rattle.step_rules.specs.Legal.{is_legal};
ghost use Rattle.step_rules.specs.declared.step.Action.{Action};
ghost use Rattle.mem_core.specs.Rows.{state_in};
ghost use Rattle.mem_core.specs.Rooms.{FitsZone, IsBelowBounds, MakesOnRows};

use crate::phases::{collected, is_fresh_at, passed_back};
use crate::rows::Rows;
use step_rules::phase::{Phase, Way};
use step_rules::step::Answer;

/// The zone passes a free frame to the CPU.
pub(crate) fn pass_out(rows: &mut Rows, seat: u32, frame: u32, cpu: u32) -> Answer
    requires fits { FitsZone rows.old }
    requires bounded { IsBelowBounds (state_in rows.old) }
    requires legal { is_legal (state_in rows.old) seat (Action.PassOut frame cpu) ≡ true }
    ensures made { MakesOnRows rows.old seat (Action.PassOut frame cpu) result rows.new }
{
    rows.set_phase(
        frame,
        Phase::Lent {
            cpu,
            way: Way::PassingOut,
        },
    );
    Answer::Done
}

/// The CPU takes the frame to the end of its list.
pub(crate) fn take_in(rows: &mut Rows, seat: u32, frame: u32) -> Answer
    requires fits { FitsZone rows.old }
    requires bounded { IsBelowBounds (state_in rows.old) }
    requires legal { is_legal (state_in rows.old) seat (Action.TakeIn frame) ≡ true }
    ensures made { MakesOnRows rows.old seat (Action.TakeIn frame) result rows.new }
{
    rows.set_phase(
        frame,
        Phase::Lent {
            cpu: seat,
            way: Way::OnList,
        },
    );
    rows.list_frame(seat, frame);
    Answer::Done
}

/// The CPU passes a frame back.
pub(crate) fn pass_back(rows: &mut Rows, seat: u32, frame: u32) -> Answer
    requires fits { FitsZone rows.old }
    requires bounded { IsBelowBounds (state_in rows.old) }
    requires legal { is_legal (state_in rows.old) seat (Action.PassBack frame) ≡ true }
    ensures made { MakesOnRows rows.old seat (Action.PassBack frame) result rows.new }
{
    let was_fresh = is_fresh_at(rows.phase(frame), seat);
    let phase = passed_back(rows.phase(frame));
    rows.set_phase(frame, phase);
    rows.unlist_frame(seat, frame, was_fresh);
    Answer::Done
}

/// The zone takes a frame that was passed back.
pub(crate) fn collect(rows: &mut Rows, seat: u32, frame: u32, cpu: u32) -> Answer
    requires fits { FitsZone rows.old }
    requires bounded { IsBelowBounds (state_in rows.old) }
    requires legal { is_legal (state_in rows.old) seat (Action.Collect frame cpu) ≡ true }
    ensures made { MakesOnRows rows.old seat (Action.Collect frame cpu) result rows.new }
{
    let phase = collected(rows.phase(frame));
    rows.set_phase(frame, phase);
    Answer::Done
}
