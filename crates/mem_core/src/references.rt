//! References on frames: each step changes those of one seat on one frame, as the rules say.

ghost use Rattle.std.specs.Prelude.{◌≡◌, ◌≢◌, ◌+◌, ◌-◌, ◌<◌, ◌≤◌, ◌^◌, true, false, Some, length};
ghost use Rattle.step_rules.specs.{is_legal, live_references};
ghost use Rattle.step_rules.specs.declared.step.Action.{Action};
ghost use Rattle.mem_core.specs.Rows.{state_in};
ghost use Rattle.mem_core.specs.Rooms.{FitsZone, IsBelowBounds, MakesOnRows};

use crate::phases::at_stage;
use crate::rows::Rows;
use step_rules::phase::Stage;
use step_rules::step::Answer;

/// A CPU asks for one more reference.
pub(crate) fn get(rows: &mut Rows, seat: u32, frame: u32) -> Answer
    requires fits { FitsZone rows.old }
    requires bounded { IsBelowBounds (state_in rows.old) }
    requires legal { is_legal (state_in rows.old) seat (Action.Get frame) ≡ true }
    ensures made { MakesOnRows rows.old seat (Action.Get frame) result rows.new }
{
    let live = rows.live_references(frame);
    if 1 <= live && live <= 254 {
        let count = rows.references(seat, frame) + 1;
        rows.set_references(seat, frame, count);
        return Answer::Held;
    }
    if live == 255 {
        Answer::Full
    } else {
        Answer::Zero
    }
}

/// A seat gives up one of its references.
pub(crate) fn put(rows: &mut Rows, seat: u32, frame: u32) -> Answer
    requires fits { FitsZone rows.old }
    requires bounded { IsBelowBounds (state_in rows.old) }
    requires legal { is_legal (state_in rows.old) seat (Action.Put frame) ≡ true }
    ensures made { MakesOnRows rows.old seat (Action.Put frame) result rows.new }
{
    let live = rows.live_references(frame);
    if live != 1 {
        let count = rows.references(seat, frame) - 1;
        rows.set_references(seat, frame, count);
        return Answer::Left(live - 1);
    }
    if seat == 0 {
        put_last(rows, seat, frame)
    } else {
        put_last_at(rows, seat, frame)
    }
}

/// The zone gives up the last reference.
pub(crate) fn put_last(rows: &mut Rows, seat: u32, frame: u32) -> Answer
    requires fits { FitsZone rows.old }
    requires bounded { IsBelowBounds (state_in rows.old) }
    requires legal { is_legal (state_in rows.old) seat (Action.Put frame) ≡ true }
    requires last { live_references (state_in rows.old) frame ≡ 1 }
    requires zone { seat ≡ 0 }
    ensures made { MakesOnRows rows.old seat (Action.Put frame) result rows.new }
{
    let count = rows.references(0, frame) - 1;
    let phase = at_stage(Stage::AwaitsReturn, rows.phase(frame));
    rows.set_references(0, frame, count);
    rows.set_phase(frame, phase);
    Answer::Last
}

/// A CPU gives up the last reference, and has the frame as a back frame.
pub(crate) fn put_last_at(rows: &mut Rows, seat: u32, frame: u32) -> Answer
    requires fits { FitsZone rows.old }
    requires bounded { IsBelowBounds (state_in rows.old) }
    requires legal { is_legal (state_in rows.old) seat (Action.Put frame) ≡ true }
    requires last { live_references (state_in rows.old) frame ≡ 1 }
    requires cpu { seat ≢ 0 }
    ensures made { MakesOnRows rows.old seat (Action.Put frame) result rows.new }
{
    let count = rows.references(seat, frame) - 1;
    let phase = at_stage(Stage::BackAt(seat), rows.phase(frame));
    rows.set_references(seat, frame, count);
    rows.set_phase(frame, phase);
    rows.push_back_frame(seat, frame);
    Answer::Last
}

/// The zone removes all references on a frame, if they are exactly this many.
pub(crate) fn freeze(rows: &mut Rows, seat: u32, frame: u32, count: u32) -> Answer
    requires fits { FitsZone rows.old }
    requires bounded { IsBelowBounds (state_in rows.old) }
    requires legal { is_legal (state_in rows.old) seat (Action.Freeze frame count) ≡ true }
    ensures made { MakesOnRows rows.old seat (Action.Freeze frame count) result rows.new }
{
    if rows.live_references(frame) != count {
        return Answer::Missed;
    }
    let left = rows.references(0, frame) - count;
    let phase = at_stage(Stage::AwaitsReturn, rows.phase(frame));
    rows.set_references(0, frame, left);
    rows.set_phase(frame, phase);
    Answer::Done
}

/// The zone puts references on the head of a unit.
pub(crate) fn unfreeze(rows: &mut Rows, seat: u32, frame: u32, count: u32) -> Answer
    requires fits { FitsZone rows.old }
    requires bounded { IsBelowBounds (state_in rows.old) }
    requires legal { is_legal (state_in rows.old) seat (Action.Unfreeze frame count) ≡ true }
    ensures made { MakesOnRows rows.old seat (Action.Unfreeze frame count) result rows.new }
{
    let more = rows.references(0, frame) + count;
    let phase = at_stage(Stage::Live, rows.phase(frame));
    rows.set_references(0, frame, more);
    rows.set_phase(frame, phase);
    Answer::Done
}

/// The zone keeps the head of a unit; here that changes nothing.
pub(crate) fn publish(rows: &mut Rows, seat: u32, frame: u32) -> Answer
    requires fits { FitsZone rows.old }
    requires bounded { IsBelowBounds (state_in rows.old) }
    requires legal { is_legal (state_in rows.old) seat (Action.Publish frame) ≡ true }
    ensures made { MakesOnRows rows.old seat (Action.Publish frame) result rows.new }
{
    Answer::Done
}
