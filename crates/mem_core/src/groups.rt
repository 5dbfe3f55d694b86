//! Groups, their limits, their flags and their pages, answered and changed as the rules say.

ghost use Rattle.std.specs.Prelude.{◌≡◌, ◌≢◌, ◌+◌, ◌-◌, ◌<◌, ◌≤◌, ◌^◌, true, false, Some, length};
ghost use Rattle.step_rules.specs.Legal.{is_legal};
ghost use Rattle.step_rules.specs.declared.step.Action.{Action};
ghost use Rattle.mem_core.specs.Rows.{state_in};
ghost use Rattle.mem_core.specs.Rooms.{FitsZone, IsBelowBounds, MakesOnRows};

use crate::rows::Rows;
use group_tree::group::GroupId;
use group_tree::path::PathText;
use step_rules::step::{Answer, NoteKey};

/// Grants pages to a group, if the limits on its path have room for them.
pub(crate) fn grant(rows: &mut Rows, seat: u32, group: GroupId, pages: u32) -> Answer
    requires fits { FitsZone rows.old }
    requires bounded { IsBelowBounds (state_in rows.old) }
    requires legal { is_legal (state_in rows.old) seat (Action.Grant group pages) ≡ true }
    ensures made { MakesOnRows rows.old seat (Action.Grant group pages) result rows.new }
{
    if let Some(over) = rows.lowest_over(group, pages) {
        return Answer::Over(over);
    }
    let more = rows.pending(group) + u128::from(pages);
    rows.set_pending(group, more);
    Answer::Granted
}

/// Ungrants pending pages.
pub(crate) fn ungrant(rows: &mut Rows, seat: u32, group: GroupId, pages: u32) -> Answer
    requires fits { FitsZone rows.old }
    requires bounded { IsBelowBounds (state_in rows.old) }
    requires legal { is_legal (state_in rows.old) seat (Action.Ungrant group pages) ≡ true }
    ensures made { MakesOnRows rows.old seat (Action.Ungrant group pages) result rows.new }
{
    let left = rows.pending(group) - u128::from(pages);
    rows.set_pending(group, left);
    Answer::Done
}

/// A note changes nothing here.
pub(crate) fn note(rows: &mut Rows, seat: u32, key: NoteKey, group: GroupId) -> Answer
    requires fits { FitsZone rows.old }
    requires bounded { IsBelowBounds (state_in rows.old) }
    requires legal { is_legal (state_in rows.old) seat (Action.Note key group) ≡ true }
    ensures made { MakesOnRows rows.old seat (Action.Note key group) result rows.new }
{
    Answer::Done
}

/// A note that a group was killed as a whole changes nothing here.
pub(crate) fn note_group_kill(rows: &mut Rows, seat: u32, group: GroupId) -> Answer
    requires fits { FitsZone rows.old }
    requires bounded { IsBelowBounds (state_in rows.old) }
    requires legal { is_legal (state_in rows.old) seat (Action.NoteGroupKill group) ≡ true }
    ensures made { MakesOnRows rows.old seat (Action.NoteGroupKill group) result rows.new }
{
    Answer::Done
}

/// Gives a group another limit.
pub(crate) fn set_max(rows: &mut Rows, seat: u32, group: GroupId, limit: Option<u32>) -> Answer
    requires fits { FitsZone rows.old }
    requires bounded { IsBelowBounds (state_in rows.old) }
    requires legal { is_legal (state_in rows.old) seat (Action.SetMax group limit) ≡ true }
    ensures made { MakesOnRows rows.old seat (Action.SetMax group limit) result rows.new }
{
    rows.tree.set_max(group, limit);
    Answer::Done
}

/// Sets the flag of a group: whether it is killed as a whole.
pub(crate) fn set_flag(rows: &mut Rows, seat: u32, group: GroupId, oom_group: bool) -> Answer
    requires fits { FitsZone rows.old }
    requires bounded { IsBelowBounds (state_in rows.old) }
    requires legal { is_legal (state_in rows.old) seat (Action.SetFlag group oom_group) ≡ true }
    ensures made { MakesOnRows rows.old seat (Action.SetFlag group oom_group) result rows.new }
{
    rows.tree.set_oom_group(group, oom_group);
    Answer::Done
}

/// Makes a group.
pub(crate) fn make(rows: &mut Rows, seat: u32, path: &PathText) -> Answer
    requires fits { FitsZone rows.old }
    requires bounded { IsBelowBounds (state_in rows.old) }
    requires legal { is_legal (state_in rows.old) seat (Action.Make path.now) ≡ true }
    ensures made { MakesOnRows rows.old seat (Action.Make path.now) result rows.new }
{
    let group = rows.tree.make(path.as_bytes()).unwrap();
    rows.set_killed(group, false);
    Answer::Number(group)
}

/// Removes a group.
pub(crate) fn remove(rows: &mut Rows, seat: u32, group: GroupId) -> Answer
    requires fits { FitsZone rows.old }
    requires bounded { IsBelowBounds (state_in rows.old) }
    requires legal { is_legal (state_in rows.old) seat (Action.Remove group) ≡ true }
    ensures made { MakesOnRows rows.old seat (Action.Remove group) result rows.new }
{
    rows.tree.remove(group);
    Answer::Done
}

/// Kills a group.
pub(crate) fn kill(rows: &mut Rows, seat: u32, group: GroupId) -> Answer
    requires fits { FitsZone rows.old }
    requires bounded { IsBelowBounds (state_in rows.old) }
    requires legal { is_legal (state_in rows.old) seat (Action.Kill group) ≡ true }
    ensures made { MakesOnRows rows.old seat (Action.Kill group) result rows.new }
{
    rows.set_killed(group, true);
    Answer::Done
}
