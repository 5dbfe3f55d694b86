//! Frames that move between a CPU's lists.
ghost use Rattle.std.specs.Prelude.{◌≡◌, ◌+◌, ◌<◌, ◌≤◌, ℕ, [], ◌∷◌, ◌++◌, length, remove, slice_index, IsPermutation};
ghost use Rattle.std.specs.Prelude.{vec_len, vec_capacity};
ghost use Rattle.std.specs.VecDeque.{deque_len, deque_capacity};
ghost use Rattle.step_rules.specs.State.{times};

use crate::search::place_of;
use frame_word::Frame;
use std::collections::VecDeque;

/// The front of the list becomes the newest fresh frame.
pub(crate) fn freshen(list: &mut VecDeque<Frame>, fresh: &mut Vec<Frame>) -> Frame
    requires front { 0 < deque_len list.old }
    requires room { vec_len fresh.old < vec_capacity fresh.old }
    ensures front { list.old.items ≡ result ∷ list.new.items }
    ensures fresh { fresh.new.items ≡ fresh.old.items ++ result ∷ [] }
    ensures rooms { (deque_capacity list.new ≡ deque_capacity list.old)
        × (vec_capacity fresh.new ≡ vec_capacity fresh.old) }
{
    let Some(frame) = list.pop_front() else {
        unreachable!()
    };
    fresh.push_reserved(frame);
    frame
}

/// A fresh frame goes to the end of the list.
pub(crate) fn relist(list: &mut VecDeque<Frame>, fresh: &mut Vec<Frame>, frame: Frame)
    requires fresh { 1 ≤ times frame fresh.old.items }
    requires room { deque_len list.old < deque_capacity list.old }
    ensures list { list.new.items ≡ list.old.items ++ frame ∷ [] }
    ensures fresh { (i : ℕ) × (i < length fresh.old.items) × (slice_index fresh.old.items i ≡ frame)
        × (fresh.new.items ≡ remove fresh.old.items i) }
    ensures rooms { (deque_capacity list.new ≡ deque_capacity list.old)
        × (vec_capacity fresh.new ≡ vec_capacity fresh.old) }
{
    let Some(place) = place_of(fresh.as_slice(), frame) else {
        unreachable!()
    };
    remove_at(fresh, place);
    list.push_back_reserved(frame);
}

// Removes what is at the place. If that is the end, nothing is moved.
fn remove_at(frames: &mut Vec<Frame>, place: usize)
    requires { place < vec_len frames.old }
    ensures out { frames.new.items ≡ remove frames.old.items place }
    ensures room { vec_capacity frames.new ≡ vec_capacity frames.old }
{
    if place + 1 < frames.len() {
        frames.remove(place);
    } else {
        frames.pop();
    }
}

/// Removes a pin.
pub(crate) fn unpin(pins: &mut Vec<Frame>, frame: Frame)
    requires { 1 ≤ times frame pins.old.items }
    ensures pins { IsPermutation pins.old.items (frame ∷ pins.new.items) }
    ensures room { vec_capacity pins.new ≡ vec_capacity pins.old }
{
    let Some(place) = place_of(pins.as_slice(), frame) else {
        unreachable!()
    };
    pins.swap_remove(place);
}
