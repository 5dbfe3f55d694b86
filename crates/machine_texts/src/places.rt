//! The places of the frames.

ghost use Rattle.std.specs.Prelude.{◌≡◌, All, MatchOption};
ghost use Rattle.control_files.specs.Strings.{AddsBytes};
ghost use Rattle.mem_machine.specs.declared.frame_state.Place.TheVariants as place;
ghost use Rattle.mem_machine.specs.FrameStates.{place_of};
ghost use Rattle.machine_texts.specs.Places.{FrameGroupExists, PlaceGroupExists, frames_text, is_same_place};
ghost use Rattle.machine_texts.specs.Places.{place_text, places_text, span_text, IsAt, IsFirstElsewhere, span_length};

use crate::characters::push_characters;
use group_tree::group::GroupId;
use group_tree::tree::Tree;
use mem_machine::{FrameState, Place};
use std::alloc::AllocError;

// A line for each longest span of frames with equal place.
pub(crate) fn write_places(
    frame_states: &[FrameState],
    tree: &Tree,
    text: &mut String,
) -> Result<(), AllocError>
    requires { All (FrameGroupExists tree.now) frame_states.now }
    ensures { AddsBytes result text.old text.new (places_text tree.now frame_states.now) }
{
    let mut first = 0;
    while first < frame_states.len() {
        let place = frame_states[first].place();
        let next = first + span_length(&frame_states[first..], &place);
        write_span(first, next - 1, &place, tree, text)?;
        first = next;
    }
    Ok(())
}

// How many frames from the first on are at this place.
fn span_length(frame_states: &[FrameState], place: &Place) -> usize
    ensures { result ≡ span_length place.now frame_states.now }
{
    first_elsewhere(frame_states, place).unwrap_or(frame_states.len())
}

// The first frame that isn't at this place. Each arm has a loop of its own, which looks at one kind of record only.
fn first_elsewhere(frame_states: &[FrameState], place: &Place) -> Option<usize>
    ensures { MatchOption result (All (IsAt place.now) frame_states.now)
        (λ at. IsFirstElsewhere place.now frame_states.now at) }
{
    match *place {
        Place::Free => frame_states
            .iter()
            .position(|frame_state| !is_free(frame_state)),
        Place::Lent(cpu) => frame_states
            .iter()
            .position(|frame_state| !is_lent(frame_state, cpu)),
        Place::Charged(group) => frame_states
            .iter()
            .position(|frame_state| !is_charged(frame_state, group)),
    }
}

// Whether the frame with this record is free.
#[inline]
fn is_free(frame_state: &FrameState) -> bool
    ensures { result ≡ is_same_place (place_of frame_state.now) place.Free }
{
    matches!(frame_state, FrameState::Free)
}

// Whether the frame with this record is lent to this CPU.
#[inline]
fn is_lent(frame_state: &FrameState, cpu: u32) -> bool
    ensures { result ≡ is_same_place (place_of frame_state.now) (place.Lent cpu) }
{
    match *frame_state {
        FrameState::Lent(number) => u32::from(number) == cpu,
        _ => false,
    }
}

// Whether the frame with this record is charged to this group.
#[inline]
fn is_charged(frame_state: &FrameState, group: GroupId) -> bool
    ensures { result ≡ is_same_place (place_of frame_state.now) (place.Charged group) }
{
    match *frame_state {
        FrameState::Head(unit) => unit.group == group,
        FrameState::Tail(owner) => owner == group,
        _ => false,
    }
}

// The line of the frames from the first to the last, which are all at this place.
fn write_span(
    first: usize,
    last: usize,
    place: &Place,
    tree: &Tree,
    text: &mut String,
) -> Result<(), AllocError>
    requires { PlaceGroupExists tree.now place.now }
    ensures { AddsBytes result text.old text.new (span_text tree.now first last place.now) }
{
    write_frames(first, last, text)?;
    write_place(place, tree, text)?;
    text.push_str("\n")
}

// The numbers of the frames from the first to the last.
fn write_frames(first: usize, last: usize, text: &mut String) -> Result<(), AllocError>
    ensures { AddsBytes result text.old text.new (frames_text first last) }
{
    if first == last {
        write!(text, "{first} ")
    } else {
        write!(text, "{first}-{last} ")
    }
}

// The place itself. For frames that are charged it is the path of their group, which exists.
fn write_place(place: &Place, tree: &Tree, text: &mut String) -> Result<(), AllocError>
    requires { PlaceGroupExists tree.now place.now }
    ensures { AddsBytes result text.old text.new (place_text tree.now place.now) }
{
    match *place {
        Place::Free => text.push_str("free"),
        Place::Lent(cpu) => write!(text, "cpu {cpu}"),
        Place::Charged(group) => push_characters(tree.path_of(group).as_bytes(), text),
    }
}
