//! Spans of freed units.

ghost use Rattle.std.specs.Prelude.{◌≡◌, Some};
ghost use Rattle.group_charge.specs.Notes.{is_detail, joined_span, last_frame};

use crate::note::Note;
use group_tree::group::GroupId;

// Whether the note is a span of freed units, or says what protected a group.
pub(crate) fn is_detail(note: &Note) -> bool
    ensures { result ≡ is_detail note.now }
{
    matches!(
        note,
        Note::Reclaimed { .. } | Note::Spared { .. } | Note::Low { .. }
    )
}

// The last of `frames` frames from `first` on.
pub(crate) fn last_frame(first: u32, frames: u32) -> u64
    ensures { result ≡ last_frame first frames }
{
    (u64::from(first) + u64::from(frames)).saturating_sub(1)
}

// The span with this unit's frames, if the note is a span that the unit adjoins.
pub(crate) fn joined(note: &Note, group: GroupId, first: u32, frames: u32) -> Option<Note>
    ensures { result ≡ joined_span (Some note.now) group first frames }
{
    let Note::Reclaimed {
        group: owner,
        first: low,
        last: high,
    } = *note
    else {
        return None;
    };
    let (begin, end) = (u64::from(first), u64::from(first) + u64::from(frames));
    if owner.number() == group.number() && high.checked_add(1) == Some(begin) {
        let (first, last) = (low, last_frame(first, frames));
        Some(Note::Reclaimed { group, first, last })
    } else if owner.number() == group.number() && end == low {
        let (first, last) = (begin, high);
        Some(Note::Reclaimed { group, first, last })
    } else {
        None
    }
}
