//! The notes of a visit.

ghost use Rattle.std.specs.Prelude.{◌≡◌, IfOk};
ghost use Rattle.group_charge.specs.Notes.{detail_noted, forgotten, has_room_for_detail, joined_span, last_noted, no_notes};
ghost use Rattle.group_charge.specs.Notes.{noted, unit_noted, with_new_span, with_span};

use crate::note::Note;
use crate::spans::{is_detail, joined, last_frame};
use group_tree::group::GroupId;
use std::alloc::{AllocError, Global};
use std::marker::Model;

/// How many notes are kept at most. One command makes at most 3,925 that are no details and no rounds of
/// the zone. For each of 8 limits on a path these are the limit, a stock of each of 64 CPUs, 16 rounds and an `oom`; for
/// each memory.high there, itself and 16 rounds. There is a `Kill` for each of 1,023 groups, and a victim and a `GroupKill`
/// each time that the killer chooses, at most 1,023 times. And the 64 stocks are drained as their groups die. Rounds of the
/// zone are 16, with one note before them. So all of these fit beside `MAX_DETAILS` details.
pub const MAX_NOTES: usize = 4_992;

/// How many of the notes are details at most: spans of freed units, and what protected a group.
pub const MAX_DETAILS: usize = 1_024;

/// The notes of a visit, the oldest first; at most the first 4,992 of them, and at most the first 1,024 details.
#[derive(Drop)]
pub struct Notes {
    // Room for all of them is reserved.
    notes: Vec<Note>,
    // How many of them are details.
    details: usize,
    // How many freed frames no note tells of.
    left_out: u64,
    // Whether details are noted.
    notes_details: bool,
}

impl Model for Notes {
    ghost use Rattle.std.specs.Prelude.{◌≡◌, ◌≤◌, count_by, vec_capacity};
    ghost use Rattle.group_charge.specs.Notes.{KnownNotes, is_detail, most_notes};

    ghost Value = { KnownNotes };

    ghost view = { λ n. record { list = n.notes.items; left_out = n.left_out; notes_details = n.notes_details } };

    ghost invariant = { λ n. (most_notes ≤ vec_capacity n.notes) × (n.details ≡ count_by is_detail n.notes.items) };
}

impl Notes {
    /// No notes, and details aren't noted. The room for all is reserved here: no other call takes memory.
    /// `AllocError` if memory runs out.
    pub fn new(alloc: Global) -> Result<Notes, AllocError>
        ensures { IfOk result (λ notes. notes ≡ no_notes) }
    {
        let notes = Vec::with_capacity(alloc, MAX_NOTES)?;
        Ok(Notes {
            notes,
            details: 0,
            left_out: 0,
            notes_details: false,
        })
    }

    /// Keeps details from now on, or no longer. The notes stay.
    pub fn set_detail_notes(&mut self, is_on: bool)
        ensures { self.new ≡ record self.old { notes_details = is_on } }
    {
        self.notes_details = is_on;
    }

    /// Adds a note, unless there are 4,992.
    pub fn note(&mut self, note: Note)
        ensures { self.new ≡ noted self.old note }
    {
        if self.notes.len() < MAX_NOTES {
            self.details += usize::from(is_detail(&note));
            self.notes.push_reserved(note);
        }
    }

    // Whether there are fewer than 1,024 details and 4,992 notes.
    fn has_room_for_detail(&self) -> bool
        ensures { result ≡ has_room_for_detail self.now.list }
    {
        self.details < MAX_DETAILS && self.notes.len() < MAX_NOTES
    }

    /// Adds a detail, if details are noted and there are fewer than 1,024 of them and 4,992 notes.
    pub fn note_detail(&mut self, note: Note)
        ensures { self.new ≡ detail_noted self.old note }
    {
        if self.notes_details && self.has_room_for_detail() {
            self.details += usize::from(is_detail(&note));
            self.notes.push_reserved(note);
        }
    }

    /// Notes that a unit of this group was freed, whose frames are `frames` from `first` on, if freed units are noted.
    /// The unit joins the last note if that is a span of units of the same group which it adjoins. Otherwise it is a
    /// new span; if there are 1,024 details or 4,992 notes, its frames are counted as left out instead. That count stays
    /// at 2^64 - 1.
    #[inline(always)]
    pub fn note_unit(&mut self, group: GroupId, first: u32, frames: u32)
        ensures { self.new ≡ unit_noted self.old group first frames }
    {
        if self.notes_details {
            self.add_unit(group, first, frames);
        }
    }

    // The last span with this unit's frames, if the unit may join it.
    fn joined(&self, group: GroupId, first: u32, frames: u32) -> Option<Note>
        ensures { result ≡ joined_span (last_noted self.now) group first frames }
    {
        if self.left_out > 0 {
            return None;
        }
        joined(self.notes.last()?, group, first, frames)
    }

    // Notes a freed unit: it joins the last span, or is a new one.
    fn add_unit(&mut self, group: GroupId, first: u32, frames: u32)
        ensures { self.new
            ≡ with_span (joined_span (last_noted self.old) group first frames) self.old group first frames }
    {
        let Some(span) = self.joined(group, first, frames) else {
            self.add_span(group, first, frames);
            return;
        };
        let last = self.notes.len() - 1;
        self.notes[last] = span;
    }

    // Notes a freed unit as a new span, or counts its frames as left out.
    fn add_span(&mut self, group: GroupId, first: u32, frames: u32)
        ensures { self.new ≡ with_new_span self.old group first frames }
    {
        if self.has_room_for_detail() {
            let (first, last) = (u64::from(first), last_frame(first, frames));
            self.details += 1;
            self.notes
                .push_reserved(Note::Reclaimed { group, first, last });
        } else {
            self.left_out = self.left_out.saturating_add(u64::from(frames));
        }
    }

    /// Forgets all notes, and which frames were left out. Whether details are noted stays.
    pub fn clear(&mut self)
        ensures { self.new ≡ forgotten self.old }
    {
        self.notes.clear();
        self.details = 0;
        self.left_out = 0;
    }

    /// The notes, the oldest first.
    pub fn as_slice(&self) -> &[Note]
        ensures { result.now ≡ self.now.list }
    {
        self.notes.as_slice()
    }

    /// How many frames were freed of which no note tells, since there was no room for one more detail.
    pub fn left_out(&self) -> u64
        ensures { result ≡ self.now.left_out }
    {
        self.left_out
    }
}
