//! Notes of what was tried and reclaimed, for explanations.

ghost use Rattle.std.specs.Prelude.{◌≡◌};
ghost use Rattle.mem_machine.specs.Machines.{with_detail, with_note, with_detail_notes, without_notes};

use crate::machine::Machine;
use cpu_part::BootName;
use group_charge::note::Note;

impl<N: BootName> Machine<N> {
    /// The notes since the last `forget_notes`, the oldest first: limits without room, what was tried there, which
    /// units were reclaimed, what was protected, and who was killed. If there were more than 4,992, only the first 4,992
    /// are kept. At most 1,024 of them are details: spans of reclaimed units, and what protected a group.
    pub fn notes(&self) -> &[Note]
        ensures { result.now ≡ self.now.notes.list }
    {
        self.notes.as_slice()
    }

    /// How many frames were reclaimed since the last `forget_notes` of which no note tells.
    pub fn notes_left_out(&self) -> u64
        ensures { result ≡ self.now.notes.left_out }
    {
        self.notes.left_out()
    }

    /// Notes details from now on, or no longer. Nothing else changes, and no step is made.
    pub fn set_detail_notes(&mut self, is_on: bool)
        ensures { self.new ≡ with_detail_notes self.old is_on }
    {
        self.notes.set_detail_notes(is_on);
    }

    /// Adds a note. Nothing else changes, and no step is made.
    pub fn note(&mut self, note: Note)
        ensures { self.new ≡ with_note self.old note }
    {
        self.notes.note(note);
    }

    /// Adds a detail, if `set_detail_notes` asked for details and there is room for one more. Nothing else changes, and no
    /// step is made.
    pub fn note_detail(&mut self, note: Note)
        ensures { self.new ≡ with_detail self.old note }
    {
        self.notes.note_detail(note);
    }

    /// Forgets all notes. Whether details are noted stays. Nothing else changes, and no step is made.
    pub fn forget_notes(&mut self)
        ensures { self.new ≡ without_notes self.old }
    {
        self.notes.clear();
    }
}
