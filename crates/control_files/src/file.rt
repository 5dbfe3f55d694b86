//! The files of a group, by their names.

ghost use Rattle.std.specs.Prelude.{◌≡◌, ◌≢◌, ◌+◌, ◌≤◌, ◌++◌, length, IsTrue, ◌↔◌};
ghost use Rattle.std.specs.List.{find};
ghost use Rattle.std.specs.Str.{bytes_eq};
ghost use Rattle.control_files.specs.declared.file.File.{File};
ghost use Rattle.control_files.specs.Text.{longest_text};
ghost use Rattle.control_files.specs.Files.{count_line, events_text, file_text, is_readable, is_writable, name_of_file};
ghost use Rattle.group_tree.specs.Groups.{has_group};

use crate::flag::write_flag;
use crate::limit::write_limit;
use crate::text::{ArrayText, pages_text};
use group_charge::charges::Charges;
use group_tree::event::{EventCounts, EventKey};
use group_tree::fault::Fault;
use group_tree::group::GroupId;

/// A file that each group except the root has.
#[derive(Clone, Copy, Debug, PartialEq, Eq)]
pub enum File {
    /// memory.current: the bytes that the group and those below it use.
    Current,
    /// memory.max: the limit of that usage.
    Max,
    /// memory.high: how far that usage may rise before reclaim lowers it.
    High,
    /// memory.low: how much of that usage reclaim spares while it finds pages elsewhere.
    Low,
    /// memory.min: how much of that usage reclaim spares.
    Min,
    /// memory.peak: the greatest usage since the group was made.
    Peak,
    /// memory.events: how many events of each kind the group and those below it had.
    Events,
    /// memory.events.local: how many events of each kind the group itself had.
    EventsLocal,
    /// memory.oom.group: whether the group is killed as a whole.
    OomGroup,
    /// memory.reclaim: an amount written to it is reclaimed from the group and those below it.
    Reclaim,
    /// memory.stat: what the group and those below it keep, by kind.
    Stat,
}

// All files.
const FILES: [File; 11] = [
    File::Current,
    File::Max,
    File::High,
    File::Low,
    File::Min,
    File::Peak,
    File::Events,
    File::EventsLocal,
    File::OomGroup,
    File::Reclaim,
    File::Stat,
];

impl File {
    // The table of files: the name of each, whether it can be read, and whether it can be written.
    fn row(self) -> (&'static str, bool, bool)
        ensures name { result.0.now ≡ name_of_file self }
        ensures readable { result.1 ≡ is_readable self }
        ensures writable { result.2 ≡ is_writable self }
    {
        match self {
            File::Current => ("memory.current", true, false),
            File::Max => ("memory.max", true, true),
            File::High => ("memory.high", true, true),
            File::Low => ("memory.low", true, true),
            File::Min => ("memory.min", true, true),
            File::Peak => ("memory.peak", true, false),
            File::Events => ("memory.events", true, false),
            File::EventsLocal => ("memory.events.local", true, false),
            File::OomGroup => ("memory.oom.group", true, true),
            File::Reclaim => ("memory.reclaim", false, true),
            File::Stat => ("memory.stat", true, false),
        }
    }

    /// The name of the file in a group's folder.
    pub fn name(self) -> &'static str
        ensures { result.now ≡ name_of_file self }
    {
        self.row().0
    }

    /// Whether the file can be read.
    pub fn is_readable(self) -> bool
        ensures { result ≡ is_readable self }
    {
        self.row().1
    }

    /// Whether the file can be written.
    pub fn is_writable(self) -> bool
        ensures { result ≡ is_writable self }
    {
        self.row().2
    }
}

/// The text of a file of a group that exists. `NoFile` for the root, which has no files, and for memory.stat, which the
/// charges don't know: `stat_text` writes it. `WriteOnly` for memory.reclaim, which can't be read.
pub fn file_text(charges: &Charges, group: GroupId, file: File) -> Result<ArrayText, Fault>
    requires { IsTrue (has_group charges.now.groups group) }
    ensures root { group ≡ 0 → result ≡ Err Fault.NoFile }
    ensures text { group ≢ 0 → result ≡ file_text charges.now group file }
{
    if group == GroupId::root() {
        return Err(Fault::NoFile);
    }
    match file {
        File::Current => Ok(pages_text(charges.current(group))),
        File::Max => Ok(write_limit(charges.max(group))),
        File::High => Ok(write_limit(charges.settings(group).high)),
        File::Low => Ok(write_limit(charges.settings(group).low)),
        File::Min => Ok(write_limit(charges.settings(group).min)),
        File::Peak => Ok(pages_text(charges.peak(group))),
        File::Events => Ok(events_text(charges.events(group))),
        File::EventsLocal => Ok(events_text(charges.events_local(group))),
        File::OomGroup => Ok(write_flag(charges.is_oom_group(group))),
        File::Reclaim => Err(Fault::WriteOnly),
        File::Stat => Err(Fault::NoFile),
    }
}

// The text of counts.
#[tactic(auto, unfolding(crate::specs::Files::events_text))]
fn events_text(counts: EventCounts) -> ArrayText
    ensures { result ≡ events_text counts }
{
    let mut text = ArrayText::new();
    for key in EventKey::ALL {
        push_count(&mut text, key.name().as_bytes(), counts.count(key));
    }
    text
}

/// Writes the line of a key and its count.
pub(crate) fn push_count(text: &mut ArrayText, key: &[u8], count: u64)
    requires { length text.old + length key.now + 22 ≤ longest_text }
    ensures text { text.new ≡ text.old ++ count_line key.now count }
    ensures short { length text.new ≤ length text.old + length key.now + 22 }
{
    text.push(key);
    text.push(b" ");
    text.push_number(count);
    text.push(b"\n");
}

/// The file of this name, or None if no file has it.
pub fn file_named(name: &[u8]) -> Option<File>
    ensures { (file : File) → (result ≡ Some file) ↔ (name.now ≡ name_of_file file) }
{
    first_named(&FILES, name)
}

// The first of the files that has this name.
fn first_named(files: &[File], name: &[u8]) -> Option<File>
    ensures { result ≡ find (λ file. bytes_eq (name_of_file file) name.now) files.now }
{
    files
        .iter()
        .copied()
        .find(|file| file.name().as_bytes() == name)
}
