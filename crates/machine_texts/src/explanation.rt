//! The explanation of what a command drained, reclaimed and killed.

ghost use Rattle.std.specs.Prelude.{◌≡◌, None};
ghost use Rattle.std.specs.List.{list_any};
ghost use Rattle.control_files.specs.Strings.{AddsBytes};
ghost use Rattle.machine_texts.specs.Explanation.{explanation_text, is_attempt, left_out_text, notes_text, usage_after};

use crate::lines::write_line;
use crate::parts::push_count;
use group_charge::note::Note;
use group_tree::tree::Tree;
use std::alloc::AllocError;

/// Adds the explanation of a command by its notes and by how many of the frames that it reclaimed they leave out. It
/// has the line of each note, and a last line if frames are left out. It is empty if no stock was drained, no round of
/// reclaim made and no group killed. A group that the tree doesn't have any more is written as `gone`: the path of the
/// group that the command removed. It fails only if memory runs out.
pub fn write_explanation(
    tree: &Tree,
    gone: &[u8],
    notes: &[Note],
    left_out: u64,
    text: &mut String,
) -> Result<(), AllocError>
    ensures { AddsBytes result text.old text.new (explanation_text tree.now gone.now notes.now left_out) }
{
    if has_attempt(notes) {
        write_lines(tree, gone, notes, text)?;
        write_left_out(left_out, text)
    } else {
        Ok(())
    }
}

// Whether a stock was drained, a round of reclaim made, or a group killed.
fn has_attempt(notes: &[Note]) -> bool
    ensures { result ≡ list_any is_attempt notes.now }
{
    notes.iter().any(is_attempt)
}

fn is_attempt(note: &Note) -> bool
    ensures { result ≡ is_attempt note.now }
{
    matches!(
        note,
        Note::Stock { .. } | Note::Round { .. } | Note::Kill { .. }
    )
}

// The line of each note.
fn write_lines(
    tree: &Tree,
    gone: &[u8],
    notes: &[Note],
    text: &mut String,
) -> Result<(), AllocError>
    ensures { AddsBytes result text.old text.new (notes_text tree.now gone.now None notes.now) }
{
    let mut usage = None;
    for note in notes {
        write_line(tree, gone, usage, note, text)?;
        usage = usage_after(usage, note);
    }
    Ok(())
}

// How many frames were reclaimed of which no note tells.
#[tactic(auto, unfolding(crate::specs::Explanation::left_out_text))]
fn write_left_out(frames: u64, text: &mut String) -> Result<(), AllocError>
    ensures { AddsBytes result text.old text.new (left_out_text frames) }
{
    if frames == 0 {
        return Ok(());
    }
    push_count("# reclaimed ", u128::from(frames), text)?;
    text.push_str(" more frames\n")
}

// The usage under the limit after this note, if the next stock has a line.
fn usage_after(usage: Option<u32>, note: &Note) -> Option<u32>
    ensures { result ≡ usage_after usage note.now }
{
    match *note {
        Note::Limit { usage, .. } => Some(usage),
        Note::High { usage, .. } => Some(usage),
        Note::Stock { pages, .. } => usage.map(|usage| usage.saturating_sub(pages)),
        _ => None,
    }
}
