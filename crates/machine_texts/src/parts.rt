//! The parts of lines.

ghost use Rattle.std.specs.Prelude.{◌++◌};
ghost use Rattle.std.specs.Fmt.{decimal};
ghost use Rattle.control_files.specs.Strings.{AddsBytes};
ghost use Rattle.machine_texts.specs.Lines.{bytes_text, candidate_text, ending_text, group_text, next_text, others_text};
ghost use Rattle.machine_texts.specs.Lines.{range_text};

use crate::push_characters;
use control_files::number::push_number;
use control_files::text::PAGE_BYTES;
use group_charge::note::Candidate;
use group_tree::group::GroupId;
use group_tree::tree::Tree;
use std::alloc::AllocError;

// Adds a word and a count.
pub(crate) fn push_count(word: &str, count: u128, text: &mut String) -> Result<(), AllocError>
    ensures { AddsBytes result text.old text.new (word.now ++ decimal count) }
{
    text.push_str(word)?;
    push_number(count, text)
}

// Adds a word and the bytes of this many pages.
#[tactic(auto, unfolding(crate::specs::Lines::bytes_text))]
pub(crate) fn push_bytes(word: &str, pages: u64, text: &mut String) -> Result<(), AllocError>
    ensures { AddsBytes result text.old text.new (word.now ++ bytes_text pages) }
{
    push_count(word, u128::from(pages) * u128::from(PAGE_BYTES), text)
}

// Adds a word and the path of a group, which is `gone` if the tree doesn't have the group any more.
#[tactic(auto, unfolding(crate::specs::Lines::group_text, group_tree::specs::Groups::has_group, group_tree::specs::Groups::path_of))]
pub(crate) fn push_group(
    word: &str,
    tree: &Tree,
    gone: &[u8],
    group: GroupId,
    text: &mut String,
) -> Result<(), AllocError>
    ensures { AddsBytes result text.old text.new (word.now ++ group_text tree.now gone.now group) }
{
    text.push_str(word)?;
    if tree.contains(group) {
        push_characters(tree.path_of(group).as_bytes(), text)
    } else {
        push_characters(gone, text)
    }
}

// Adds a word, the path of a group that may be killed, and its frames.
#[tactic(auto, unfolding(crate::specs::Lines::candidate_text))]
pub(crate) fn push_candidate(
    word: &str,
    tree: &Tree,
    gone: &[u8],
    candidate: Candidate,
    text: &mut String,
) -> Result<(), AllocError>
    ensures { AddsBytes result text.old text.new (word.now ++ candidate_text tree.now gone.now candidate) }
{
    push_group(word, tree, gone, candidate.group, text)?;
    push_count(" frames ", u128::from(candidate.frames), text)
}

// Adds how many candidates there are, and the next of them.
#[tactic(auto, unfolding(crate::specs::Lines::others_text))]
pub(crate) fn push_others(
    tree: &Tree,
    gone: &[u8],
    candidates: u32,
    next: Candidate,
    text: &mut String,
) -> Result<(), AllocError>
    ensures { AddsBytes result text.old text.new (others_text tree.now gone.now candidates next) }
{
    write!(text, " of {candidates} candidates")?;
    push_next(tree, gone, candidates, next, text)
}

// Adds the next candidate, if there is more than one.
#[tactic(auto, unfolding(crate::specs::Lines::next_text))]
fn push_next(
    tree: &Tree,
    gone: &[u8],
    candidates: u32,
    next: Candidate,
    text: &mut String,
) -> Result<(), AllocError>
    ensures { AddsBytes result text.old text.new (next_text tree.now gone.now candidates next) }
{
    if candidates <= 1 {
        return Ok(());
    }
    push_candidate(", next ", tree, gone, next, text)
}

// Adds the end of a line: the bytes of this many pages, and of the usage under the limit.
#[tactic(auto, unfolding(crate::specs::Lines::ending_text))]
pub(crate) fn push_ending(pages: u64, usage: u32, text: &mut String) -> Result<(), AllocError>
    ensures { AddsBytes result text.old text.new (ending_text pages usage) }
{
    push_bytes(" bytes ", pages, text)?;
    push_bytes(" usage ", u64::from(usage), text)?;
    text.push_str("\n")
}

// Adds a word and the frames from the first to the last, or the one frame.
#[tactic(auto, unfolding(crate::specs::Lines::range_text))]
pub(crate) fn push_span(
    word: &str,
    first: u64,
    last: u64,
    text: &mut String,
) -> Result<(), AllocError>
    ensures { AddsBytes result text.old text.new (word.now ++ range_text first last) }
{
    push_count(word, u128::from(first), text)?;
    if first == last {
        return Ok(());
    }
    push_count("-", u128::from(last), text)
}
