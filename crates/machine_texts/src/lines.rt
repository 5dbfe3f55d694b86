//! The line of each note.

ghost use Rattle.control_files.specs.Strings.{AddsBytes};
ghost use Rattle.machine_texts.specs.Lines.{asked_text, group_kill_text, killed_text, limit_line, line_text, oom_text};
ghost use Rattle.machine_texts.specs.Lines.{protected_line, reclaimed_text, round_text, stock_line, victim_text, zone_line};

use crate::parts::{
    push_bytes, push_candidate, push_count, push_ending, push_group, push_others, push_span,
};
use group_charge::note::{Candidate, Note};
use group_tree::group::GroupId;
use group_tree::tree::Tree;
use std::alloc::AllocError;

// The line of a note. The usage is that under the limit whose stocks are drained; if it is None, no stock has a line. A
// group that no longer exists had the path `gone`.
pub(crate) fn write_line(
    tree: &Tree,
    gone: &[u8],
    usage: Option<u32>,
    note: &Note,
    text: &mut String,
) -> Result<(), AllocError>
    ensures { AddsBytes result text.old text.new (line_text tree.now gone.now usage note.now) }
{
    match *note {
        Note::Limit {
            group,
            max,
            usage,
            need,
        } => write_limit("# limit ", tree, gone, group, max, usage, need, text),
        Note::High {
            group,
            high,
            usage,
            need,
        } => write_limit("# high ", tree, gone, group, high, usage, need, text),
        Note::Zone { order } => write_zone(order, text),
        Note::Asked { group, pages } => write_asked(tree, gone, group, pages, text),
        Note::Stock { cpu, pages } => write_stock(usage, cpu, pages, text),
        Note::Reclaimed { group, first, last } => write_reclaimed(
            tree, gone, group, first, last, text,
        ),
        Note::Spared {
            group,
            usage,
            min,
            low,
        } => write_protected("# spared ", tree, gone, group, usage, min, low, text),
        Note::Low {
            group,
            usage,
            min,
            low,
        } => write_protected("# low ", tree, gone, group, usage, min, low, text),
        Note::Round {
            number,
            returned,
            missed,
            pages,
            usage,
        } => write_round(number, returned, missed, pages, usage, text),
        Note::Oom { group } => write_oom(tree, gone, group, text),
        Note::Victim {
            victim,
            candidates,
            next,
        } => write_victim(tree, gone, victim, candidates, next, text),
        Note::GroupKill { group, groups } => write_group_kill(tree, gone, group, groups, text),
        Note::Kill {
            group,
            returned,
            pages,
            pinned,
            left,
            usage,
        } => write_killed(
            tree, gone, group, returned, pages, pinned, left, usage, text,
        ),
    }
}

// A limit that had no room or a memory.high, what was charged under it, and what was asked for.
fn write_limit(
    word: &str,
    tree: &Tree,
    gone: &[u8],
    group: GroupId,
    max: u32,
    usage: u32,
    need: u32,
    text: &mut String,
) -> Result<(), AllocError>
    ensures { AddsBytes result text.old text.new (limit_line word.now tree.now gone.now group max usage need) }
{
    push_group(word, tree, gone, group, text)?;
    push_bytes(" ", u64::from(max), text)?;
    push_bytes(" usage ", u64::from(usage), text)?;
    push_bytes(" need ", u64::from(need), text)?;
    text.push_str("\n")
}

// That no block of this order was free.
fn write_zone(order: u32, text: &mut String) -> Result<(), AllocError>
    ensures { AddsBytes result text.old text.new (zone_line order) }
{
    push_count("# zone order ", u128::from(order), text)?;
    text.push_str("\n")
}

// How many pages were asked for.
fn write_asked(
    tree: &Tree,
    gone: &[u8],
    group: GroupId,
    pages: u64,
    text: &mut String,
) -> Result<(), AllocError>
    ensures { AddsBytes result text.old text.new (asked_text tree.now gone.now group pages) }
{
    push_group("# asked ", tree, gone, group, text)?;
    push_bytes(" ", pages, text)?;
    text.push_str("\n")
}

// The frames of units that were reclaimed one after the other.
fn write_reclaimed(
    tree: &Tree,
    gone: &[u8],
    group: GroupId,
    first: u64,
    last: u64,
    text: &mut String,
) -> Result<(), AllocError>
    ensures { AddsBytes result text.old text.new (reclaimed_text tree.now gone.now group first last) }
{
    push_group("# reclaimed ", tree, gone, group, text)?;
    push_span(" ", first, last, text)?;
    text.push_str("\n")
}

// What was charged to a group when its turn began, and how much of that was protected.
fn write_protected(
    word: &str,
    tree: &Tree,
    gone: &[u8],
    group: GroupId,
    usage: u32,
    min: u32,
    low: u32,
    text: &mut String,
) -> Result<(), AllocError>
    ensures { AddsBytes result text.old text.new (protected_line word.now tree.now gone.now group usage min low) }
{
    push_group(word, tree, gone, group, text)?;
    push_bytes(" usage ", u64::from(usage), text)?;
    push_bytes(" min ", u64::from(min), text)?;
    push_bytes(" low ", u64::from(low), text)?;
    text.push_str("\n")
}

// A stock that was drained under a limit, by the usage there before.
fn write_stock(
    usage: Option<u32>,
    cpu: u32,
    pages: u32,
    text: &mut String,
) -> Result<(), AllocError>
    ensures { AddsBytes result text.old text.new (stock_line usage cpu pages) }
{
    let Some(usage) = usage else {
        return Ok(());
    };
    push_count("# stock ", u128::from(cpu), text)?;
    push_ending(u64::from(pages), usage.saturating_sub(pages), text)
}

// A round of reclaim.
fn write_round(
    number: u32,
    returned: u64,
    missed: u64,
    pages: u64,
    usage: u32,
    text: &mut String,
) -> Result<(), AllocError>
    ensures { AddsBytes result text.old text.new (round_text number returned missed pages usage) }
{
    push_count("# round ", u128::from(number), text)?;
    push_count(" tried ", u128::from(returned) + u128::from(missed), text)?;
    push_count(" missed ", u128::from(missed), text)?;
    push_count(" returned ", u128::from(returned), text)?;
    push_ending(pages, usage, text)
}

// A limit that couldn't be kept.
fn write_oom(tree: &Tree, gone: &[u8], group: GroupId, text: &mut String) -> Result<(), AllocError>
    ensures { AddsBytes result text.old text.new (oom_text tree.now gone.now group) }
{
    push_group("# oom ", tree, gone, group, text)?;
    text.push_str("\n")
}

// The group that is killed, and the next one, if there is one.
fn write_victim(
    tree: &Tree,
    gone: &[u8],
    victim: Candidate,
    candidates: u32,
    next: Candidate,
    text: &mut String,
) -> Result<(), AllocError>
    ensures { AddsBytes result text.old text.new (victim_text tree.now gone.now victim candidates next) }
{
    push_candidate("# victim ", tree, gone, victim, text)?;
    push_others(tree, gone, candidates, next, text)?;
    text.push_str("\n")
}

// The group that is killed as a whole, and how many groups of its subtree die.
fn write_group_kill(
    tree: &Tree,
    gone: &[u8],
    group: GroupId,
    groups: u32,
    text: &mut String,
) -> Result<(), AllocError>
    ensures { AddsBytes result text.old text.new (group_kill_text tree.now gone.now group groups) }
{
    push_group("# group ", tree, gone, group, text)?;
    push_count(" groups ", u128::from(groups), text)?;
    text.push_str("\n")
}

// What was freed of a killed group, how many of its units are pinned, and what stays charged to it.
fn write_killed(
    tree: &Tree,
    gone: &[u8],
    group: GroupId,
    returned: u64,
    pages: u64,
    pinned: u64,
    left: u64,
    usage: u32,
    text: &mut String,
) -> Result<(), AllocError>
    ensures { AddsBytes result text.old text.new
        (killed_text tree.now gone.now group returned pages pinned left usage) }
{
    push_group("# killed ", tree, gone, group, text)?;
    push_count(" returned ", u128::from(returned), text)?;
    push_bytes(" bytes ", pages, text)?;
    push_count(" pinned ", u128::from(pinned), text)?;
    push_ending(left, usage, text)
}
