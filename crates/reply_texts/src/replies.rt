//! What is written for what was served under the lock.

ghost use Rattle.std.specs.Prelude.{◌≡◌, ◌++◌, IfOk};
ghost use Rattle.std.specs.String.{string_bytes};
ghost use Rattle.control_files.specs.Stat.{stat_text};
ghost use Rattle.machine_texts.specs.Characters.{characters};
ghost use Rattle.mem_system.specs.declared.outcome.Outcome.TheVariants.{Text};
ghost use Rattle.mem_system.specs.Outcomes.{HasItsGroups};
ghost use Rattle.reply_texts.specs.Replies.{outcome_text, path_text};

use crate::numbers::write_number;
use crate::refusals::{write_over_limit, write_refusal};
use control_files::file::File;
use control_files::stat::{MemoryStat, stat_text};
use group_charge::charges::Charges;
use group_tree::group::GroupId;
use group_tree::path::PathText;
use machine_texts::push_characters;
use mem_system::{Outcome, shown_text};
use std::alloc::AllocError;

/// Adds what is written for an outcome, with the line feed of each of its lines. Paths and texts of files are those of
/// these charges, so the caller has kept the lock since the command. It fails only if memory runs out.
pub fn write_outcome(
    charges: &Charges,
    outcome: &Outcome,
    text: &mut String,
) -> Result<(), AllocError>
    requires { HasItsGroups charges.now outcome.now }
    ensures { IfOk result (λ _. string_bytes text.new
        ≡ string_bytes text.old ++ outcome_text charges.now outcome.now) }
{
    match *outcome {
        Outcome::Group(group) => write_number("group ", u64::from(group.number()), text),
        Outcome::Frame(number) => write_number("frame ", u64::from(number), text),
        Outcome::Done => text.push_str("ok\n"),
        Outcome::Text(group, file) => write_file(charges, group, file, text),
        Outcome::Stat(stat) => write_stat(stat, text),
        Outcome::Free => text.push_str("free\n"),
        Outcome::Lent(cpu) => write_number("cpu ", u64::from(cpu), text),
        Outcome::Charged(group) => write_path(charges.tree().path_of(group), text),
        Outcome::Marked => text.push_str("marked\n"),
        Outcome::Active => text.push_str("active\n"),
        Outcome::Left(references) => write_number("left ", references, text),
        Outcome::Returned => text.push_str("returned\n"),
        Outcome::OverLimit(group) => {
            write_over_limit(group, charges.tree().path_of(group), text)
        }
        Outcome::Refused(fault) => write_refusal(&fault, text),
    }
}

// The text of a file of a group that exists and isn't the root.
#[inline(never)]
fn write_file(
    charges: &Charges,
    group: GroupId,
    file: File,
    text: &mut String,
) -> Result<(), AllocError>
    requires { HasItsGroups charges.now (Text group file) }
    ensures { IfOk result (λ _. string_bytes text.new
        ≡ string_bytes text.old ++ outcome_text charges.now (Text group file)) }
{
    push_characters(shown_text(charges, group, file).as_bytes(), text)
}

// The text of memory.stat.
#[inline(never)]
fn write_stat(stat: MemoryStat, text: &mut String) -> Result<(), AllocError>
    ensures { IfOk result (λ _. string_bytes text.new ≡ string_bytes text.old ++ characters (stat_text stat)) }
{
    push_characters(stat_text(stat).as_bytes(), text)
}

// A line with a path.
fn write_path(path: &PathText, text: &mut String) -> Result<(), AllocError>
    ensures { IfOk result (λ _. string_bytes text.new ≡ string_bytes text.old ++ path_text path.now) }
{
    push_characters(path.as_bytes(), text)?;
    text.push_str("\n")
}
