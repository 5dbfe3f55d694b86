//! The good lines of a script that are certainly refused, or hardly meant.

ghost use Rattle.std.specs.Prelude.{◌≡◌, ◌∷◌, ◌++◌, [], IfOk, List, OnOk, ℕ};
ghost use Rattle.std.specs.List.{flat_map};
ghost use Rattle.control_files.specs.Strings.{AddsBytes};
ghost use Rattle.script_lines.specs.Verb.{IsNames};
ghost use Rattle.script_lint.specs.Pasts.{KnowsPast};
ghost use Rattle.script_lint.specs.Refusals.{IsJudged, IsJudgedText, IsNamedFor};
ghost use Rattle.script_lint.specs.Refused.{AreRefused, numbered, refused_line_text};

use crate::past::Past;
use crate::refusal::{Refusal, doubt_of, refusal_of};
use group_tree::tree::Tree;
use script_lines::line::{Command, Line};
use script_lines::script::{MAX_LINE, first_line, first_line_past_limit, is_within, parse_line};
use script_lines::verb::{Names, command_names};
use std::alloc::{AllocError, Global};
use zone_blocks::config::Config;

/// A good line that is refused, or hardly meant.
#[derive(Clone, Copy, PartialEq, Eq)]
pub struct RefusedLine {
    /// The number of the line, from 1.
    pub line: usize,
    /// Why.
    pub refusal: Refusal,
}

/// The good lines that are refused whatever the script's other lines did, in order: whatever groups there are, or
/// because no line before made the group. And those that are hardly meant. If the script is too long, the lines from the
/// one with the byte after the first 1,048,576 on aren't read. It fails only if memory runs out.
pub fn refused_lines(
    alloc: Global,
    input: &[u8],
    sizes: &Config,
) -> Result<Vec<RefusedLine>, AllocError>
    ensures { IfOk result (λ refused. AreRefused sizes.now input.now refused.items) }
{
    let names = command_names(alloc)?;
    find_refused(alloc, &names, input, sizes)
}

// The lines, by the table of the commands' names.
fn find_refused(
    alloc: Global,
    names: &Names,
    input: &[u8],
    sizes: &Config,
) -> Result<Vec<RefusedLine>, AllocError>
    requires { IsNames names.now }
    ensures { IfOk result (λ refused. AreRefused sizes.now input.now refused.items) }
{
    let over = first_line_past_limit(input);
    let tree = Tree::new(alloc, 0)?;
    let mut past = Past::new(alloc);
    let mut refused = Vec::new(alloc);
    let mut number = 0;
    let mut rest = Some(input);
    while let Some(left) = rest {
        let (text, after) = first_line(left);
        number += 1;
        if !is_within(number, over) {
            return Ok(refused);
        }
        let why = judge_text(names, text, sizes, &tree, &past);
        add_refusal(number, why, &mut refused)?;
        past.add(text)?;
        rest = after;
    }
    Ok(refused)
}

// Adds the line of this number, if it is refused.
fn add_refusal(
    line: usize,
    why: Option<Refusal>,
    refused: &mut Vec<RefusedLine>,
) -> Result<(), AllocError>
    ensures { OnOk result (refused.new.items ≡ refused.old.items ++ numbered line (why ∷ [])) }
{
    match why {
        None => Ok(()),
        Some(refusal) => {
            refused.push(RefusedLine { line, refusal })?;
            Ok(())
        }
    }
}

// Why the text is that of a refused command, if it is, after the lines of this past.
fn judge_text(
    names: &Names,
    text: &[u8],
    sizes: &Config,
    tree: &Tree,
    past: &Past<'_>,
) -> Option<Refusal>
    requires { IsNames names.now }
    ensures { (texts : List (List ℕ)) → KnowsPast past.now texts → IsJudgedText sizes.now texts text.now result }
{
    if MAX_LINE < text.len() {
        return None;
    }
    let Some(line) = parse_line(names, 1, text, sizes) else {
        return None;
    };
    match line {
        Line::Go => None,
        Line::At {
            number: _,
            cpu: _,
            command,
        } => why_named(&command, tree, past),
    }
}

// Why a line with this command is named, if it is.
fn why_named(command: &Command<'_>, tree: &Tree, past: &Past<'_>) -> Option<Refusal>
    ensures { (texts : List (List ℕ)) → KnowsPast past.now texts
        → IsJudged (IsNamedFor texts command.now) result }
{
    refusal_of(command, tree)
        .or(past.missing_group(command))
        .or(doubt_of(command))
}

/// Adds a line for each such line: `NAME:LINE: refused: WHY`, or `doubtful` if it is hardly meant. It fails only if memory
/// runs out.
pub fn write_refused(
    name: &str,
    refused: &[RefusedLine],
    text: &mut String,
) -> Result<(), AllocError>
    ensures { AddsBytes result text.old text.new (flat_map (refused_line_text name.now) refused.now) }
{
    for line in refused {
        write_line(name, *line, text)?;
    }
    Ok(())
}

fn write_line(name: &str, refused: RefusedLine, text: &mut String) -> Result<(), AllocError>
    ensures { AddsBytes result text.old text.new (refused_line_text name.now refused) }
{
    let line = refused.line;
    let why = refused.refusal.sentence();
    let verdict = refused.refusal.verdict();
    writeln!(text, "{name}:{line}: {verdict}: {why}")
}
