//! All bad lines of a script.

ghost use Rattle.std.specs.Prelude.{◌≤◌, IfOk, IfSome, OnOk, length};
ghost use Rattle.script_lines.specs.Verb.{IsNames};
ghost use Rattle.script_lint.specs.Findings.{IsLinted, IsTextLinted};
ghost use Rattle.script_lint.specs.Script.{AddsSpot};
ghost use Rattle.script_lint.specs.Lines.{HasValidCounts};

use crate::cause::word_at;
use crate::finding::{Cause, Finding, Spot};
use crate::line::{lint_alone, lint_line};
use crate::near::near_verb;
use script_lines::script::{first_line, first_line_past_limit, is_go, is_within};
use script_lines::verb::{Names, Verb, command_names};
use std::alloc::{AllocError, Global};
use zone_blocks::config::Config;

/// Every bad line of the script, in order: from which byte on no good line goes on, and why. If the script is too long,
/// the lines after the one with the byte after the first 1,048,576 aren't read. It fails only if memory runs out.
pub fn lint_script<'a>(
    alloc: Global,
    input: &'a [u8],
    sizes: &Config,
) -> Result<Vec<Finding<'a>>, AllocError>
    requires { HasValidCounts sizes.now }
    ensures { IfOk result (λ findings. IsLinted sizes.now input.entry.now findings.items) }
{
    let names = command_names(alloc)?;
    lint_lines(alloc, &names, input, sizes)
}

/// Why the text of a line is bad by itself: a `go` or a script that is too long is no cause then. None if it is good.
/// The finding has the number 1. The call fails only if memory runs out.
pub fn lint_text<'a>(
    alloc: Global,
    names: &Names,
    text: &'a [u8],
    sizes: &Config,
) -> Result<Option<Finding<'a>>, AllocError>
    requires names { IsNames names.now }
    requires counts { HasValidCounts sizes.now }
    ensures { IfOk result (λ found. IsTextLinted sizes.now text.entry.now found) }
{
    let Some(spot) = lint_alone(alloc, names, text, false, sizes)? else {
        return Ok(None);
    };
    let near = near_of(alloc, text, &spot)?;
    Ok(Some(Finding {
        line: 1,
        text,
        spot,
        near,
    }))
}

// The bad lines, by the table of the commands' names.
fn lint_lines<'a>(
    alloc: Global,
    names: &Names,
    input: &'a [u8],
    sizes: &Config,
) -> Result<Vec<Finding<'a>>, AllocError>
    requires names { IsNames names.now }
    requires counts { HasValidCounts sizes.now }
    ensures { IfOk result (λ findings. IsLinted sizes.now input.entry.now findings.items) }
{
    let over = first_line_past_limit(input);
    let mut findings = Vec::new(alloc);
    let mut had_go = false;
    let mut number = 0;
    let mut rest = Some(input);
    while let Some(left) = rest {
        let (text, after) = first_line(left);
        number += 1;
        let is_within = is_within(number, over);
        let found = lint_line(alloc, names, text, had_go, is_within, sizes)?;
        add_finding(alloc, number, text, found, &mut findings)?;
        if !is_within {
            return Ok(findings);
        }
        let goes = is_go(text);
        had_go = had_go || goes;
        rest = after;
    }
    Ok(findings)
}

// Adds what is found in a line.
fn add_finding<'a>(
    alloc: Global,
    number: usize,
    text: &'a [u8],
    found: Option<Spot>,
    findings: &mut Vec<Finding<'a>>,
) -> Result<(), AllocError>
    requires { IfSome found (λ spot. spot.place ≤ length text.now) }
    ensures { OnOk result (AddsSpot number text.entry found findings.old.items findings.new.items) }
{
    match found {
        None => Ok(()),
        Some(spot) => {
            let near = near_of(alloc, text, &spot)?;
            findings.push(Finding {
                line: number,
                text,
                spot,
                near,
            })?;
            Ok(())
        }
    }
}

// The command that may be meant, if the line names none.
fn near_of(alloc: Global, text: &[u8], spot: &Spot) -> Result<Option<Verb>, AllocError>
    requires { spot.now.place ≤ length text.now }
{
    match spot.cause {
        Cause::UnknownCommand => near_verb(alloc, word_at(text, spot.place)),
        _ => Ok(None),
    }
}
