//! How far the text of a line is good, and why not further.

ghost use Rattle.std.specs.Prelude.{◌≡◌, ◌≤◌, IfOk, MatchOption, length, true, ⊤};
ghost use Rattle.script_lines.specs.Verb.{IsNames};
ghost use Rattle.script_lint.specs.Lines.{HasValidCounts, IsGoodHere, IsGoodText, IsSpot, IsStuck};
ghost use Rattle.script_lint.specs.Lines.{spot_past_limit, stuck_spot, whole_spot};

use crate::beginning::{begins_line, is_good};
use crate::cause::cause_of;
use crate::finding::{Cause, Spot};
use script_lines::script::MAX_LINE;
use script_lines::verb::Names;
use std::alloc::{AllocError, Global};
use zone_blocks::config::Config;

// The first place from which on the text doesn't go on to a good line, and why. None if it is good. A `go` has gone
// before, or not; the line is within the bytes that a script may have, or not.
pub(crate) fn lint_line(
    alloc: Global,
    names: &Names,
    text: &[u8],
    had_go: bool,
    is_within: bool,
    sizes: &Config,
) -> Result<Option<Spot>, AllocError>
    requires names { IsNames names.now }
    requires counts { HasValidCounts sizes.now }
    ensures { IfOk result (λ found. MatchOption found (IsGoodHere sizes.now had_go (is_within ≡ true) text.now)
        (λ spot. IsSpot sizes.now had_go (is_within ≡ true) text.now spot)) }
{
    let alone = lint_alone(alloc, names, text, had_go, sizes)?;
    if is_within {
        Ok(alone)
    } else {
        Ok(Some(spot_past_limit(text, alone)))
    }
}

// The same for a text by itself, wherever it is in a script.
pub(crate) fn lint_alone(
    alloc: Global,
    names: &Names,
    text: &[u8],
    had_go: bool,
    sizes: &Config,
) -> Result<Option<Spot>, AllocError>
    requires names { IsNames names.now }
    requires counts { HasValidCounts sizes.now }
    ensures { IfOk result (λ found. MatchOption found (IsGoodHere sizes.now had_go ⊤ text.now)
        (λ spot. IsSpot sizes.now had_go ⊤ text.now spot)) }
{
    if is_good(names, text, had_go, sizes) {
        return Ok(whole_spot(text));
    }
    let mut line = Vec::new(alloc);
    let place = stuck_at(names, text, had_go, sizes, &mut line)?;
    Ok(Some(stuck_spot(text, place)))
}

// Where a text goes wrong with which the script is too long. By itself it goes wrong at this spot, if at any.
fn spot_past_limit(text: &[u8], alone: Option<Spot>) -> Spot
    ensures { result ≡ spot_past_limit text.now alone }
{
    Spot {
        place: alone.map_or(text.len(), |spot| spot.place),
        cause: Cause::InputTooLong,
    }
}

// Where a text goes wrong that, however long, isn't good from this place on.
fn stuck_spot(text: &[u8], place: usize) -> Spot
    requires { place ≤ length text.now }
    ensures { result ≡ stuck_spot text.now place }
{
    if MAX_LINE < place {
        Spot {
            place: MAX_LINE,
            cause: Cause::LineTooLong,
        }
    } else {
        Spot {
            place,
            cause: cause_of(text, place),
        }
    }
}

// Where a text goes wrong that, however long, is good. None if it isn't too long.
fn whole_spot(text: &[u8]) -> Option<Spot>
    ensures { result ≡ whole_spot text.now }
{
    if text.len() <= MAX_LINE {
        return None;
    }
    Some(Spot {
        place: MAX_LINE,
        cause: Cause::LineTooLong,
    })
}

// The place from which on a text that isn't good, however long, doesn't go on to a good one. It is found by halving: up
// to `right` the text goes on, up to `wrong` it doesn't.
fn stuck_at(
    names: &Names,
    text: &[u8],
    had_go: bool,
    sizes: &Config,
    line: &mut Vec<u8>,
) -> Result<usize, AllocError>
    requires names { IsNames names.now }
    requires counts { HasValidCounts sizes.now }
    requires bad { ¬ IsGoodText sizes.now had_go text.now }
    ensures { IfOk result (λ place. IsStuck (IsGoodText sizes.now had_go) text.now place) }
{
    let mut right = 0;
    let mut wrong = text.len() + 1;
    while right + 1 < wrong {
        let middle = right + (wrong - right) / 2;
        if begins_line(names, &text[..middle], had_go, sizes, line)? {
            right = middle;
        } else {
            wrong = middle;
        }
    }
    Ok(right)
}
