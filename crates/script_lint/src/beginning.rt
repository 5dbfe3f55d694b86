//! Whether a good line begins with a text. The parser of scripts alone knows what a good line is: it is asked about the
//! text with each end that may be missing.

ghost use Rattle.std.specs.Prelude.{◌≡◌, ◌↔◌, ◌++◌, All, IfOk, IsTrue, false, map};
ghost use Rattle.script_lines.specs.Verb.{IsNames, all_verbs};
ghost use Rattle.script_lint.specs.Ends.{IsNamedBy, example_text};
ghost use Rattle.script_lint.specs.Lines.{GoesOn, HasValidCounts, IsGoodText};

use script_lines::line::Line;
use script_lines::script::{first_word, is_skipped, parse_line};
use script_lines::verb::{ArgumentForm, Names, Verb};
use std::alloc::AllocError;
use zone_blocks::config::Config;

// What may be missing, except within the name of a command.
const ENDS: [&str; 10] = [
    "", "o", " show", "1 show", "/", "/ /", "/ / ", "/ ", "/ 0", "0",
];

// What may follow the name of a command of this form.
fn example(form: ArgumentForm) -> &'static str
    ensures { result.now ≡ example_text form }
{
    match form {
        ArgumentForm::Alone => "",
        ArgumentForm::Path => " /",
        ArgumentForm::PathFile => " / /",
        ArgumentForm::PathFileValue => " / / ",
        ArgumentForm::PathOrder => " / 0",
        ArgumentForm::Group | ArgumentForm::Frame => " 0",
    }
}

// Whether the text, however long, is good. A `go` has gone before, or not.
pub(crate) fn is_good(names: &Names, text: &[u8], had_go: bool, sizes: &Config) -> bool
    requires { IsNames names.now }
    ensures { IsTrue result ↔ IsGoodText sizes.now had_go text.now }
{
    if is_skipped(text) {
        return true;
    }
    match parse_line(names, 1, text, sizes) {
        None => false,
        Some(line) => match line {
            Line::Go => !had_go,
            Line::At { .. } => true,
        },
    }
}

// Whether the text is good with these two pieces after it. The line is room to write it.
fn is_good_with(
    names: &Names,
    front: &[u8],
    pieces: (&[u8], &[u8]),
    had_go: bool,
    sizes: &Config,
    line: &mut Vec<u8>,
) -> Result<bool, AllocError>
    requires { IsNames names.now }
    ensures { IfOk result (λ b. IsTrue b
        ↔ IsGoodText sizes.now had_go (front.now ++ (pieces.entry.0.now ++ pieces.entry.1.now))) }
{
    line.clear();
    line.extend_from_slice(front)?;
    line.extend_from_slice(pieces.0)?;
    line.extend_from_slice(pieces.1)?;
    Ok(is_good(names, line, had_go, sizes))
}

// Whether the text is good with one of these ends.
fn has_end(
    names: &Names,
    front: &[u8],
    ends: &[&str],
    had_go: bool,
    sizes: &Config,
    line: &mut Vec<u8>,
) -> Result<bool, AllocError>
    requires { IsNames names.now }
    ensures found { IfOk result (λ b. IsTrue b → GoesOn (IsGoodText sizes.now had_go) front.now) }
    ensures none { IfOk result (λ b. b ≡ false
        → All (λ end. ¬ IsGoodText sizes.now had_go (front.now ++ end)) (map (λ end. end.now) ends.now)) }
{
    for end in ends {
        if is_good_with(names, front, (b"", end.as_bytes()), had_go, sizes, line)? {
            return Ok(true);
        }
    }
    Ok(false)
}

// Whether the text, which ends with this beginning of a name, is good with the rest of some name and what follows that.
fn has_name(
    names: &Names,
    front: &[u8],
    begun: &[u8],
    had_go: bool,
    sizes: &Config,
    line: &mut Vec<u8>,
) -> Result<bool, AllocError>
    requires { IsNames names.now }
    ensures found { IfOk result (λ b. IsTrue b → GoesOn (IsGoodText sizes.now had_go) front.now) }
    ensures none { IfOk result (λ b. b ≡ false
        → All (λ verb. ¬ IsNamedBy (IsGoodText sizes.now had_go) front.now begun.now verb) all_verbs) }
{
    for verb in Verb::ALL {
        if is_named_by(names, front, begun, verb, had_go, sizes, line)? {
            return Ok(true);
        }
    }
    Ok(false)
}

// The same for this name.
fn is_named_by(
    names: &Names,
    front: &[u8],
    begun: &[u8],
    verb: Verb,
    had_go: bool,
    sizes: &Config,
    line: &mut Vec<u8>,
) -> Result<bool, AllocError>
    requires { IsNames names.now }
    ensures { IfOk result (λ b. IsTrue b ↔ IsNamedBy (IsGoodText sizes.now had_go) front.now begun.now verb) }
{
    let name = verb.name().as_bytes();
    if name.len() < begun.len() {
        return Ok(false);
    }
    let pieces = (&name[begun.len()..], example(verb.form()).as_bytes());
    is_good_with(names, front, pieces, had_go, sizes, line)
}

// Whether a good line begins with the text.
pub(crate) fn begins_line(
    names: &Names,
    front: &[u8],
    had_go: bool,
    sizes: &Config,
    line: &mut Vec<u8>,
) -> Result<bool, AllocError>
    requires names { IsNames names.now }
    requires counts { HasValidCounts sizes.now }
    ensures { IfOk result (λ b. IsTrue b ↔ GoesOn (IsGoodText sizes.now had_go) front.now) }
{
    if has_end(names, front, &ENDS, had_go, sizes, line)? {
        return Ok(true);
    }
    match first_word(front) {
        None => Ok(false),
        Some((_, begun)) => has_name(names, front, begun, had_go, sizes, line),
    }
}
