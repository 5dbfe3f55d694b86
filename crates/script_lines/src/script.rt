//! A script's bytes, cut into lines.

ghost use Rattle.std.specs.Prelude.{◌≡◌, ◌≢◌, ◌↔◌, ◌∷◌, ◌++◌, ℕ, ◌+◌, ◌<◌, ◌≤◌, All, IfErr, IfOk, IfSome, IsTrue, List, []};
ghost use Rattle.std.specs.Prelude.{MatchOption, length, take};
ghost use Rattle.script_lines.specs.Places.{IsFrontOf, IsLineEnd};
ghost use Rattle.script_lines.specs.Script.{HasArguments, IsAllocText, IsCommandText, IsCut, IsFirstBadLine, IsLimit};
ghost use Rattle.script_lines.specs.Script.{IsFrameText, IsGroupText, IsLineText, IsPathText, IsReadText};
ghost use Rattle.script_lines.specs.Script.{IsRequestText, IsScript, IsWriteText, NamesFirstBadLine, ended_lines};
ghost use Rattle.script_lines.specs.Script.{is_go, is_skipped, longest_script, texts_left, texts_of};
ghost use Rattle.script_lines.specs.Verb.{Frame, IsNames, form_of_verb, its_verb, words_of_command};
ghost use Rattle.script_lines.specs.declared.line.Command.{Command};
ghost use Rattle.script_lines.specs.declared.line.Line.{Line};
ghost use Rattle.script_lines.specs.declared.line.Line.TheVariants.{At};

use crate::fault::ScriptFault;
use crate::line::{Command, Line};
use crate::number::{first_number, number};
use crate::place::{near_place, path_end, place_by_one};
use crate::verb::{ArgumentForm, Names, Verb, command_names, first_verb};
use group_tree::group::GroupId;
use std::alloc::{AllocFailed, Global};
use zone_blocks::config::Config;

/// The most bytes that a script has.
pub const MAX_INPUT: usize = 1_048_576;

/// The most bytes that a line has, its line feed not counted.
pub const MAX_LINE: usize = 1_024;

/// The lines of a script in their order, without the empty ones and those that begin with `#`, each with its number.
///
/// Each line ends with a line feed, which the last may lack, and is `go` or `P COMMAND`. By the configuration's sizes, P
/// is a CPU, a frame is one of the zone, and a group's number is below the room for groups. A single space is between
/// words and none at either end, except in the value of `write`, which is all that follows the space after the file's
/// name. Any other line is a bad line. So is one longer than 1,024 bytes, a second `go`, and the line with the byte
/// after the first 1,048,576. The fault names the first bad line.
pub fn parse_script<'a>(
    alloc: Global,
    input: &'a [u8],
    sizes: &Config,
) -> Result<Vec<Line<'a>>, ScriptFault>
    ensures ok { IfOk result (λ lines. IsScript sizes.now input.now lines.items) }
    ensures bad_line { IfErr result (NamesFirstBadLine sizes.now input.now) }
{
    let names = command_names(alloc)?;
    parse_lines(alloc, &names, input, sizes)
}

// The lines, by the table of the commands' names. Most lines are a CPU and a command, so that is tried first.
fn parse_lines<'a>(
    alloc: Global,
    names: &Names,
    input: &'a [u8],
    sizes: &Config,
) -> Result<Vec<Line<'a>>, ScriptFault>
    requires { IsNames names.now }
    ensures ok { IfOk result (λ lines. IsScript sizes.now input.now lines.items) }
    ensures bad_line { IfErr result (NamesFirstBadLine sizes.now input.now) }
{
    let limit = first_number_past_limit(input);
    let mut lines = Vec::new(alloc);
    let mut had_go = false;
    let mut number = 0;
    let mut rest = Some(input);
    while let Some(left) = rest {
        let end = line_end(left);
        number += 1;
        if end > MAX_LINE || number >= limit {
            return Err(ScriptFault::BadLine(number));
        }
        let text = &left[..end];
        if let Some((cpu, command)) = parse_request(names, text, left, sizes) {
            push_line(&mut lines, number, cpu, command)?;
            rest = after_line(left, end);
            continue;
        }
        if is_skipped(text) {
            rest = after_line(left, end);
            continue;
        }
        if !is_go(text) {
            return Err(ScriptFault::BadLine(number));
        }
        if had_go {
            return Err(ScriptFault::BadLine(number));
        }
        had_go = true;
        lines.push(Line::Go)?;
        rest = after_line(left, end);
    }
    Ok(lines)
}

// Adds this line. Each arm is the same, but in its own the compiler knows which of a line's slices there are, and clears
// the room of the others by wide stores. The last arm is for commands without a path.
#[inline(always)]
fn push_line<'a>(
    lines: &mut Vec<Line<'a>>,
    number: usize,
    cpu: u32,
    command: Command<'a>,
) -> Result<(), AllocFailed<Line<'a>>>
    ensures { IfOk result (λ _. lines.new.items ≡ lines.old.items ++ At number cpu command.entry ∷ []) }
{
    let line = Line::At {
        number,
        cpu,
        command,
    };
    match command {
        Command::Alloc { .. } => lines.push(line),
        Command::Mkdir { .. }
        | Command::Rmdir { .. }
        | Command::Write { .. }
        | Command::Read { .. }
        | Command::Units { .. } => lines.push(line),
        _ => lines.push(line),
    }
}

// Where the first line ends: at its line feed or, without one, at the end of the text.
#[inline(always)]
fn line_end(text: &[u8]) -> usize
    ensures { IsLineEnd text.now result }
{
    match near_place(b'\n', text) {
        Some(end) => end,
        None => place_by_one(b'\n', text).unwrap_or(text.len()),
    }
}

// What follows the first line and its line feed. None if it has no line feed.
#[inline(always)]
fn after_line(text: &[u8], end: usize) -> Option<&[u8]>
    requires { IsLineEnd text.now end }
    ensures { texts_of text.now ≡ take end text.now ∷ texts_left result }
{
    if end < text.len() {
        Some(&text[end + 1..])
    } else {
        None
    }
}

/// The text of the first line, and what follows its line feed: None if it has no line feed.
pub fn first_line(text: &[u8]) -> (&[u8], Option<&[u8]>)
    ensures { texts_of text.now ≡ result.0.now ∷ texts_left result.1 }
{
    let end = line_end(text);
    (&text[..end], after_line(text, end))
}

/// The number of the line with the first byte past the most, if there is one. A line feed belongs to the line that it
/// ends.
pub fn first_line_past_limit(input: &[u8]) -> Option<usize>
    ensures { MatchOption result (length input.now ≤ longest_script)
        (λ n. (longest_script < length input.now) × (n ≡ ended_lines (take longest_script input.now) + 1)) }
{
    if input.len() <= MAX_INPUT {
        return None;
    }
    let before = input[..MAX_INPUT]
        .iter()
        .filter(|byte| **byte == b'\n')
        .count();
    Some(before + 1)
}

// The number of the line with the first byte past the most; if there is none, one that no line has. So a single
// comparison is made for each line.
fn first_number_past_limit(input: &[u8]) -> usize
    ensures { IsLimit input.now result }
{
    first_line_past_limit(input).unwrap_or(usize::MAX)
}

/// Whether the line of this number is before the one at which the script is too long.
pub fn is_within(number: usize, over: Option<usize>) -> bool
    ensures { IsTrue result ↔ IfSome over (λ first. number < first) }
{
    match over {
        None => true,
        Some(first) => number < first,
    }
}

/// Whether a line is skipped.
pub fn is_skipped(text: &[u8]) -> bool
    ensures { result ≡ is_skipped text.now }
{
    match text.first() {
        None => true,
        Some(first) => *first == b'#',
    }
}

/// Whether a line is `go`.
pub fn is_go(text: &[u8]) -> bool
    ensures { result ≡ is_go text.now }
{
    text == b"go".as_slice()
}

/// The line of this number, from 1, which has this text. None if the text is empty or a comment, or isn't in the
/// grammar. A text of more than 1,024 bytes isn't refused here. It is inlined, with what it
/// calls, because its result is large: a call would write it to memory twice.
#[inline(always)]
pub fn parse_line<'a>(
    names: &Names,
    number: usize,
    text: &'a [u8],
    sizes: &Config,
) -> Option<Line<'a>>
    requires { IsNames names.now }
    ensures { MatchOption result ((line : Line) → ¬ IsLineText sizes.now number line text.entry.now)
        (λ line. IsLineText sizes.now number line text.entry.now) }
{
    if is_go(text) {
        return Some(Line::Go);
    }
    let (cpu, command) = parse_request(names, text, text, sizes)?;
    Some(Line::At {
        number,
        cpu,
        command,
    })
}

// The CPU and the command of a text that a wider one begins with.
#[inline(always)]
fn parse_request<'a>(
    names: &Names,
    text: &'a [u8],
    wide: &[u8],
    sizes: &Config,
) -> Option<(u32, Command<'a>)>
    requires names { IsNames names.now }
    requires front { IsFrontOf text.now wide.now }
    ensures { MatchOption result
        ((cpu : ℕ) (command : Command) → ¬ IsRequestText sizes.now cpu command text.entry.now)
        (λ r. IsRequestText sizes.now r.0 r.1 text.entry.now) }
{
    let (cpu, end) = first_number(text)?;
    if cpu < 1 || sizes.cpus < cpu {
        return None;
    }
    let command = parse_command(names, &text[end + 1..], &wide[end + 1..], sizes)?;
    Some((cpu, command))
}

#[inline(always)]
fn parse_command<'a>(
    names: &Names,
    text: &'a [u8],
    wide: &[u8],
    sizes: &Config,
) -> Option<Command<'a>>
    requires names { IsNames names.now }
    requires front { IsFrontOf text.now wide.now }
    ensures { MatchOption result ((command : Command) → ¬ IsCommandText sizes.now command text.entry.now)
        (λ command. IsCommandText sizes.now command text.entry.now) }
{
    let (verb, rest) = first_verb(names, text, wide)?;
    match rest {
        None => match verb {
            Verb::Settle => Some(Command::Settle),
            Verb::Blocks => Some(Command::Blocks),
            Verb::Show => Some(Command::Show),
            Verb::Stock => Some(Command::Stock),
            _ => None,
        },
        Some(arguments) => {
            let wide = &wide[text.len() - arguments.len()..];
            parse_arguments(verb, arguments, wide, sizes)
        }
    }
}

// The command of this name, with its arguments.
#[inline(always)]
fn parse_arguments<'a>(
    verb: Verb,
    arguments: &'a [u8],
    wide: &[u8],
    sizes: &Config,
) -> Option<Command<'a>>
    requires { IsFrontOf arguments.now wide.now }
    ensures { MatchOption result
        ((command : Command) → its_verb command ≡ verb → ¬ HasArguments sizes.now command arguments.entry.now)
        (λ command. (its_verb command ≡ verb) × HasArguments sizes.now command arguments.entry.now) }
{
    match verb {
        Verb::Mkdir => Some(Command::Mkdir {
            path: path_of(arguments)?,
        }),
        Verb::Rmdir => Some(Command::Rmdir {
            path: path_of(arguments)?,
        }),
        Verb::Write => {
            let (path, file, value) = parse_write(arguments, wide)?;
            Some(Command::Write { path, file, value })
        }
        Verb::Read => {
            let (path, file) = parse_read(arguments, wide)?;
            Some(Command::Read { path, file })
        }
        Verb::Alloc => {
            let (path, order) = parse_alloc(arguments, wide)?;
            Some(Command::Alloc { path, order })
        }
        Verb::Fast => {
            let group = group_of(arguments, sizes)?;
            Some(Command::Fast { group })
        }
        Verb::Units => Some(Command::Units {
            path: path_of(arguments)?,
        }),
        Verb::Settle | Verb::Blocks | Verb::Show | Verb::Stock => None,
        _ => on_frame(verb, frame_of(arguments, sizes)?),
    }
}

// The command about this frame. None for a command that names no frame.
#[inline(always)]
fn on_frame<'a>(verb: Verb, frame: u32) -> Option<Command<'a>>
    ensures { MatchOption result (form_of_verb verb ≢ ArgumentForm.Frame) (λ command. words_of_command command ≡ (verb, Frame frame)) }
{
    match verb {
        Verb::Release => Some(Command::Release { frame }),
        Verb::Get => Some(Command::Get { frame }),
        Verb::Put => Some(Command::Put { frame }),
        Verb::OnFrame(act) => Some(Command::OnFrame(act, frame)),
        _ => None,
    }
}

// The frame of the zone that has this number.
#[inline(always)]
fn frame_of(text: &[u8], sizes: &Config) -> Option<u32>
    ensures { MatchOption result ((frame : ℕ) → ¬ IsFrameText sizes.now frame text.now)
        (λ frame. IsFrameText sizes.now frame text.now) }
{
    let frame = number(text)?;
    if frame < sizes.frames {
        Some(frame)
    } else {
        None
    }
}

// A number that a group of the zone can have.
#[inline(always)]
fn group_of(text: &[u8], sizes: &Config) -> Option<u32>
    ensures { MatchOption result ((group : ℕ) → ¬ IsGroupText sizes.now group text.now)
        (λ group. IsGroupText sizes.now group text.now) }
{
    let group = GroupId::of(number(text)?)?.number();
    if group < sizes.choices.groups {
        Some(group)
    } else {
        None
    }
}

// The path and the order.
#[inline(always)]
fn parse_alloc<'a>(arguments: &'a [u8], wide: &[u8]) -> Option<(&'a [u8], u32)>
    requires { IsFrontOf arguments.now wide.now }
    ensures { MatchOption result
        ((path : List ℕ) (order : ℕ) → ¬ IsAllocText path order arguments.now)
        (λ p. IsAllocText p.0.now p.1 arguments.now) }
{
    let (path, order) = first_path(arguments, wide)?;
    Some((path, number(order)?))
}

// The path, the file's name and the value, which is all that follows the space after the name.
#[inline(always)]
fn parse_write<'a>(arguments: &'a [u8], wide: &[u8]) -> Option<(&'a [u8], &'a [u8], &'a [u8])>
    requires { IsFrontOf arguments.now wide.now }
    ensures { MatchOption result
        ((path : List ℕ) (file : List ℕ) (value : List ℕ) → ¬ IsWriteText path file value arguments.now)
        (λ p. IsWriteText p.0.now p.1.now p.2.now arguments.now) }
{
    let (path, rest) = first_path(arguments, wide)?;
    let (file, value) = first_path(rest, &wide[path.len() + 1..])?;
    Some((path, file, value))
}

// The path and the file's name.
#[inline(always)]
fn parse_read<'a>(arguments: &'a [u8], wide: &[u8]) -> Option<(&'a [u8], &'a [u8])>
    requires { IsFrontOf arguments.now wide.now }
    ensures { MatchOption result
        ((path : List ℕ) (file : List ℕ) → ¬ IsReadText path file arguments.now)
        (λ p. IsReadText p.0.now p.1.now arguments.now) }
{
    let (path, file) = first_path(arguments, wide)?;
    Some((path, path_of(file)?))
}

// The path, or file name, before the first space, and what follows that space. None if there is none, or no path before
// it.
#[inline(always)]
fn first_path<'a>(text: &'a [u8], wide: &[u8]) -> Option<(&'a [u8], &'a [u8])>
    requires { IsFrontOf text.now wide.now }
    ensures { MatchOption result
        ((path : List ℕ) (rest : List ℕ) → IsPathText path → text.now ≢ path ++ 32 ∷ rest)
        (λ p. IsPathText p.0.now × IsCut text.now p.0.now p.1.now) }
{
    let end = path_end(text, wide)?;
    if end == 0 {
        return None;
    }
    if text[end] != b' ' {
        return None;
    }
    Some((&text[..end], &text[end + 1..]))
}

/// What is before the first space, and what follows it. None if there is no space.
pub fn first_word(text: &[u8]) -> Option<(&[u8], &[u8])>
    ensures { MatchOption result (All (λ b. b ≢ 32) text.now) (λ p. IsCut text.now p.0.now p.1.now) }
{
    let end = place_by_one(b' ', text)?;
    Some((&text[..end], &text[end + 1..]))
}

// The text, if it is a path or a file name: one or more bytes above 32 and below 127.
#[inline(always)]
fn path_of(text: &[u8]) -> Option<&[u8]>
    ensures { MatchOption result (¬ IsPathText text.now) (λ path. IsPathText text.now × (path.now ≡ text.now)) }
{
    if text.is_empty() || !text.iter().all(|byte| byte.is_ascii_graphic()) {
        return None;
    }
    Some(text)
}
