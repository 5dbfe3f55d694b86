//! The names of the commands.

ghost use Rattle.std.specs.Prelude.{◌≡◌, ◌<◌, ◌≤◌, IfOk, MatchOption, length, map, take, true};
ghost use Rattle.indexmap.specs.IndexMap.{insert_all};
ghost use Rattle.script_lines.specs.Names.{IsWordEnd, bytes_at_once, code_of, is_word, longest_command_name};
ghost use Rattle.script_lines.specs.Places.{IsFrontOf};
ghost use Rattle.script_lines.specs.Script.{BeginsWithName, IsNamed};
ghost use Rattle.script_lines.specs.Verb.{IsNames, by_name, form_of_verb, name_of_verb, same_name, verb_coded};
ghost use Rattle.script_lines.specs.declared.verb.Verb.{Verb};

use crate::line::FrameAct;
use crate::place::near_space;
use indexmap::IndexMap;
use std::alloc::{AllocError, Global};

/// How many bytes the longest name has.
const LONGEST_NAME: usize = 7;

/// It spreads the names' numbers over the places: each of the first 16 commands is at the place that the upper four bits
/// of its name's number times `SPREAD` give.
const SPREAD: u64 = 17_252_763_057_895_450_569;

/// The first digit of a number. With a 1, no `SPREAD` puts the commands there in the order of `Verb::ALL`.
const FIRST_DIGIT: u64 = 124;

/// Which command a line has.
#[derive(Clone, Copy, PartialEq, Eq)]
pub enum Verb {
    Mkdir,
    Rmdir,
    Write,
    Read,
    Alloc,
    Fast,
    Release,
    Get,
    Put,
    Settle,
    OnFrame(FrameAct),
    Blocks,
    Show,
    Stock,
    Units,
}

/// What follows the name of a command.
#[derive(Clone, Copy, PartialEq, Eq)]
pub enum ArgumentForm {
    /// Nothing, not even a space.
    Alone,
    /// The path of a group.
    Path,
    /// The path of a group, and the name of a file.
    PathFile,
    /// The path of a group, the name of a file, and a value, which may be any bytes or none.
    PathFileValue,
    /// The path of a group, and an order.
    PathOrder,
    /// The number of a group.
    Group,
    /// The number of a frame.
    Frame,
}

impl Verb {
    /// All commands, in the order of the names' table.
    pub const ALL: [Verb; 18] = [
        Verb::Mkdir,
        Verb::Rmdir,
        Verb::Write,
        Verb::Read,
        Verb::Alloc,
        Verb::Fast,
        Verb::Release,
        Verb::Get,
        Verb::Put,
        Verb::Settle,
        Verb::OnFrame(FrameAct::Touch),
        Verb::OnFrame(FrameAct::Dirty),
        Verb::OnFrame(FrameAct::Clean),
        Verb::OnFrame(FrameAct::Owner),
        Verb::Blocks,
        Verb::Show,
        Verb::Stock,
        Verb::Units,
    ];

    // The table of commands: the name of each, and what follows it.
    fn row(self) -> (&'static str, ArgumentForm)
        ensures name { result.0.now ≡ name_of_verb self }
        ensures form { result.1 ≡ form_of_verb self }
    {
        match self {
            Verb::Mkdir => ("mkdir", ArgumentForm::Path),
            Verb::Rmdir => ("rmdir", ArgumentForm::Path),
            Verb::Write => ("write", ArgumentForm::PathFileValue),
            Verb::Read => ("read", ArgumentForm::PathFile),
            Verb::Alloc => ("alloc", ArgumentForm::PathOrder),
            Verb::Fast => ("fast", ArgumentForm::Group),
            Verb::Release => ("release", ArgumentForm::Frame),
            Verb::Get => ("get", ArgumentForm::Frame),
            Verb::Put => ("put", ArgumentForm::Frame),
            Verb::Settle => ("settle", ArgumentForm::Alone),
            Verb::OnFrame(FrameAct::Touch) => ("touch", ArgumentForm::Frame),
            Verb::OnFrame(FrameAct::Dirty) => ("dirty", ArgumentForm::Frame),
            Verb::OnFrame(FrameAct::Clean) => ("clean", ArgumentForm::Frame),
            Verb::OnFrame(FrameAct::Owner) => ("owner", ArgumentForm::Frame),
            Verb::Blocks => ("blocks", ArgumentForm::Alone),
            Verb::Show => ("show", ArgumentForm::Alone),
            Verb::Stock => ("stock", ArgumentForm::Alone),
            Verb::Units => ("units", ArgumentForm::Path),
        }
    }

    /// The name of the command, as a script writes it.
    pub fn name(self) -> &'static str
        ensures { result.now ≡ name_of_verb self }
    {
        self.row().0
    }

    /// What follows the name.
    pub fn form(self) -> ArgumentForm
        ensures { result ≡ form_of_verb self }
    {
        self.row().1
    }
}

/// The name of a command, as the number whose digits to the base 256 are `FIRST_DIGIT` and the name's bytes. So a map
/// hashes and compares it at once; it would take a slice piece by piece.
#[derive(Clone, Copy, PartialEq, Eq, Hash)]
pub struct Name {
    code: u64,
}

impl Name {
    // The name of this text.
    fn of(text: &[u8]) -> Name
        requires word { is_word text.now ≡ true }
        requires short { length text.now ≤ longest_command_name }
        ensures { result.code ≡ code_of text.now }
    {
        let (name, _end) = Name::at_front(text);
        name
    }

    // The first word of the text as a name, and its end. The number of a longer word than a name may have overflowed.
    fn at_front(text: &[u8]) -> (Name, usize)
        ensures end { IsWordEnd text.now result.1 }
        ensures name { result.1 ≤ longest_command_name → result.0.code ≡ code_of (take result.1 text.now) }
    {
        let mut code = FIRST_DIGIT;
        let mut end = 0;
        while end < text.len() && text[end] != b' ' {
            code = code.wrapping_mul(256).wrapping_add(u64::from(text[end]));
            end += 1;
        }
        (Name { code }, end)
    }

    // The name that so many of the first eight bytes are. All eight are read as one number, and what follows the name
    // is shifted out of it.
    #[inline(always)]
    fn of_first(text: &[u8], end: usize) -> Name
        requires room { bytes_at_once ≤ length text.now }
        requires short { end ≤ longest_command_name }
        ensures { result.code ≡ code_of (take end text.now) }
    {
        let bytes = u64::from_be_bytes([
            text[0], text[1], text[2], text[3], text[4], text[5], text[6], text[7],
        ]);
        Name {
            code: ((bytes >> 8) + (FIRST_DIGIT << 56)) >> (56 - 8 * end),
        }
    }
}

/// The commands by their names.
pub type Names = IndexMap<Name, Verb>;

/// A new table of all commands by their names, in the order of `Verb::ALL`. `AllocError` if memory runs out.
pub fn command_names(alloc: Global) -> Result<Names, AllocError>
    ensures { IfOk result IsNames }
{
    let mut names = IndexMap::with_capacity(alloc, Verb::ALL.len())?;
    add_names(&mut names, &Verb::ALL)?;
    Ok(names)
}

// Adds these commands, each under its name.
fn add_names(names: &mut Names, verbs: &[Verb]) -> Result<(), AllocError>
    ensures { IfOk result (λ _. names.new.entries ≡ insert_all same_name names.old.entries (map by_name verbs.now)) }
{
    for verb in verbs {
        names.insert(Name::of(verb.name().as_bytes()), *verb)?;
    }
    Ok(())
}

// The command of this name. The first look is at the place that the name's number gives. The map's own search costs
// several times as much; it is for commands without a place of their own, as `stock` and `units`, whose answers cost far
// more than a search, and for words that name no command. It would serve any order of the table.
fn verb_named(names: &Names, name: Name) -> Option<Verb>
    requires { IsNames names.now }
    ensures { result ≡ verb_coded name.code }
{
    let place = (name.code.wrapping_mul(SPREAD) >> 60) as usize;
    if let Some((found, verb)) = names.get_index(place) {
        if found.code == name.code {
            return Some(*verb);
        }
    }
    names.get(&name).copied()
}

// Where the first word ends, if that is within the first eight bytes of the wide text. Any greater end says that the
// word is longer than a name.
#[inline(always)]
fn near_end(text: &[u8], wide: &[u8]) -> usize
    requires front { IsFrontOf text.now wide.now }
    requires room { bytes_at_once ≤ length wide.now }
    ensures end { result ≤ longest_command_name → IsWordEnd text.now result }
    ensures long { longest_command_name < result → (verb : Verb) → ¬ BeginsWithName verb text.now }
{
    let place = near_space(wide);
    if place < text.len() {
        place
    } else {
        text.len()
    }
}

// The first word as a name, and its end. None if it is longer than a name.
#[inline(always)]
fn first_name(text: &[u8], wide: &[u8]) -> Option<(Name, usize)>
    requires { IsFrontOf text.now wide.now }
    ensures { MatchOption result ((verb : Verb) → ¬ BeginsWithName verb text.now)
        (λ r. IsWordEnd text.now r.1 × (r.0.code ≡ code_of (take r.1 text.now))) }
{
    if wide.len() < 8 {
        let (name, end) = Name::at_front(text);
        if end > LONGEST_NAME {
            return None;
        }
        return Some((name, end));
    }
    let end = near_end(text, wide);
    if end > LONGEST_NAME {
        return None;
    }
    Some((Name::of_first(wide, end), end))
}

/// The command that the text begins with the name of, and what follows the space after that. The latter is None if
/// nothing follows the name. A wider text begins with this one: eight bytes of that are read at once, which a short text
/// lacks. It is inlined, because each line of a script calls it once, and its result is large.
#[inline(always)]
pub(crate) fn first_verb<'a>(
    names: &Names,
    text: &'a [u8],
    wide: &[u8],
) -> Option<(Verb, Option<&'a [u8]>)>
    requires names { IsNames names.now }
    requires front { IsFrontOf text.now wide.now }
    ensures { MatchOption result ((verb : Verb) → ¬ BeginsWithName verb text.entry.now)
        (λ r. IsNamed r.0 r.1 text.entry.now) }
{
    let (name, end) = first_name(text, wide)?;
    let verb = verb_named(names, name)?;
    if end == text.len() {
        return Some((verb, None));
    }
    Some((verb, Some(&text[end + 1..])))
}
