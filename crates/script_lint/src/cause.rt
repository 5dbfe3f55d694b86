//! Why no good line goes on at some place.

ghost use Rattle.std.specs.Prelude.{◌≡◌, ◌≤◌, length, not};
ghost use Rattle.std.specs.List.{find};
ghost use Rattle.script_lint.specs.Causes.{after_space, byte_at, byte_before, cause_at, is_between_words};
ghost use Rattle.script_lint.specs.Causes.{is_digit, is_double_space, is_gap};
ghost use Rattle.script_lint.specs.Causes.{is_known, is_printable, later_cause_at, takes_group, takes_order, verb_named, verb_of};
ghost use Rattle.script_lint.specs.Causes.{is_unknown_command, is_number_out_of_range, is_no_cpu, is_frame_out_of_zone};
ghost use Rattle.script_lint.specs.Causes.{is_group_out_of_range};
ghost use Rattle.script_lint.specs.Causes.{is_cpu_out_of_range, spaces_before, until_space, word_at, word_behind};
ghost use Rattle.script_lint.specs.Causes.{is_blank, is_byte_order_mark, is_gzip, is_late_comment, is_wide_text};

use crate::finding::Cause;
use script_lines::script::{first_word, is_go};
use script_lines::verb::{ArgumentForm, Verb};

// The first cause that holds at this place.
pub(crate) fn cause_of(text: &[u8], place: usize) -> Cause
    requires { place ≤ length text.now }
    ensures { result ≡ cause_at text.now place }
{
    if is_byte_order_mark(text, place) {
        Cause::ByteOrderMark
    } else if is_wide_text(text, place) {
        Cause::WideText
    } else if is_gzip(text, place) {
        Cause::Gzip
    } else if is_late_comment(text, place) {
        Cause::LateComment
    } else if is_no_cpu(text, place) {
        Cause::NoCpu
    } else if is_cpu_out_of_range(text, place) {
        Cause::CpuOutOfRange
    } else if is_unknown_command(text, place) {
        Cause::UnknownCommand
    } else if byte_at(text, place) == b'\n' {
        Cause::TooFewWords
    } else if is_between_words(text, place) {
        Cause::TooManyWords
    } else if is_double_space(text, place) {
        Cause::TwoSpaces
    } else {
        later_cause(text, place)
    }
}

// The first of the other causes that holds.
fn later_cause(text: &[u8], place: usize) -> Cause
    requires { place ≤ length text.now }
    ensures { result ≡ later_cause_at text.now place }
{
    let byte = byte_at(text, place);
    if byte == b' ' {
        Cause::SpaceAtEnd
    } else if byte == b'\t' {
        Cause::Tab
    } else if byte == b'\r' {
        Cause::CarriageReturn
    } else if is_number_out_of_range(text, place) {
        Cause::NumberOutOfRange
    } else if is_frame_out_of_zone(text, place) {
        Cause::FrameOutOfZone
    } else if is_group_out_of_range(text, place) {
        Cause::GroupOutOfRange
    } else if !is_printable(byte) {
        Cause::UnprintableByte
    } else {
        Cause::SecondGo
    }
}

// The byte at this place: a line feed at the end of the line.
pub(crate) fn byte_at(text: &[u8], place: usize) -> u8
    ensures { result ≡ byte_at text.now place }
{
    match text.get(place) {
        Some(byte) => *byte,
        None => b'\n',
    }
}

// The byte before this place: a line feed at the beginning.
fn byte_before(text: &[u8], place: usize) -> u8
    ensures { result ≡ byte_before text.now place }
{
    if place == 0 {
        b'\n'
    } else {
        byte_at(text, place - 1)
    }
}

// How many spaces are before this place.
fn spaces_before(text: &[u8], place: usize) -> usize
    requires { place ≤ length text.now }
    ensures { result ≡ spaces_before text.now place }
{
    text[..place].iter().filter(|byte| **byte == b' ').count()
}

// What follows the first space.
fn after_space(text: &[u8]) -> &[u8]
    ensures { result.now ≡ after_space text.now }
{
    match first_word(text) {
        Some((_, rest)) => rest,
        None => &text[text.len()..],
    }
}

// What is before the first space.
fn until_space(text: &[u8]) -> &[u8]
    ensures { result.now ≡ until_space text.now }
{
    match first_word(text) {
        Some((word, _)) => word,
        None => text,
    }
}

// The word after so many spaces.
pub(crate) fn word_behind(spaces: usize, text: &[u8]) -> &[u8]
    ensures { result.now ≡ word_behind spaces text.now }
{
    let mut rest = text;
    let mut left = spaces;
    while 0 < left {
        rest = after_space(rest);
        left -= 1;
    }
    until_space(rest)
}

// The word that the place is in.
pub(crate) fn word_at(text: &[u8], place: usize) -> &[u8]
    requires { place ≤ length text.now }
    ensures { result.now ≡ word_at text.now place }
{
    word_behind(spaces_before(text, place), text)
}

// A decimal digit.
fn is_digit(byte: u8) -> bool
    ensures { result ≡ is_digit byte }
{
    byte.is_ascii_digit()
}

// A byte of the printable ASCII that isn't a space.
pub(crate) fn is_printable(byte: u8) -> bool
    ensures { result ≡ is_printable byte }
{
    byte.is_ascii_graphic()
}

// A space, a tab, a carriage return, or a line feed.
fn is_gap(byte: u8) -> bool
    ensures { result ≡ is_gap byte }
{
    byte == 32 || byte == 9 || byte == 13 || byte == 10
}

// A space or a tab.
fn is_blank(byte: u8) -> bool
    ensures { result ≡ is_blank byte }
{
    byte == b' ' || byte == b'\t'
}

// The first byte that isn't blank.
fn first_unblank(text: &[u8]) -> Option<u8>
    ensures { result ≡ find (λ b. not (is_blank b)) text.now }
{
    text.iter().copied().find(|byte| !is_blank(*byte))
}

// Whether the text begins with the byte order mark of UTF-8.
fn is_byte_order_mark(text: &[u8], place: usize) -> bool
    ensures { result ≡ is_byte_order_mark text.now place }
{
    place == 0 && byte_at(text, 0) == 0xEF && byte_at(text, 1) == 0xBB && byte_at(text, 2) == 0xBF
}

// Whether the text is UTF-16, by its byte order mark or a byte 0.
fn is_wide_text(text: &[u8], place: usize) -> bool
    ensures { result ≡ is_wide_text text.now place }
{
    let (first, second) = (byte_at(text, 0), byte_at(text, 1));
    byte_at(text, place) == 0
        || (place == 0 && ((first == 0xFF && second == 0xFE) || (first == 0xFE && second == 0xFF)))
}

// Whether the text begins as a file of gzip does.
fn is_gzip(text: &[u8], place: usize) -> bool
    ensures { result ≡ is_gzip text.now place }
{
    place == 0 && byte_at(text, 0) == 0x1F && byte_at(text, 1) == 0x8B
}

// Whether a comment follows, after spaces and tabs or none.
fn is_late_comment(text: &[u8], place: usize) -> bool
    requires { place ≤ length text.now }
    ensures { result ≡ is_late_comment text.now place }
{
    match first_unblank(&text[place..]) {
        Some(byte) => byte == b'#',
        None => false,
    }
}

// Whether the first word isn't a number.
fn is_no_cpu(text: &[u8], place: usize) -> bool
    requires { place ≤ length text.now }
    ensures { result ≡ is_no_cpu text.now place }
{
    let byte = byte_at(text, place);
    spaces_before(text, place) == 0 && !is_gap(byte) && !is_digit(byte) && !is_go(text)
}

// Whether the first word is a number, and no CPU has it.
fn is_cpu_out_of_range(text: &[u8], place: usize) -> bool
    requires { place ≤ length text.now }
    ensures { result ≡ is_cpu_out_of_range text.now place }
{
    let byte = byte_at(text, place);
    spaces_before(text, place) == 0
        && (is_digit(byte) || (byte == 32 && is_digit(byte_at(text, 0))))
}

// Whether the second word is no command's name.
fn is_unknown_command(text: &[u8], place: usize) -> bool
    requires { place ≤ length text.now }
    ensures { result ≡ is_unknown_command text.now place }
{
    let byte = byte_at(text, place);
    spaces_before(text, place) == 1
        && (!is_gap(byte) || ((byte == 32 || byte == 10) && !is_known(after_space(&text[..place]))))
}

// The command of this name.
fn verb_named(name: &[u8]) -> Option<Verb>
    ensures { result ≡ verb_named name.now }
{
    Verb::ALL
        .iter()
        .copied()
        .find(|verb| verb.name().as_bytes() == name)
}

// Whether it is the name of a command, or no name at all.
fn is_known(name: &[u8]) -> bool
    ensures { result ≡ is_known name.now }
{
    name.is_empty() || verb_named(name).is_some()
}

// Whether there is a space, and a word before and after it.
fn is_between_words(text: &[u8], place: usize) -> bool
    requires { place ≤ length text.now }
    ensures { result ≡ is_between_words text.now place }
{
    byte_at(text, place) == 32
        && !is_gap(byte_before(text, place))
        && !is_gap(byte_at(text, place + 1))
}

// Whether there is a space, and another beside it.
fn is_double_space(text: &[u8], place: usize) -> bool
    requires { place ≤ length text.now }
    ensures { result ≡ is_double_space text.now place }
{
    byte_at(text, place) == 32 && (byte_before(text, place) == 32 || byte_at(text, place + 1) == 32)
}

// The command whose name is the line's second word.
pub(crate) fn verb_of(text: &[u8]) -> Option<Verb>
    ensures { result ≡ verb_of text.now }
{
    verb_named(word_behind(1, text))
}

// Whether the line's command names an order.
fn takes_order(text: &[u8]) -> bool
    ensures { result ≡ takes_order (verb_of text.now) }
{
    verb_of(text).is_some_and(|verb| verb.form() == ArgumentForm::PathOrder)
}

// Whether the line's command names a group by its number.
fn takes_group(text: &[u8]) -> bool
    ensures { result ≡ takes_group (verb_of text.now) }
{
    verb_of(text).is_some_and(|verb| verb.form() == ArgumentForm::Group)
}

// Whether an argument is no number of 32 bits.
fn is_number_out_of_range(text: &[u8], place: usize) -> bool
    requires { place ≤ length text.now }
    ensures { result ≡ is_number_out_of_range text.now place }
{
    let byte = byte_at(text, place);
    1 < spaces_before(text, place) && is_printable(byte) && (!is_digit(byte) || takes_order(text))
}

// Whether a digit makes the number of a group too great.
fn is_group_out_of_range(text: &[u8], place: usize) -> bool
    requires { place ≤ length text.now }
    ensures { result ≡ is_group_out_of_range text.now place }
{
    1 < spaces_before(text, place) && is_digit(byte_at(text, place)) && takes_group(text)
}

// Whether a digit makes the number of a frame too great.
fn is_frame_out_of_zone(text: &[u8], place: usize) -> bool
    requires { place ≤ length text.now }
    ensures { result ≡ is_frame_out_of_zone text.now place }
{
    1 < spaces_before(text, place) && is_digit(byte_at(text, place)) && !takes_group(text)
}
