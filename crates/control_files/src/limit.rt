//! The limit of a group, as memory.max writes it.

ghost use Rattle.std.specs.Prelude.{◌≡◌, ℕ, ◌^◌, ◌<◌, not, Option, SomeIff, IfSome, IfNone, IfErr, List, ◌↔◌, ◌⊎◌};
ghost use Rattle.std.specs.Char.{is_ascii_digit, to_ascii_uppercase};
ghost use Rattle.std.specs.List.{position};
ghost use Rattle.std.specs.Str.Parse.{AllDigits, digits_value};
ghost use Rattle.control_files.specs.Files.{limit_text};
ghost use Rattle.control_files.specs.Limit.{factor_of, IsSuffix, pages_covering, IsLimitText, ReadsAmount, ReadsAs};
ghost use Rattle.control_files.specs.Limit.{IsTooGreat, IsNoAmountText, IsNoLimitText};
ghost use Rattle.control_files.specs.Reading.{IsAmountReading, SplitsDigits};

use crate::text::{ArrayText, PAGE_BYTES, pages_text, text_of};
use crate::word::only_word;
use group_tree::fault::Fault;

/// A limit in pages of 4,096 bytes; None for no limit.
pub type Limit = Option<u32>;

/// Reads the text of a limit, of any length: `max`, or bytes in decimal, perhaps with one letter of K M G T P E in
/// either case, and white space before and after. The limit is in pages, rounded up; 2^32 pages or more are no limit. A
/// text outside this grammar is refused with `BadLimit`, a value above 2^64 - 1 bytes with `BadNumber`. (cgroup-v2.rst,
/// memory.max; suffixes as in the kernel's memparse.)
pub fn read_limit(text: &[u8]) -> Result<Limit, Fault>
    ensures ok { (limit : Option ℕ) → (result ≡ Ok limit) ↔ ReadsAs text.now limit }
    ensures bad_number { (result ≡ Err Fault.BadNumber) ↔ IsTooGreat text.now }
    ensures bad_limit { (result ≡ Err Fault.BadLimit) ↔ IsNoLimitText text.now }
    ensures err { IfErr result (λ fault. (fault ≡ Fault.BadNumber) ⊎ (fault ≡ Fault.BadLimit)) }
{
    let word = only_word(text).ok_or(Fault::BadLimit)?;
    if word == b"max".as_slice() {
        return Ok(None);
    }
    Ok(limit_of(bytes_of(word)?))
}

/// Reads the text of an amount, as memory.reclaim takes it: what `read_limit` reads, except `max`. The amount is in
/// pages, rounded up, at most 2^52 of them; it never means no limit. A text that is no amount is refused with
/// `BadLimit`, an amount above 2^64 - 1 bytes with `BadNumber`. (cgroup-v2.rst, memory.reclaim.)
pub fn read_amount(text: &[u8]) -> Result<u64, Fault>
    ensures ok { (pages : ℕ) → (result ≡ Ok pages) ↔ ReadsAmount text.now pages }
    ensures bad_number { (result ≡ Err Fault.BadNumber) ↔ IsTooGreat text.now }
    ensures bad_limit { (result ≡ Err Fault.BadLimit) ↔ IsNoAmountText text.now }
    ensures err { IfErr result (λ fault. (fault ≡ Fault.BadNumber) ⊎ (fault ≡ Fault.BadLimit)) }
{
    let word = only_word(text).ok_or(Fault::BadLimit)?;
    Ok(bytes_of(word)?.div_ceil(PAGE_BYTES))
}

/// The text of memory.max: the limit in bytes in decimal, or `max`, on a line of its own. It reads back as
/// the same limit.
pub fn write_limit(limit: Limit) -> ArrayText
    ensures text { result ≡ limit_text limit }
    ensures reads_back { ReadsAs result limit }
{
    match limit {
        None => text_of(b"max\n"),
        Some(pages) => pages_text(pages),
    }
}

/// A text has at most one value.
pub fn one_value()
    ensures { (text : List ℕ) (v w : Option ℕ) → IsLimitText text v → IsLimitText text w → v ≡ w }
{}

// The limit of this many bytes.
fn limit_of(amount: u64) -> Limit
    ensures { result ≡ pages_covering (Some amount) }
{
    u32::try_from(amount.div_ceil(PAGE_BYTES)).ok()
}

// What a suffix multiplies by.
#[tactic(auto, unfolding(crate::specs::Limit::factor_of))]
fn factor_of(letter: u8) -> Option<u64>
    ensures { result ≡ factor_of (to_ascii_uppercase letter) }
{
    match letter.to_ascii_uppercase() {
        b'K' => Some(1 << 10),
        b'M' => Some(1 << 20),
        b'G' => Some(1 << 30),
        b'T' => Some(1 << 40),
        b'P' => Some(1 << 50),
        b'E' => Some(1 << 60),
        _ => None,
    }
}

// Reads an amount of bytes.
fn bytes_of(word: &[u8]) -> Result<u64, Fault>
    ensures { IsAmountReading word.now result }
{
    let (digits, suffix) = split_digits(word);
    let factor = read_suffix(suffix).ok_or(Fault::BadLimit)?;
    if digits.is_empty() {
        return Err(Fault::BadLimit);
    }
    let number = number_of(digits).ok_or(Fault::BadNumber)?;
    number.checked_mul(factor).ok_or(Fault::BadNumber)
}

// The digits that begin the word, and the bytes after them.
fn split_digits(word: &[u8]) -> (&[u8], &[u8])
    ensures { SplitsDigits word.now result.0.now result.1.now }
{
    word.split_at(first_non_digit(word).unwrap_or(word.len()))
}

fn first_non_digit(word: &[u8]) -> Option<usize>
    ensures { result ≡ position (λ byte. not (is_ascii_digit byte)) word.now }
{
    word.iter().position(|byte| !byte.is_ascii_digit())
}

// What a suffix multiplies by; None if the bytes are no suffix.
fn read_suffix(suffix: &[u8]) -> Option<u64>
    ensures some { IfSome result (λ factor. IsSuffix suffix.now factor) }
    ensures none { IfNone result ((factor : ℕ) → ¬ IsSuffix suffix.now factor) }
{
    match suffix {
        [] => Some(1),
        [letter] => factor_of(*letter),
        _ => None,
    }
}

// The number that digits write; None if it is above 2^64 - 1.
fn number_of(digits: &[u8]) -> Option<u64>
    requires { AllDigits 10 digits.now }
    ensures { SomeIff result (digits_value 10 digits.now < 2 ^ 64) (digits_value 10 digits.now) }
{
    let mut number: u64 = 0;
    for digit in digits {
        number = number
            .checked_mul(10)?
            .checked_add(u64::from(*digit - b'0'))?;
    }
    Some(number)
}
