//! Decimal numbers of a script.

ghost use Rattle.std.specs.Prelude.{◌^◌, ◌<◌, List, MatchOption, take, ℕ};
ghost use Rattle.std.specs.Char.{digit_value};
ghost use Rattle.std.specs.Option.{SomeIff};
ghost use Rattle.std.specs.Str.Parse.{IsNumeral, digits_value};
ghost use Rattle.script_lines.specs.Script.{IsCut, IsCutAt, WritesNumber};

use crate::place::place_by_one;

/// The greatest number that a word writes.
const MOST: u64 = 4_294_967_295;

/// How many digits surely fit in 32 bits.
const FEW_DIGITS: usize = 9;

/// The number that the word writes in decimal digits, leading zeros allowed. None if the word is empty, has another
/// byte, or the number is above 2^32 - 1.
#[inline(always)]
pub fn number(word: &[u8]) -> Option<u32>
    ensures { SomeIff result (IsNumeral 10 word.now × (digits_value 10 word.now < 2 ^ 32)) (digits_value 10 word.now) }
{
    if word.len() > FEW_DIGITS {
        return long_number(word);
    }
    if word.is_empty() {
        return None;
    }
    let mut value = 0;
    for byte in word {
        value = value * 10 + digit(*byte)?;
    }
    Some(value)
}

// The digit that the byte is.
#[inline(always)]
fn digit(byte: u8) -> Option<u32>
    ensures { SomeIff result (digit_value byte < 10) (digit_value byte) }
{
    let digit = u32::from(byte).wrapping_sub(u32::from(b'0'));
    if digit < 10 { Some(digit) } else { None }
}

// The same as `number`, for a word of any length, which may have many leading zeros.
#[inline(never)]
fn long_number(word: &[u8]) -> Option<u32>
    ensures { SomeIff result (IsNumeral 10 word.now × (digits_value 10 word.now < 2 ^ 32)) (digits_value 10 word.now) }
{
    if word.is_empty() {
        return None;
    }
    let mut value = 0u64;
    for byte in word {
        let digit = char::from(*byte).to_digit(10)?;
        value = value * 10 + digit as u64;
        if value > MOST {
            return None;
        }
    }
    Some(value as u32)
}

/// The number before the first space, as `number` reads it, and the place of that space. None if there is no space, or
/// no number before it. Most numbers of CPUs have a digit or two, and are read without a loop.
#[inline(always)]
pub(crate) fn first_number(text: &[u8]) -> Option<(u32, usize)>
    ensures { MatchOption result
        ((word : List ℕ) (rest : List ℕ) (n : ℕ) → IsCut text.now word rest → ¬ WritesNumber word n)
        (λ r. IsCutAt text.now r.1 × WritesNumber (take r.1 text.now) r.0) }
{
    if text.len() >= 3 {
        if let Some(tens) = char::from(text[0]).to_digit(10) {
            if text[1] == b' ' {
                return Some((tens, 1));
            }
            if let Some(ones) = char::from(text[1]).to_digit(10) {
                if text[2] == b' ' {
                    return Some((tens * 10 + ones, 2));
                }
            }
        }
    }
    let end = place_by_one(b' ', text)?;
    Some((number(&text[..end])?, end))
}
