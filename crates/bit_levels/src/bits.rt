//! A set of numbers as words of bits.

ghost use Rattle.std.specs.Prelude.{◌≡◌, ◌+◌, ◌*◌, ◌/◌, ◌≤◌, ◌<◌, ◌↔◌, IsTrue, IfOk, MatchOption, false, not, length};
ghost use Rattle.std.specs.Prelude.{replicate, slice_index_or, slice_set};
ghost use Rattle.bit_levels.specs.Sets.{IsIn, HasNoneIn, HasSomeIn, IsLastIn};

use crate::word;
use std::alloc::{AllocError, Global};
use std::marker::Model;

/// A set of numbers below a bound, one bit for each. A contract sees a list of truth values.
#[derive(Drop)]
pub struct Bits {
    len: usize,
    // 64 numbers a word, and a word after the last.
    words: Vec<u64>,
}

impl Model for Bits {
    ghost use Rattle.std.specs.Prelude.{List, Bool};
    ghost use Rattle.bit_levels.specs.Sets.{set_of, AreWords};

    ghost Value = { List Bool };

    ghost view = { λ b. set_of b.len b.words.items };

    ghost invariant = { λ b. AreWords b.len b.words.items };
}

impl Bits {
    /// The empty set of numbers below this bound. All room is reserved here: no other call takes
    /// memory.
    pub fn new(alloc: Global, len: usize) -> Result<Bits, AllocError>
        ensures { IfOk result (λ bits. bits ≡ replicate len false) }
    {
        let words = vec![in alloc; 0_u64; len / 64 + 1]?;
        Ok(Bits { len, words })
    }

    /// The bound: each number of the set is below it.
    pub fn len(&self) -> usize
        ensures { result ≡ length self.now }
    {
        self.len
    }

    /// Whether the number is in the set.
    pub fn contains(&self, number: usize) -> bool
        requires { number < length self.now }
        ensures { IsTrue result ↔ IsIn self.now number }
    {
        word::has(self.words[number / 64], (number % 64) as u32)
    }

    /// Inserts the number, or removes it.
    pub fn set(&mut self, number: usize, value: bool)
        requires { number < length self.old }
        ensures { self.new ≡ slice_set self.old number value }
    {
        let old = self.words[number / 64];
        self.words[number / 64] = word::with(old, (number % 64) as u32, value);
    }

    /// Inserts the number if it isn't in the set, else removes it.
    pub fn toggle(&mut self, number: usize)
        requires { number < length self.old }
        ensures { self.new ≡ slice_set self.old number (not (slice_index_or self.old number false)) }
    {
        let value = !self.contains(number);
        self.set(number, value);
    }

    /// Whether one of the 64 numbers of this word is in the set.
    pub fn has_in_word(&self, word: usize) -> bool
        requires { word ≤ length self.now / 64 }
        ensures { IsTrue result ↔ HasSomeIn self.now (word * 64) (word * 64 + 64) }
    {
        let members = self.words[word];
        members != 0
    }

    /// The last of the 64 numbers of this word that is in the set.
    pub fn last_in_word(&self, word: usize) -> Option<usize>
        requires { word ≤ length self.now / 64 }
        ensures { MatchOption result (HasNoneIn self.now (word * 64) (word * 64 + 64))
            (IsLastIn self.now (word * 64) (word * 64 + 64)) }
    {
        let place = word::highest(self.words[word])?;
        Some(word * 64 + place as usize)
    }

    /// The last number below this one, and of its word, that is in the set.
    pub fn last_in_word_below(&self, number: usize) -> Option<usize>
        requires { number ≤ length self.now }
        ensures { MatchOption result (HasNoneIn self.now (number / 64 * 64) number)
            (IsLastIn self.now (number / 64 * 64) number) }
    {
        let word = number / 64;
        let place = word::highest(word::below(self.words[word], (number % 64) as u32))?;
        Some(word * 64 + place as usize)
    }

    /// The last number below this one that is in the set, by a look at one word after the other.
    pub fn last_below(&self, number: usize) -> Option<usize>
        requires { number ≤ length self.now }
        ensures { MatchOption result (HasNoneIn self.now 0 number) (IsLastIn self.now 0 number) }
    {
        let mut found = self.last_in_word_below(number);
        let mut word = number / 64;
        while word > 0 {
            if found.is_some() {
                return found;
            }
            word -= 1;
            found = self.last_in_word(word);
        }
        found
    }
}
