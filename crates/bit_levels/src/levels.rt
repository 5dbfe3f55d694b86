//! A set of numbers with its summaries.

ghost use Rattle.std.specs.Prelude.{◌≡◌, ◌≤◌, ◌<◌, ◌↔◌, IsTrue, IfOk, MatchOption, false, length, replicate, slice_set};
ghost use Rattle.bit_levels.specs.Sets.{IsIn, HasNoneIn, IsLastIn, IsSummaryOf};

use crate::bits::Bits;
use std::alloc::{AllocError, Global};
use std::marker::Model;

/// A set of numbers below a bound. A contract sees a list of truth values, one for each number.
#[derive(Drop)]
pub struct BitLevels {
    bits: Bits,
    // The words of `bits` that have a member.
    summary: Bits,
    // The words of `summary` that have a member.
    top: Bits,
}

impl Model for BitLevels {
    ghost use Rattle.std.specs.Prelude.{List, Bool};
    ghost use Rattle.bit_levels.specs.Sets.{IsSummaryOf};

    ghost Value = { List Bool };

    ghost view = { λ s. s.bits };

    ghost invariant = { λ s. IsSummaryOf s.bits s.summary × IsSummaryOf s.summary s.top };
}

impl BitLevels {
    /// The empty set of numbers below this bound. All room is reserved here: no other call takes
    /// memory.
    pub fn new(alloc: Global, len: usize) -> Result<BitLevels, AllocError>
        ensures { IfOk result (λ set. set ≡ replicate len false) }
    {
        let words = len / 64 + 1;
        let bits = Bits::new(alloc, len)?;
        let summary = Bits::new(alloc, words)?;
        let top = Bits::new(alloc, words / 64 + 1)?;
        Ok(BitLevels { bits, summary, top })
    }

    /// The bound: each number of the set is below it.
    pub fn len(&self) -> usize
        ensures { result ≡ length self.now }
    {
        self.bits.len()
    }

    /// Whether the number is in the set.
    pub fn contains(&self, number: usize) -> bool
        requires { number < length self.now }
        ensures { IsTrue result ↔ IsIn self.now number }
    {
        self.bits.contains(number)
    }

    /// Inserts the number, or removes it.
    pub fn set(&mut self, number: usize, value: bool)
        requires { number < length self.old }
        ensures { self.new ≡ slice_set self.old number value }
    {
        self.bits.set(number, value);
        let word = number / 64;
        let has = self.bits.has_in_word(word);
        // Written in any case: whether a mark changes is hard to predict, and its word is at hand.
        self.summary.set(word, has);
        self.top.set(word / 64, self.summary.has_in_word(word / 64));
    }

    /// The nearest number below this one that is in the set, by one look at each level and at the topmost words, each
    /// of which covers 262,144 numbers.
    // Inlined, so that the first look, which mostly suffices, costs no call.
    #[inline(always)]
    pub fn last_below(&self, number: usize) -> Option<usize>
        requires { number ≤ length self.now }
        ensures { MatchOption result (HasNoneIn self.now 0 number) (IsLastIn self.now 0 number) }
    {
        let found = self.bits.last_in_word_below(number);
        if found.is_some() {
            return found;
        }
        let word = last_by_summary(&self.summary, &self.top, number / 64)?;
        self.bits.last_in_word(word)
    }
}

/// The last number below this one that is in the set, which has a summary.
#[inline(never)]
fn last_by_summary(set: &Bits, summary: &Bits, number: usize) -> Option<usize>
    requires summary { IsSummaryOf set.now summary.now }
    requires within { number ≤ length set.now }
    ensures { MatchOption result (HasNoneIn set.now 0 number) (IsLastIn set.now 0 number) }
{
    let found = set.last_in_word_below(number);
    if found.is_some() {
        return found;
    }
    let word = summary.last_below(number / 64)?;
    set.last_in_word(word)
}
