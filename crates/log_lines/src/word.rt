//! The words of a line, taken from the front.

ghost use Rattle.std.specs.Prelude.{◌≡◌, ◌==◌, ℕ, ◌^◌, ◌<◌, Some, decimal};
ghost use Rattle.std.specs.List.{list_all, position};
ghost use Rattle.log_lines.specs.Words.{is_graphic, is_path};
ghost use Rattle.log_lines.specs.Reading.{ParsesTo, front_word, flag_at, flag_of, group_number_at, is_end, limit_at};
ghost use Rattle.log_lines.specs.Reading.{limit_in_word};
ghost use Rattle.log_lines.specs.Reading.{u32_at, u64_of, block_order_at, path_at, u32_of, wide_at, words_of};

use group_tree::group::GroupId;
use group_tree::path::{MAX_PATH, PathText};
use itoa::Buffer;
use std::marker::Model;
use std::str;
use zone_blocks::order::Order;

/// The words that are left of a line: none, or those of the text after a space. A contract sees their texts. After a
/// `None` they are unspecified.
#[derive(Drop)]
pub(crate) struct Words<'a> {
    rest: Option<&'a [u8]>,
}

impl<'a> Model for Words<'a> {
    ghost use Rattle.std.specs.Prelude.{ℕ, List};
    ghost use Rattle.log_lines.specs.Reading.{words_left};

    ghost Value = { List (List ℕ) };

    ghost view = { λ w. words_left w.rest };
}

impl<'a> Words<'a> {
    /// The words of a text.
    pub(crate) fn of(text: &'a [u8]) -> Words<'a>
        ensures { result ≡ words_of text.now }
    {
        Words { rest: Some(text) }
    }

    /// Whether no word is left.
    pub(crate) fn is_empty(&self) -> bool
        ensures { result ≡ is_end self.now }
    {
        self.rest.is_none()
    }

    /// The next word.
    pub(crate) fn word(&mut self) -> Option<&'a [u8]>
        ensures { ParsesTo (λ word. (word.now, self.new)) result (front_word self.old) }
    {
        let text = self.rest?;
        match space_of(text) {
            None => {
                self.rest = None;
                Some(text)
            }
            Some(end) => {
                self.rest = Some(&text[end + 1..]);
                Some(&text[..end])
            }
        }
    }

    /// A number below 2^64.
    #[tactic(auto, unfolding(crate::specs::Reading::wide_at))]
    pub(crate) fn wide(&mut self) -> Option<u64>
        ensures { ParsesTo (λ n. (n, self.new)) result (wide_at self.old) }
    {
        number_of(self.word()?)
    }

    /// A number of 32 bits.
    #[tactic(auto, unfolding(crate::specs::Reading::u32_at))]
    pub(crate) fn number(&mut self) -> Option<u32>
        ensures { ParsesTo (λ n. (n, self.new)) result (u32_at self.old) }
    {
        u32_of(self.word()?)
    }

    /// The number of a group.
    #[tactic(auto, unfolding(crate::specs::Reading::group_number_at))]
    pub(crate) fn group(&mut self) -> Option<GroupId>
        ensures { ParsesTo (λ g. (g, self.new)) result (group_number_at self.old) }
    {
        GroupId::of(self.number()?)
    }

    /// The order of a block.
    #[tactic(auto, unfolding(crate::specs::Reading::block_order_at))]
    pub(crate) fn order(&mut self) -> Option<Order>
        ensures { ParsesTo (λ k. (k, self.new)) result (block_order_at self.old) }
    {
        Order::of(self.number()?)
    }

    /// A limit in pages, or `max`.
    #[tactic(auto, unfolding(crate::specs::Reading::limit_at))]
    pub(crate) fn limit(&mut self) -> Option<Option<u32>>
        ensures { ParsesTo (λ n. (n, self.new)) result (limit_at self.old) }
    {
        limit_of(self.word()?)
    }

    /// A flag.
    #[tactic(auto, unfolding(crate::specs::Reading::flag_at))]
    pub(crate) fn flag(&mut self) -> Option<bool>
        ensures { ParsesTo (λ f. (f, self.new)) result (flag_at self.old) }
    {
        flag_of(self.word()?)
    }

    /// A path.
    #[tactic(auto, unfolding(crate::specs::Reading::path_at))]
    pub(crate) fn path(&mut self) -> Option<PathText>
        ensures { ParsesTo (λ p. (p, self.new)) result (path_at self.old) }
    {
        let word = self.word()?;
        if is_path(word) {
            PathText::of(word)
        } else {
            None
        }
    }
}

fn space_of(text: &[u8]) -> Option<usize>
    ensures { result ≡ position (λ b. b == 32) text.now }
{
    text.iter().position(|byte| *byte == b' ')
}

// The limit that has this text.
fn limit_of(word: &[u8]) -> Option<Option<u32>>
    ensures { result ≡ limit_in_word word.now }
{
    if word == b"max".as_slice() {
        return Some(None);
    }
    Some(Some(u32_of(word)?))
}

fn flag_of(word: &[u8]) -> Option<bool>
    ensures { result ≡ flag_of word.now }
{
    if word == b"0".as_slice() {
        return Some(false);
    }
    (word == b"1".as_slice()).then_some(true)
}

// Whether a line can contain the path.
fn is_path(word: &[u8]) -> bool
    ensures { result ≡ is_path word.now }
{
    1 <= word.len() && word.len() <= MAX_PATH && are_graphic(word)
}

fn are_graphic(word: &[u8]) -> bool
    ensures { result ≡ list_all is_graphic word.now }
{
    word.iter().all(|byte| is_graphic(*byte))
}

fn is_graphic(byte: u8) -> bool
    ensures { result ≡ is_graphic byte }
{
    33 <= byte && byte <= 126
}

// The number of 32 bits that has this text.
fn u32_of(word: &[u8]) -> Option<u32>
    ensures { result ≡ u32_of word.now }
{
    u32::try_from(number_of(word)?).ok()
}

// The number that has this text: decimal digits without a sign or a leading zero.
fn number_of(word: &[u8]) -> Option<u64>
    ensures { result ≡ u64_of word.now }
{
    let number = value_of(word)?;
    let mut buffer = Buffer::new();
    if buffer.format(number).as_bytes() == word {
        Some(number)
    } else {
        None
    }
}

// The value of a number's text.
fn value_of(word: &[u8]) -> Option<u64>
    ensures { (n : ℕ) → n < 2 ^ 64 → word.now ≡ decimal n → result ≡ Some n }
{
    match str::from_utf8(word) {
        Ok(text) => text.parse().ok(),
        Err(_) => None,
    }
}
