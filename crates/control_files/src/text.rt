//! A short text.

ghost use Rattle.std.specs.Prelude.{◌≡◌, ◌+◌, ◌≤◌, [], ◌++◌, take, drop, length};
ghost use Rattle.std.specs.Fmt.{decimal};
ghost use Rattle.control_files.specs.Files.{pages_text};
ghost use Rattle.control_files.specs.Text.{longest_text};

use itoa::Buffer;
use std::marker::Model;

/// The bytes of a page.
pub const PAGE_BYTES: u64 = 4096;

/// How many bytes a text may have.
pub const MAX_TEXT: usize = 256;

/// A text of at most 256 bytes, kept without memory of its own. Zeros follow the text.
#[derive(Clone, Copy, Debug, PartialEq, Eq)]
pub struct ArrayText {
    bytes: [u8; MAX_TEXT],
    len: usize,
}

impl Model for ArrayText {
    ghost use Rattle.std.specs.Prelude.{◌≡◌, ◌-◌, ◌≤◌, ◌++◌, ℕ, List, length, take, drop, replicate};

    ghost Value = { List ℕ };

    ghost view = { λ t. take t.len t.bytes };

    ghost use Rattle.group_tree.specs.Text.{IsPadded, padded};
    ghost use Rattle.control_files.specs.Text.{longest_text, text-view};

    ghost invariant = { λ t. IsPadded longest_text t.bytes t.len };

    ghost inverse = { λ text. record { bytes = padded longest_text text; len = length text } };

    ghost inverse_ok = { λ t h. text-view t.bytes t.len h };
}

impl ArrayText {
    /// The bytes of the text.
    pub fn as_bytes(&self) -> &[u8]
        ensures text { result.now ≡ self.now }
        ensures short { length result.now ≤ longest_text }
    {
        &self.bytes[..self.len]
    }

    /// The empty text.
    pub(crate) fn new() -> ArrayText
        ensures { result ≡ [] }
    {
        ArrayText {
            bytes: [0; MAX_TEXT],
            len: 0,
        }
    }

    /// Writes more bytes at the end.
    pub(crate) fn push(&mut self, more: &[u8])
        requires { length self.old + length more.now ≤ longest_text }
        ensures { self.new ≡ self.old ++ more.now }
    {
        write_at(&mut self.bytes, self.len, more);
        self.len += more.len();
    }

    /// Writes a number at the end, in decimal.
    pub(crate) fn push_number(&mut self, number: u64)
        requires { length self.old + 20 ≤ longest_text }
        ensures text { self.new ≡ self.old ++ decimal number }
        ensures short { length self.new ≤ length self.old + 20 }
    {
        // Most counts of events are one digit.
        if number < 10 {
            self.push(&[b'0' + number as u8]);
            return;
        }
        let mut buffer = Buffer::new();
        self.push(buffer.format(number).as_bytes());
    }
}

/// These bytes as a text.
pub(crate) fn text_of(bytes: &[u8]) -> ArrayText
    requires { length bytes.now ≤ longest_text }
    ensures { result ≡ bytes.now }
{
    let mut text = ArrayText::new();
    text.push(bytes);
    text
}

/// The bytes of this many pages, on a line of their own.
pub(crate) fn pages_text(pages: u32) -> ArrayText
    ensures { result ≡ pages_text pages }
{
    let mut text = ArrayText::new();
    text.push_number(u64::from(pages) * PAGE_BYTES);
    text.push(b"\n");
    text
}

// Writes bytes over those from a place on.
fn write_at(bytes: &mut [u8], at: usize, more: &[u8])
    requires { at + length more.now ≤ length bytes.old }
    ensures { bytes.new ≡ take at bytes.old ++ (more.now ++ drop (at + length more.now) bytes.old) }
{
    bytes[at..at + more.len()].copy_from_slice(more);
}
