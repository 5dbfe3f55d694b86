//! The text of a path.

ghost use Rattle.std.specs.Prelude.{◌≡◌, ◌≤◌, ◌++◌, SomeIff, drop, length};
ghost use Rattle.group_tree.specs.Bounds.{longest_path};

use std::marker::Model;

/// The most bytes of a path.
pub const MAX_PATH: usize = 512;

/// The most bytes of a name (NAME_MAX of Linux).
pub const MAX_NAME: usize = 255;

/// The most names of a path.
pub const MAX_DEPTH: usize = 8;

/// A text of at most 512 bytes, kept in an array without an allocation. Zeros follow the text.
#[derive(Clone, Copy, Debug, PartialEq, Eq)]
pub struct PathText {
    bytes: [u8; MAX_PATH],
    len: usize,
}

impl Model for PathText {
    ghost use Rattle.std.specs.Prelude.{◌≡◌, ◌-◌, ◌≤◌, ◌++◌, ℕ, List, length, take, drop, replicate};

    ghost Value = { List ℕ };

    ghost view = { λ p. take p.len p.bytes };

    ghost use Rattle.group_tree.specs.Bounds.{longest_path};
    ghost use Rattle.group_tree.specs.Text.{IsPadded, padded, padded-view};

    ghost invariant = { λ p. IsPadded longest_path p.bytes p.len };

    ghost inverse = { λ text. record { bytes = padded longest_path text; len = length text } };

    ghost inverse_ok = { λ p h. padded-view p.bytes p.len h };
}

impl PathText {
    /// The text of these bytes, or None if there are more than 512.
    pub fn of(text: &[u8]) -> Option<PathText>
        ensures { SomeIff result (length text.now ≤ longest_path) text.now }
    {
        if text.len() > MAX_PATH {
            return None;
        }
        let mut bytes = [0; MAX_PATH];
        write_front(&mut bytes, text);
        Some(PathText {
            bytes,
            len: text.len(),
        })
    }

    /// The bytes of the text.
    pub fn as_bytes(&self) -> &[u8]
        ensures text { result.now ≡ self.now }
        ensures short { length result.now ≤ longest_path }
    {
        &self.bytes[..self.len]
    }
}

fn write_front(bytes: &mut [u8], text: &[u8])
    requires { length text.now ≤ length bytes.old }
    ensures { bytes.new ≡ text.now ++ drop (length text.now) bytes.old }
{
    bytes[..text.len()].copy_from_slice(text);
}
