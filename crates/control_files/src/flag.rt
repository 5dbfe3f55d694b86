//! The flag of a group, as memory.oom.group writes it.

ghost use Rattle.std.specs.Prelude.{◌≡◌, Bool, IfErr, ◌↔◌};
ghost use Rattle.control_files.specs.Files.{flag_text};
ghost use Rattle.control_files.specs.Flag.{IsFlagText, IsNoFlagText, flag_word};

use crate::text::{ArrayText, text_of};
use crate::word::only_word;
use group_tree::fault::Fault;

/// Reads the text of a flag: `0` or `1`, with white space before and after. Any other text, such as `00`, `01`, `+1` or
/// the empty one, is refused with `BadLimit`. (cgroup-v2.rst, memory.oom.group.)
pub fn read_flag(text: &[u8]) -> Result<bool, Fault>
    ensures ok { (flag : Bool) → (result ≡ Ok flag) ↔ IsFlagText text.now flag }
    ensures bad_limit { (result ≡ Err Fault.BadLimit) ↔ IsNoFlagText text.now }
    ensures err { IfErr result (λ fault. fault ≡ Fault.BadLimit) }
{
    let word = only_word(text).ok_or(Fault::BadLimit)?;
    flag_of(word).ok_or(Fault::BadLimit)
}

// The flag of this word; None if it is no flag's.
fn flag_of(word: &[u8]) -> Option<bool>
    ensures { (flag : Bool) → (result ≡ Some flag) ↔ (word.now ≡ flag_word flag) }
{
    if word == b"0".as_slice() {
        Some(false)
    } else if word == b"1".as_slice() {
        Some(true)
    } else {
        None
    }
}

/// The text of memory.oom.group: `0` or `1`, on a line of its own. It reads back as the same flag.
pub fn write_flag(flag: bool) -> ArrayText
    ensures text { result ≡ flag_text flag }
    ensures reads_back { IsFlagText result flag }
{
    if flag {
        text_of(b"1\n")
    } else {
        text_of(b"0\n")
    }
}
