//! Numbers in texts.

ghost use Rattle.std.specs.Prelude.{◌≡◌, ◌++◌, IfOk, codes};
ghost use Rattle.std.specs.Fmt.{decimal};
ghost use Rattle.std.specs.String.{string_bytes};

use control_files::number::push_number;
use std::alloc::AllocError;

// Adds a line of a word, which ends with a space, and a number.
pub(crate) fn write_number(word: &str, number: u64, text: &mut String) -> Result<(), AllocError>
    ensures { IfOk result (λ _. string_bytes text.new
        ≡ string_bytes text.old ++ (word.now ++ decimal number ++ codes "\n")) }
{
    text.push_str(word)?;
    push_number(number, text)?;
    // `push` costs a third of `push_str` with a text of one character.
    text.push('\n')
}
