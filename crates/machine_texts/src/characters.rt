//! Characters by their codes.

ghost use Rattle.std.specs.Prelude.{◌≡◌};
ghost use Rattle.std.specs.Char.{is_ascii};
ghost use Rattle.std.specs.List.{list_all};
ghost use Rattle.control_files.specs.Strings.{AddsBytes};
ghost use Rattle.machine_texts.specs.Characters.{characters};

use std::alloc::AllocError;

/// Adds the characters that have these codes to a text. It fails only if memory runs out.
pub fn push_characters(codes: &[u8], text: &mut String) -> Result<(), AllocError>
    ensures { AddsBytes result text.old text.new (characters codes.now) }
{
    match str::from_utf8(codes) {
        Ok(told) if are_ascii(codes) => text.push_str(told),
        _ => push_each(text, codes),
    }
}

// Whether each code is below 128. Such a text is its own bytes, and is added whole.
fn are_ascii(codes: &[u8]) -> bool
    ensures { result ≡ list_all is_ascii codes.now }
{
    codes.iter().all(|code| code.is_ascii())
}

// Adds one character after the other.
fn push_each(text: &mut String, codes: &[u8]) -> Result<(), AllocError>
    ensures { AddsBytes result text.old text.new (characters codes.now) }
{
    for code in codes {
        text.push(char::from(*code))?;
    }
    Ok(())
}
