//! The form of answers.

ghost use Rattle.std.specs.Prelude.{◌≡◌, ◌++◌, IfOk, OnOk, map};
ghost use Rattle.std.specs.Str.Lines.{lines};
ghost use Rattle.std.specs.String.{string_bytes};
ghost use Rattle.script_replay.specs.Numbers.{numbered_text};

use std::alloc::{AllocError, Global};

/// How the answers to lines are written.
#[derive(Clone, Copy, Debug, PartialEq, Eq)]
pub struct Form {
    /// Whether a refusal is followed by its reason, and the answer of a command that drained, reclaimed or killed by the
    /// explanation.
    pub is_explained: bool,
    /// Whether each line of an answer begins with the number of its script line.
    pub is_numbered: bool,
}

// Adds the text with the number, a colon and a space before each of its lines.
pub(crate) fn write_numbered(
    alloc: Global,
    number: usize,
    plain: &str,
    text: &mut String,
) -> Result<(), AllocError>
    ensures { OnOk result (string_bytes text.new ≡ string_bytes text.old ++ numbered_text number plain.now) }
{
    let lines = lines_of(alloc, plain)?;
    for line in &lines {
        writeln!(text, "{number}: {line}")?;
    }
    Ok(())
}

// The lines of the text.
fn lines_of<'a>(alloc: Global, text: &'a str) -> Result<Vec<&'a str>, AllocError>
    ensures { IfOk result (λ found. map (λ line. line.now) found.items ≡ lines text.now) }
{
    text.lines().collect(alloc)
}
