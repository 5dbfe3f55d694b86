//! The word of a value, between white space.

ghost use Rattle.std.specs.Prelude.{◌≡◌, not, option_copied};
ghost use Rattle.std.specs.List.{position, list_all};
ghost use Rattle.control_files.specs.Limit.{is_space};
ghost use Rattle.control_files.specs.Reading.{IsOnlyWord};

/// The one word of a text between white space; None if there is none, or more than one.
pub(crate) fn only_word(text: &[u8]) -> Option<&[u8]>
    ensures { IsOnlyWord text.now (option_copied result) }
{
    let start = first_non_space(text)?;
    let text = &text[start..];
    let (word, after) = text.split_at(first_space(text).unwrap_or(text.len()));
    are_spaces(after).then_some(word)
}

// The first byte that is no white space.
fn first_non_space(text: &[u8]) -> Option<usize>
    ensures { result ≡ position (λ byte. not (is_space byte)) text.now }
{
    text.iter().position(|byte| !is_space(*byte))
}

fn first_space(text: &[u8]) -> Option<usize>
    ensures { result ≡ position is_space text.now }
{
    text.iter().position(|byte| is_space(*byte))
}

fn are_spaces(text: &[u8]) -> bool
    ensures { result ≡ list_all is_space text.now }
{
    text.iter().all(|byte| is_space(*byte))
}

fn is_space(byte: u8) -> bool
    ensures { result ≡ is_space byte }
{
    matches!(byte, b' ' | b'\t'..=b'\r')
}
