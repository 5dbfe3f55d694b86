//! Whether some answer is a refusal, and the status that answers have.

ghost use Rattle.std.specs.Prelude.{◌≡◌};
ghost use Rattle.load_run.specs.Refusals.{answered_status, first_word, has_refusal, is_refusal};

// The status of answers that were written.
pub(crate) fn answered_status(is_strict: bool, is_numbered: bool, answers: &[u8]) -> u8
    ensures { result ≡ answered_status is_strict is_numbered answers.now }
{
    if is_strict && has_refusal(is_numbered, answers) {
        3
    } else {
        0
    }
}

// Whether some line of the answers is a refusal.
fn has_refusal(is_numbered: bool, answers: &[u8]) -> bool
    ensures { result ≡ has_refusal is_numbered answers.now }
{
    answers
        .split(|byte| *byte == b'\n')
        .any(|line| is_refusal(is_numbered, line))
}

// The place of the first word of an answer in its line.
fn first_word(is_numbered: bool) -> usize
    ensures { result ≡ first_word is_numbered }
{
    if is_numbered { 1 } else { 0 }
}

// Whether the line begins with the word `refused`, after its number if it has one.
fn is_refusal(is_numbered: bool, line: &[u8]) -> bool
    ensures { result ≡ is_refusal is_numbered line.now }
{
    let place = first_word(is_numbered);
    match line.split(|byte| *byte == b' ').nth(place) {
        Some(word) => word == "refused".as_bytes(),
        None => false,
    }
}
