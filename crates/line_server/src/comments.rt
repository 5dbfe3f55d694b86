//! The comments of a log: the line whose steps follow, and after these its answer.

ghost use Rattle.std.specs.Prelude.{◌≡◌, ◌++◌, IfOk, map};
ghost use Rattle.line_server.specs.Logs.{answer_comment, answer_comments, comment, is_explanation, line_comment};
ghost use Rattle.line_server.specs.Logs.{printed};

use script_lines::line::Line;
use script_lines::script::{MAX_LINE, first_line};
use std::alloc::{AllocError, Global};

// A byte of a comment: one outside 32 to 126 is shown as `?`.
fn printed(byte: u8) -> u8
    ensures { result ≡ printed byte }
{
    if 32 <= byte && byte <= 126 {
        byte
    } else {
        b'?'
    }
}

// Adds the bytes as they are shown in a comment.
fn add_printed(bytes: &[u8], log: &mut Vec<u8>) -> Result<(), AllocError>
    ensures { IfOk result (λ _. log.new.items ≡ log.old.items ++ map printed bytes.now) }
{
    for byte in bytes {
        log.push(printed(*byte))?;
    }
    Ok(())
}

/// Adds a comment of these two texts, one after the other.
pub(crate) fn add_comment(front: &[u8], back: &[u8], log: &mut Vec<u8>) -> Result<(), AllocError>
    ensures { IfOk result (λ _. log.new.items ≡ log.old.items ++ comment (front.now ++ back.now)) }
{
    let start = log.len();
    add_printed(front, log)?;
    add_printed(back, log)?;
    log.truncate(start + MAX_LINE);
    log.push(b'\n')?;
    Ok(())
}

/// Adds the comment before the steps of a line with this text. `go` has none.
pub(crate) fn add_line(
    alloc: Global,
    text: &[u8],
    line: &Line<'_>,
    log: &mut Vec<u8>,
) -> Result<(), AllocError>
    ensures { IfOk result (λ _. log.new.items ≡ log.old.items ++ line_comment text.now line.now) }
{
    match line {
        Line::Go => Ok(()),
        Line::At { number, .. } => {
            let mut front = String::new(alloc);
            write!(front, "# line {number}: ")?;
            add_comment(front.as_bytes(), text, log)
        }
    }
}

// Whether a line of an answer is one of its explanation.
fn is_explanation(line: &[u8]) -> bool
    ensures { result ≡ is_explanation line.now }
{
    match line.first() {
        Some(byte) => *byte == b'#',
        None => false,
    }
}

// Adds the comment of a line of an answer.
fn add_answer_line(line: &[u8], log: &mut Vec<u8>) -> Result<(), AllocError>
    ensures { IfOk result (λ _. log.new.items ≡ log.old.items ++ answer_comment line.now) }
{
    if is_explanation(line) {
        add_comment(b"", line, log)
    } else {
        add_comment(b"# = ", line, log)
    }
}

/// Adds the comments of an answer, whose lines each end with a line feed.
pub fn add_answer(answer: &[u8], log: &mut Vec<u8>) -> Result<(), AllocError>
    ensures { IfOk result (λ _. log.new.items ≡ log.old.items ++ answer_comments answer.now) }
{
    let (mut line, mut rest) = first_line(answer);
    while let Some(left) = rest {
        add_answer_line(line, log)?;
        (line, rest) = first_line(left);
    }
    Ok(())
}
