//! The answer to a bad line.

ghost use Rattle.std.specs.Prelude.{◌≡◌, IfOk, false, ℕ};
ghost use Rattle.script_lines.specs.{IsLineText, is_skipped, IsNames};
ghost use Rattle.script_lines.specs.declared.line.Line.{Line};
ghost use Rattle.script_lint.specs.Lines.{HasValidCounts};
ghost use Rattle.line_server.specs.Forms.{bad_line_answer};
ghost use Rattle.line_server.specs.Lines.{RefusesText};

use crate::comments::add_comment;
use crate::form::SessionForm;
use script_lines::verb::Names;
use script_lint::{lint_text, write_cause};
use std::alloc::{AllocError, Global};
use zone_blocks::config::Config;

/// Why the text of a line is bad, as a line of this form. It fails only if memory runs out.
pub fn refuse_text(
    alloc: Global,
    form: SessionForm,
    names: &Names,
    text: &[u8],
    sizes: &Config,
) -> Result<Vec<u8>, AllocError>
    requires names { IsNames names.now }
    requires counts { HasValidCounts sizes.now }
    requires asks { is_skipped text.now ≡ false }
    requires bad { (number : ℕ) × ((line : Line) → ¬ IsLineText sizes.now number line text.now) }
    ensures { IfOk result (λ answer. RefusesText form sizes.now text.now answer.items) }
{
    match lint_text(alloc, names, text, sizes)? {
        Some(finding) => {
            let mut why = String::new(alloc);
            write_cause(&finding, sizes, &mut why)?;
            bad_line(alloc, form, why.as_bytes())
        }
        None => unreachable!(),
    }
}

/// The line that says why a line is bad. It fails only if memory runs out.
pub fn bad_line(alloc: Global, form: SessionForm, why: &[u8]) -> Result<Vec<u8>, AllocError>
    ensures { IfOk result (λ line. line.items ≡ bad_line_answer form why.now) }
{
    let mut line = Vec::new(alloc);
    match form {
        SessionForm::Answers { .. } => {
            line.extend_from_slice(b"bad: ")?;
            line.extend_from_slice(why)?;
            line.push(b'\n')?;
        }
        SessionForm::Steps => add_comment(b"# bad: ", why, &mut line)?,
    }
    Ok(line)
}
