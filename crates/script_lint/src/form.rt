//! What a line has to be.

ghost use Rattle.std.specs.Prelude.{◌≡◌};
ghost use Rattle.control_files.specs.Strings.{AddsBytes};
ghost use Rattle.script_lint.specs.Causes.{verb_of};
ghost use Rattle.script_lint.specs.Forms.{form_text_of, words_text};

use crate::cause::verb_of;
use script_lines::verb::ArgumentForm;
use std::alloc::AllocError;

// Adds the form of the line's command, or of a line if none has the second word as its name.
pub(crate) fn write_form(line: &[u8], text: &mut String) -> Result<(), AllocError>
    ensures { AddsBytes result text.old text.new (form_text_of (verb_of line.now)) }
{
    match verb_of(line) {
        Some(verb) => {
            text.push_str(verb.name())?;
            text.push_str(words_text(verb.form()))
        }
        None => text.push_str("a line is P COMMAND or go"),
    }
}

// The words after the name of a command of this form.
fn words_text(form: ArgumentForm) -> &'static str
    ensures { result.now ≡ words_text form }
{
    match form {
        ArgumentForm::Alone => "",
        ArgumentForm::Path => " PATH",
        ArgumentForm::PathFile => " PATH FILE",
        ArgumentForm::PathFileValue => " PATH FILE VALUE",
        ArgumentForm::PathOrder => " PATH ORDER",
        ArgumentForm::Group => " GROUP",
        ArgumentForm::Frame => " FRAME",
    }
}
