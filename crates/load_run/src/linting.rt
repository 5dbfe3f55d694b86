//! The lint of a script: its bad and its refused lines are written to the output, or a fault is reported, and the status
//! says which.

ghost use Rattle.std.specs.Prelude.{◌≡◌, IfErr, IfOk, IfSome, false, true};
ghost use Rattle.std.specs.String.{string_bytes};
ghost use Rattle.load_options.specs.Sizes.{HasSizesInRange};
ghost use Rattle.load_run.specs.Answers.{bytes_read};
ghost use Rattle.load_run.specs.Causes.{written};
ghost use Rattle.load_run.specs.Lints.{IsClean, IsEarlyFault, IsLintText, Lints, lint_status};

use crate::fault::ProgramFault;
use crate::fault_lines::report_fault;
use crate::program::write_answers;
use crate::reading::read_script;
use script_lint::finding::Finding;
use script_lint::{lint_script, refused_lines, write_findings, write_refused, write_sizes};
use std::alloc::{AllocError, Global};
use std::io::{Read, Write};
use zone_blocks::config::Config;

// The name of the script in the findings: that of standard input.
const NAME: &str = "-";

// What the lint of a script says.
#[derive(Drop)]
struct LintText {
    // A line for each finding.
    text: String,
    // Whether no line is bad, and the sizes fit.
    is_clean: bool,
}

/// Lints the script that the input holds, writes what is found to the output, and returns the status to end with: 1 if
/// a line is bad or the sizes don't fit, else 0, also if lines are refused. If the input can't be read, the output can't
/// be written, or memory runs out, that is a fault of status 1.
pub fn drive_lint<I: Read, O: Write, F: Write>(
    alloc: Global,
    sizes: &Config,
    input: &mut I,
    output: &mut O,
    faults: &mut F,
) -> u8
    requires in_range { HasSizesInRange sizes.now }
    ensures lints { Lints sizes.now (I.remaining input.old) (written (O.contents output.old) (F.contents faults.old))
        (written (O.contents output.new) (F.contents faults.new)) result }
{
    match lint_text_of(alloc, sizes, input) {
        Ok(lint) => match write_answers(lint.text.as_bytes(), output) {
            Ok(()) => status_of(lint.is_clean),
            Err(unwritten) => report_fault(&unwritten, faults),
        },
        Err(fault) => report_fault(&fault, faults),
    }
}

// The status of a lint that was written.
fn status_of(is_clean: bool) -> u8
    ensures { result ≡ lint_status is_clean }
{
    if is_clean { 0 } else { 1 }
}

// What the lint says of the script that the input holds.
fn lint_text_of<I: Read>(
    alloc: Global,
    sizes: &Config,
    input: &mut I,
) -> Result<LintText, ProgramFault>
    requires in_range { HasSizesInRange sizes.now }
    ensures lint { IfOk result (λ lint. IfSome (I.remaining input.old)
        (λ bytes. IsLintText sizes.now (bytes_read bytes) (string_bytes lint.text) lint.is_clean)) }
    ensures fault { IfErr result IsEarlyFault }
{
    let script = read_script(alloc, input)?;
    Ok(lint_text_on(alloc, sizes, &script)?)
}

// What the lint says of the script.
fn lint_text_on(alloc: Global, sizes: &Config, script: &[u8]) -> Result<LintText, AllocError>
    requires in_range { HasSizesInRange sizes.now }
    ensures lint { IfOk result (λ lint. IsLintText sizes.now script.now (string_bytes lint.text) lint.is_clean) }
{
    let findings = lint_script(alloc, script, sizes)?;
    let refused = refused_lines(alloc, script, sizes)?;
    let mut text = String::new(alloc);
    write_findings(NAME, &findings, sizes, &mut text)?;
    write_refused(NAME, &refused, &mut text)?;
    write_sizes(sizes, &mut text)?;
    let is_clean = is_clean(&findings, sizes);
    Ok(LintText { text, is_clean })
}

// Whether no line is bad, and the sizes fit.
fn is_clean(findings: &[Finding<'_>], sizes: &Config) -> bool
    ensures clean { result ≡ true → IsClean sizes.now findings.now }
    ensures found { result ≡ false → ¬ IsClean sizes.now findings.now }
{
    findings.is_empty() && sizes.batch <= sizes.high
}
