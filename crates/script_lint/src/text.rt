//! What is written for what is found.

ghost use Rattle.std.specs.Prelude.{◌≡◌, ◌++◌, All, None, Some};
ghost use Rattle.std.specs.List.{flat_map};
ghost use Rattle.control_files.specs.Strings.{AddsBytes};
ghost use Rattle.zone_blocks.specs.declared.config.Config.{Config};
ghost use Rattle.script_lint.specs.Causes.{verb_of};
ghost use Rattle.script_lint.specs.Forms.{form_text_of};
ghost use Rattle.script_lint.specs.Texts.{IsInside, cause_text, cpus_text, default_text, finding_text, group_range_text, zone_range_text};
ghost use Rattle.script_lint.specs.Texts.{given_text, names_text, near_text, shown, sizes_text, shown_word_text};
ghost use Rattle.script_lint.specs.declared.finding.Cause.TheVariants.{CarriageReturn, FrameOutOfZone, GroupOutOfRange};
ghost use Rattle.script_lint.specs.declared.finding.Cause.TheVariants.{NumberOutOfRange, CpuOutOfRange};
ghost use Rattle.script_lint.specs.declared.finding.Cause.TheVariants.{UnknownCommand, UnprintableByte};

use crate::cause::{byte_at, is_printable, word_at};
use crate::finding::{Cause, Finding};
use crate::form::write_form;
use script_lines::verb::Verb;
use std::alloc::AllocError;
use zone_blocks::config::Config;

// The `--high` that is taken if none is given.
const DEFAULT_HIGH: u32 = 8;

/// Adds a line for each finding, as compilers do: `NAME:LINE:COLUMN: WHY`. It fails only if memory runs out.
pub fn write_findings(
    name: &str,
    findings: &[Finding<'_>],
    sizes: &Config,
    text: &mut String,
) -> Result<(), AllocError>
    requires { All IsInside findings.now }
    ensures { AddsBytes result text.old text.new (flat_map (finding_text name.now sizes.now) findings.now) }
{
    for finding in findings {
        write_finding(name, finding, sizes, text)?;
    }
    Ok(())
}

/// Adds the line that says why the sizes are refused, if they are. It fails only if memory runs out.
pub fn write_sizes(sizes: &Config, text: &mut String) -> Result<(), AllocError>
    ensures { AddsBytes result text.old text.new (sizes_text sizes.now) }
{
    if sizes.high < sizes.batch {
        if sizes.high == DEFAULT_HIGH {
            write_default(sizes.high, sizes.batch, text)
        } else {
            write_given(sizes.high, sizes.batch, text)
        }
    } else {
        Ok(())
    }
}

fn write_default(high: u32, batch: u32, text: &mut String) -> Result<(), AllocError>
    ensures { AddsBytes result text.old text.new (default_text high batch) }
{
    writeln!(
        text,
        "sizes: --high {high} (the default) is below --batch {batch}"
    )
}

fn write_given(high: u32, batch: u32, text: &mut String) -> Result<(), AllocError>
    ensures { AddsBytes result text.old text.new (given_text high batch) }
{
    writeln!(text, "sizes: --high {high} is below --batch {batch}")
}

// The line of a finding.
fn write_finding(
    name: &str,
    finding: &Finding<'_>,
    sizes: &Config,
    text: &mut String,
) -> Result<(), AllocError>
    requires { IsInside finding.now }
    ensures { AddsBytes result text.old text.new (finding_text name.now sizes.now finding.now) }
{
    let line = finding.line;
    let column = finding.spot.place + 1;
    write!(text, "{name}:{line}:{column}: ")?;
    write_cause(finding, sizes, text)?;
    text.push_str("\n")
}

/// Adds why the line is bad, without a line feed. It fails only if memory runs out.
pub fn write_cause(
    finding: &Finding<'_>,
    sizes: &Config,
    text: &mut String,
) -> Result<(), AllocError>
    requires { IsInside finding.now }
    ensures { AddsBytes result text.old text.new (cause_text sizes.now finding.now finding.now.spot.cause) }
{
    match finding.spot.cause {
        Cause::ByteOrderMark => text.push_str("a UTF-8 byte order mark: a script is plain ASCII"),
        Cause::WideText => text.push_str("this looks like UTF-16: a script is plain ASCII"),
        Cause::Gzip => text.push_str("this looks like gzip: a script is plain ASCII"),
        Cause::LateComment => text.push_str("a comment is a line that begins with #"),
        Cause::NoCpu => text.push_str("no CPU's number: a line is P COMMAND or go"),
        Cause::CpuOutOfRange => write_cpu(finding, sizes, text),
        Cause::UnknownCommand => write_unknown(finding, text),
        Cause::TooFewWords => write_misfit("too few words: ", finding, text),
        Cause::TooManyWords => write_misfit("too many words: ", finding, text),
        Cause::TwoSpaces => text.push_str("two spaces"),
        Cause::SpaceAtEnd => text.push_str("space at an end of the line"),
        Cause::Tab => text.push_str("tab"),
        Cause::CarriageReturn => write_return(finding, text),
        Cause::NumberOutOfRange => write_number(finding, text),
        Cause::FrameOutOfZone => write_frame(finding, sizes, text),
        Cause::GroupOutOfRange => write_group(finding, sizes, text),
        Cause::UnprintableByte => write_byte(finding, text),
        Cause::LineTooLong => text.push_str("the line has more than 1024 bytes"),
        Cause::InputTooLong => text.push_str("the script has more than 1048576 bytes"),
        Cause::SecondGo => text.push_str("a second go"),
    }
}

// The word that goes wrong, as it is shown.
fn push_word(finding: &Finding<'_>, text: &mut String) -> Result<(), AllocError>
    requires { IsInside finding.now }
    ensures { AddsBytes result text.old text.new (shown_word_text finding.now) }
{
    for byte in word_at(finding.text, finding.spot.place) {
        text.push(char::from(shown(*byte)))?;
    }
    Ok(())
}

// A byte, or a question mark for one outside the printable ASCII.
fn shown(byte: u8) -> u8
    ensures { result ≡ shown byte }
{
    if is_printable(byte) { byte } else { b'?' }
}

fn write_cpu(finding: &Finding<'_>, sizes: &Config, text: &mut String) -> Result<(), AllocError>
    requires { IsInside finding.now }
    ensures { AddsBytes result text.old text.new (cause_text sizes.now finding.now CpuOutOfRange) }
{
    text.push_str("CPU ")?;
    push_word(finding, text)?;
    write_cpus(sizes.cpus, text)
}

fn write_cpus(cpus: u32, text: &mut String) -> Result<(), AllocError>
    ensures { AddsBytes result text.old text.new (cpus_text cpus) }
{
    write!(text, " doesn't exist (CPUs 1 to {cpus} with --cpus {cpus})")
}

fn write_unknown(finding: &Finding<'_>, text: &mut String) -> Result<(), AllocError>
    requires { IsInside finding.now }
    ensures { (sizes : Config) → AddsBytes result text.old text.new (cause_text sizes finding.now UnknownCommand) }
{
    text.push_str("no command '")?;
    push_word(finding, text)?;
    text.push_str("'")?;
    match finding.near {
        Some(verb) => write_near(verb, text),
        None => write_commands(text),
    }
}

fn write_commands(text: &mut String) -> Result<(), AllocError>
    ensures { AddsBytes result text.old text.new (near_text None) }
{
    text.push_str("; commands are ")?;
    write_names(&Verb::ALL, text)?;
    text.push_str("and go without a CPU")
}

// The names of these commands.
fn write_names(verbs: &[Verb], text: &mut String) -> Result<(), AllocError>
    ensures { AddsBytes result text.old text.new (names_text verbs.now) }
{
    for verb in verbs {
        let name = verb.name();
        write!(text, "{name}, ")?;
    }
    Ok(())
}

// Adds why, and the form that the line should have.
fn write_misfit(why: &str, finding: &Finding<'_>, text: &mut String) -> Result<(), AllocError>
    ensures { AddsBytes result text.old text.new (why.now ++ form_text_of (verb_of finding.now.text.now)) }
{
    text.push_str(why)?;
    write_form(finding.text, text)
}

// The command that may be meant.
fn write_near(verb: Verb, text: &mut String) -> Result<(), AllocError>
    ensures { AddsBytes result text.old text.new (near_text (Some verb)) }
{
    text.push_str("; did you mean '")?;
    text.push_str(verb.name())?;
    text.push_str("'?")
}

fn write_return(finding: &Finding<'_>, text: &mut String) -> Result<(), AllocError>
    requires { IsInside finding.now }
    ensures { (sizes : Config) → AddsBytes result text.old text.new (cause_text sizes finding.now CarriageReturn) }
{
    text.push_str(if finding.spot.place + 1 == finding.text.len() {
        "carriage return at the end of the line: the script has Windows line ends"
    } else {
        "carriage return"
    })
}

fn write_number(finding: &Finding<'_>, text: &mut String) -> Result<(), AllocError>
    requires { IsInside finding.now }
    ensures { (sizes : Config) → AddsBytes result text.old text.new (cause_text sizes finding.now NumberOutOfRange) }
{
    text.push_str("'")?;
    push_word(finding, text)?;
    write_misfit("' isn't a number from 0 to 4294967295: ", finding, text)
}

fn write_frame(finding: &Finding<'_>, sizes: &Config, text: &mut String) -> Result<(), AllocError>
    requires { IsInside finding.now }
    ensures { AddsBytes result text.old text.new (cause_text sizes.now finding.now FrameOutOfZone) }
{
    text.push_str("frame ")?;
    push_word(finding, text)?;
    write_frames(sizes.frames, text)
}

fn write_frames(frames: u32, text: &mut String) -> Result<(), AllocError>
    ensures { AddsBytes result text.old text.new (zone_range_text frames) }
{
    let last = frames.saturating_sub(1);
    write!(
        text,
        " is outside the zone (frames 0 to {last} with --frames {frames})"
    )
}

fn write_group(finding: &Finding<'_>, sizes: &Config, text: &mut String) -> Result<(), AllocError>
    requires { IsInside finding.now }
    ensures { AddsBytes result text.old text.new (cause_text sizes.now finding.now GroupOutOfRange) }
{
    text.push_str("group ")?;
    push_word(finding, text)?;
    write_groups(sizes.choices.groups, text)
}

fn write_groups(groups: u32, text: &mut String) -> Result<(), AllocError>
    ensures { AddsBytes result text.old text.new (group_range_text groups) }
{
    let last = groups.saturating_sub(1);
    write!(text, " is outside 0 to {last}")
}

fn write_byte(finding: &Finding<'_>, text: &mut String) -> Result<(), AllocError>
    ensures { (sizes : Config) → AddsBytes result text.old text.new (cause_text sizes finding.now UnprintableByte) }
{
    let byte = byte_at(finding.text, finding.spot.place);
    write!(text, "byte {byte} isn't printable ASCII")
}
