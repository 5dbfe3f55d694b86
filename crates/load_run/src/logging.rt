//! The steps of a script as a log. A comment with the number and text of each line precedes its steps, and its answer
//! follows them in comments.

ghost use Rattle.std.specs.Prelude.{◌≡◌, ◌++◌, All, IfOk, OnOk, codes, length, map, true};
ghost use Rattle.std.specs.String.{string_bytes};
ghost use Rattle.script_lines.specs.Script.{texts_of};
ghost use Rattle.script_replay.specs.{system_state, LineInRange, terms};
ghost use Rattle.step_watch.specs.Watched.{has_whole_log, log_text};
ghost use Rattle.line_server.specs.Logs.{AddsPart, answer_comments};
ghost use Rattle.load_run.specs.Ending.{boot_end_text};
ghost use Rattle.load_run.specs.Logs.{AreLoggedSteps, GrowsBy, LogsAll, LogsEnd, log_head_text};
ghost use Rattle.load_run.specs.Logs.{batch_text, choice_text, sizes_comment, text_at, text_of_line, with_choices};

use crate::boot_end::{BootEnd, empty_cpus, write_boot_end};
use cpu_part::{BootName, Tables};
use line_server::{add_answer, add_steps, log_line};
use log_lines::write_zone;
use mem_system::{Boot, Cpu, Locked};
use script_lines::line::Line;
use script_lines::script::first_line;
use std::alloc::{AllocError, Global};
use step_watch::Watch;
use zone_blocks::choices::Choices;
use zone_blocks::config::Config;

// Adds the comment with the sizes of the boot that the zone's line doesn't have.
fn add_sizes(alloc: Global, sizes: &Config, log: &mut Vec<u8>) -> Result<(), AllocError>
    ensures { IfOk result (λ _. log.new.items ≡ log.old.items ++ sizes_comment sizes.now) }
{
    let mut text = String::new(alloc);
    let batch = sizes.batch;
    let high = sizes.high;
    let stock = sizes.stock;
    write!(text, "# memcg batch {batch} high {high} stock {stock}")?;
    write_choices(&sizes.choices, &mut text)?;
    text.push_str("\n")?;
    log.extend_from_slice(text.as_bytes())
}

// Writes the batch of reclaim, if the boot chose one.
fn write_batch(batch: u32, text: &mut String) -> Result<(), AllocError>
    ensures { OnOk result (string_bytes text.new ≡ string_bytes text.old ++ batch_text batch) }
{
    if batch == 1 {
        return Ok(());
    }
    write!(text, " reclaim-batch {batch}")
}

// Writes the name of a choice that has no value, if the boot makes it.
fn write_flag(is_made: bool, name: &str, text: &mut String) -> Result<(), AllocError>
    ensures { OnOk result (string_bytes text.new ≡ string_bytes text.old ++ choice_text is_made name.now) }
{
    text.push_str(if is_made { name } else { "" })
}

// Writes the choices that the boot makes.
fn write_choices(choices: &Choices, text: &mut String) -> Result<(), AllocError>
    ensures { OnOk result (string_bytes text.new ≡ with_choices (string_bytes text.old) choices.now) }
{
    write_batch(choices.reclaim_batch, text)?;
    write_flag(choices.is_no_kill, " no-kill", text)?;
    write_flag(choices.is_proportional, " proportional", text)
}

// The text of the line of this number, from 1; nothing if there is none.
fn text_at<'a>(texts: &[&'a [u8]], number: usize) -> &'a [u8]
    ensures { result.now ≡ text_at (map (λ text. text.now) texts.now) number }
{
    if number == 0 {
        return &[];
    }
    match texts.get(number - 1) {
        Some(text) => text,
        None => &[],
    }
}

// The text of the line; nothing for `go`.
fn text_of<'a>(texts: &[&'a [u8]], line: &Line<'_>) -> &'a [u8]
    ensures { result.now ≡ text_of_line (map (λ text. text.now) texts.now) line.now }
{
    match line {
        Line::Go => &[],
        Line::At { number, .. } => text_at(texts, *number),
    }
}

// Serves the lines one after the other, and adds the log of each.
fn log_each<N: BootName>(
    alloc: Global,
    locked: &mut Locked<N>,
    tables: &Tables<N>,
    cpus: &mut [Cpu<N>],
    lines: &[Line<'_>],
    texts: &[&[u8]],
    log: &mut Vec<u8>,
) -> Result<(), AllocError>
    requires there { All (LineInRange N.table.frames (length cpus.old)) lines.now }
    ensures logged { OnOk result (GrowsBy (LogsAll (terms N.table true) (map (λ text. text.now) texts.now)
        lines.now (system_state locked.old cpus.old) (system_state locked.new cpus.new)) log.old.items log.new.items) }
{
    for next in lines {
        log_line(alloc, locked, tables, cpus, next, text_of(texts, next), log)?;
    }
    Ok(())
}

// Adds the comment and the steps of the end.
fn add_end_steps(watch: &Watch, log: &mut Vec<u8>) -> Result<(), AllocError>
    ensures whole { OnOk result (has_whole_log watch.now ≡ true) }
    ensures added { OnOk result (log.new.items ≡ log.old.items ++ (codes "# end\n" ++ log_text watch.now)) }
{
    log.extend_from_slice(b"# end\n")?;
    add_steps(watch, log)
}

// Adds what is reported of the end.
fn add_end_report(alloc: Global, ended: &BootEnd, log: &mut Vec<u8>) -> Result<(), AllocError>
    ensures { OnOk result (log.new.items ≡ log.old.items ++ answer_comments (boot_end_text true ended.now)) }
{
    let mut text = String::new(alloc);
    write_boot_end(ended, &mut text)?;
    add_answer(text.as_bytes(), log)
}

/// Ends the boot, and adds the log of the end. `AllocError` means that memory ran out: the boot has ended then too.
pub(crate) fn log_end<N: BootName>(
    alloc: Global,
    mut locked: Locked<N>,
    tables: Tables<N>,
    cpus: Vec<Cpu<N>>,
    log: &mut Vec<u8>,
) -> Result<(), AllocError>
    requires count { length cpus.items ≡ N.table.cpus }
    ensures logged { AddsPart result log.old.items log.new.items
        (LogsEnd N.table (system_state locked cpus.items)) }
{
    locked.set_watch(Watch::logging(alloc));
    let (held, emptied) = empty_cpus(locked, tables, cpus);
    let added = add_end_steps(emptied.watch(), log);
    let audit = emptied.close();
    added?;
    add_end_report(alloc, &BootEnd { held, audit }, log)
}

// The texts between the line feeds of a script.
pub(crate) fn texts_of<'a>(alloc: Global, script: &'a [u8]) -> Result<Vec<&'a [u8]>, AllocError>
    ensures { IfOk result (λ found. map (λ text. text.now) found.items ≡ texts_of script.now) }
{
    let mut texts = Vec::new(alloc);
    let mut rest = Some(script);
    while let Some(left) = rest {
        let (text, after) = first_line(left);
        texts.push(text)?;
        rest = after;
    }
    Ok(texts)
}

/// What a log begins with: the sizes.
pub(crate) fn log_head(alloc: Global, sizes: &Config) -> Result<Vec<u8>, AllocError>
    ensures { IfOk result (λ log. log.items ≡ log_head_text sizes.now) }
{
    let mut log = Vec::new(alloc);
    write_zone(sizes.frames, sizes.cpus, sizes.choices.groups, &mut log)?;
    log.push(b'\n')?;
    add_sizes(alloc, sizes, &mut log)?;
    Ok(log)
}

/// The steps of the lines of this script, on a boot under a name of its tables, as a log: the sizes; then of each line
/// a comment, its steps, and its answer in comments; and then the steps of the end, and what is reported of it.
/// `AllocError` means that memory ran out: a boot that began has ended then too.
pub fn steps_on_boot<N: BootName>(
    alloc: Global,
    boot: Boot,
    sizes: Config,
    script: &[u8],
    lines: &[Line<'_>],
) -> Result<Vec<u8>, AllocError>
    requires frames { boot.table ≡ N.table }
    requires sizes { boot.sizes ≡ sizes }
    requires lines { All (LineInRange boot.sizes.frames boot.sizes.cpus) lines.now }
    ensures steps { IfOk result (λ text. AreLoggedSteps boot.sizes script.now lines.now text.items) }
{
    let mut log = log_head(alloc, &sizes)?;
    let texts = texts_of(alloc, script)?;
    let (mut locked, tables, mut cpus) = boot.into_parts::<N>(alloc)?;
    let served = log_each(
        alloc,
        &mut locked,
        &tables,
        &mut cpus,
        lines,
        &texts,
        &mut log,
    );
    let ended = log_end(alloc, locked, tables, cpus, &mut log);
    served?;
    ended?;
    Ok(log)
}
