//! A line's part of a log.

ghost use Rattle.std.specs.Prelude.{◌≡◌, ◌++◌, OnOk, length, true};
ghost use Rattle.script_replay.specs.{system_state, LineInRange, terms};
ghost use Rattle.step_watch.specs.Watched.{has_whole_log, log_text};
ghost use Rattle.line_server.specs.Logs.{AddsPart, LogsLine};

use crate::comments::{add_answer, add_line};
use cpu_part::{BootName, Tables};
use mem_system::{Cpu, Locked};
use script_lines::line::Line;
use script_replay::serve_line;
use std::alloc::{AllocError, Global};
use step_watch::Watch;

/// Adds what the watch wrote. It fails if memory ran out here or for the watch's log.
pub fn add_steps(watch: &Watch, log: &mut Vec<u8>) -> Result<(), AllocError>
    ensures whole { OnOk result (has_whole_log watch.now ≡ true) }
    ensures added { OnOk result (log.new.items ≡ log.old.items ++ log_text watch.now) }
{
    if !watch.is_whole() {
        return Err(AllocError);
    }
    log.extend_from_slice(watch.log())
}

/// Serves a line with this text, and adds its part of a log: its comment, its steps, and its answer in comments. The
/// watch is a new one for each line, so it holds the steps of one line at most. `AllocError` is returned if memory runs
/// out. The line was then served, and what was added says nothing.
pub fn log_line<N: BootName>(
    alloc: Global,
    locked: &mut Locked<N>,
    tables: &Tables<N>,
    cpus: &mut [Cpu<N>],
    line: &Line<'_>,
    text: &[u8],
    log: &mut Vec<u8>,
) -> Result<(), AllocError>
    requires there { LineInRange N.table.frames (length cpus.old) line.now }
    ensures logged { AddsPart result log.old.items log.new.items (LogsLine (terms N.table true) text.now
        line.now (system_state locked.old cpus.old) (system_state locked.new cpus.new)) }
{
    locked.set_watch(Watch::logging(alloc));
    let mut answer = String::new(alloc);
    serve_line(locked, tables, cpus, line, true, &mut answer)?;
    add_line(alloc, text, line, log)?;
    add_steps(locked.watch(), log)?;
    add_answer(answer.as_bytes(), log)
}
