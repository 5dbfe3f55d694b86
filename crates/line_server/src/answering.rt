//! The answer to a line that is served.

ghost use Rattle.std.specs.Prelude.{length};
ghost use Rattle.script_replay.specs.{system_state, LineInRange};
ghost use Rattle.line_server.specs.Forms.{session_terms};
ghost use Rattle.line_server.specs.Turns.{AnswersServed, GivesAnswer};

use crate::form::SessionForm;
use crate::logging::log_line;
use cpu_part::{BootName, Tables};
use mem_system::{Cpu, Locked};
use script_lines::line::Line;
use script_replay::serve_line;
use std::alloc::{AllocError, Global};

/// Serves a line with this text, and returns its answer in this form. It fails only if memory runs out. The line was
/// then served.
pub fn answer_line<N: BootName>(
    alloc: Global,
    form: SessionForm,
    locked: &mut Locked<N>,
    tables: &Tables<N>,
    cpus: &mut [Cpu<N>],
    line: &Line<'_>,
    text: &[u8],
) -> Result<Vec<u8>, AllocError>
    requires there { LineInRange N.table.frames (length cpus.old) line.now }
    ensures served { GivesAnswer result (AnswersServed (session_terms N.table form) text.now line.now
        (system_state locked.old cpus.old) (system_state locked.new cpus.new)) }
{
    match form {
        SessionForm::Answers { is_explained } => {
            let mut answer = String::new(alloc);
            serve_line(locked, tables, cpus, line, is_explained, &mut answer)?;
            Ok(answer.into_bytes())
        }
        SessionForm::Steps => {
            let mut log = Vec::new(alloc);
            log_line(alloc, locked, tables, cpus, line, text, &mut log)?;
            Ok(log)
        }
    }
}
