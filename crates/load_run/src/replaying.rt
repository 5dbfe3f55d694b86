//! What a boot answers to lines: it replays them, one after the other, and ends, also if memory runs out for an answer.

ghost use Rattle.std.specs.Prelude.{◌≡◌, ◌++◌, All, IfOk};
ghost use Rattle.script_replay.specs.Ranges.{LineInRange};
ghost use Rattle.load_run.specs.Answers.{AreReplayAnswers};
ghost use Rattle.load_run.specs.Ending.{boot_end_text};

use crate::boot_end::{BootEnd, end_boot, write_boot_end};
use cpu_part::BootName;
use mem_system::Boot;
use script_lines::line::Line;
use script_replay::{Form, replay};
use std::alloc::{AllocError, Global};

/// Replays the lines on a boot under a name of its tables, and ends it. It returns what they are answered in this
/// form, and the text of the end if that is asked for. `AllocError` means that memory ran out: a boot
/// that began has ended then too.
pub fn replay_on_boot<N: BootName>(
    alloc: Global,
    boot: Boot,
    lines: &[Line<'_>],
    form: Form,
    is_audited: bool,
) -> Result<Vec<u8>, AllocError>
    requires frames { boot.table ≡ N.table }
    requires lines { All (LineInRange boot.sizes.frames boot.sizes.cpus) lines.now }
    ensures answers { IfOk result (λ text. AreReplayAnswers boot.sizes form is_audited lines.now text.items) }
{
    let (mut locked, tables, mut cpus) = boot.into_parts::<N>(alloc)?;
    let answers = replay(alloc, &mut locked, &tables, &mut cpus, lines, form);
    let ended = end_boot(locked, tables, cpus);
    with_end(alloc, answers?, ended, is_audited)
}

/// The answers, and after them the text of the end if that is asked for. `AllocError` means that memory ran out.
pub fn with_end(
    alloc: Global,
    mut answers: Vec<u8>,
    ended: BootEnd,
    is_audited: bool,
) -> Result<Vec<u8>, AllocError>
    ensures told { IfOk result (λ text. text.items ≡ answers.items ++ boot_end_text is_audited ended) }
{
    if is_audited {
        let mut told = String::new(alloc);
        write_boot_end(&ended, &mut told)?;
        answers.extend_from_slice(told.as_bytes())?;
    }
    Ok(answers)
}
