//! What a boot answers to lines if each step is checked, those of the end included.

ghost use Rattle.std.specs.Prelude.{◌≡◌, ◌++◌, All, IfErr, IfOk};
ghost use Rattle.script_replay.specs.Ranges.{LineInRange};
ghost use Rattle.zone_blocks.specs.Config.{IsValidConfig};
ghost use Rattle.load_run.specs.Answers.{AreCheckedAnswers, checked_text};
ghost use Rattle.load_run.specs.Stopping.{IsCheckFault};

use crate::boot_end::end_checked_boot;
use crate::fault::ProgramFault;
use crate::replaying::with_end;
use cpu_part::BootName;
use mem_system::Boot;
use script_lines::line::Line;
use script_replay::{Form, replay_checked};
use std::alloc::{AllocError, Global};
use step_watch::Watch;
use zone_blocks::config::Config;

/// Replays the lines as `replay_on_boot` does, with a check of each step that they and the end make. What they are
/// answered is followed by the text of the end, if that is asked for, and by the number of all steps. The replay
/// stops after the first line with a step that isn't legal, or if memory runs out: a boot that began has ended then
/// too.
pub fn check_on_boot<N: BootName>(
    alloc: Global,
    boot: Boot,
    sizes: Config,
    lines: &[Line<'_>],
    form: Form,
    is_audited: bool,
) -> Result<Vec<u8>, ProgramFault>
    requires frames { boot.table ≡ N.table }
    requires sizes { boot.sizes ≡ sizes }
    requires valid { IsValidConfig sizes }
    requires lines { All (LineInRange boot.sizes.frames boot.sizes.cpus) lines.now }
    ensures answers { IfOk result (λ text. AreCheckedAnswers boot.sizes form is_audited lines.now text.items) }
    ensures fault { IfErr result (IsCheckFault boot.sizes form lines.now) }
{
    let watch = Watch::new(alloc, sizes)?;
    let (mut locked, tables, mut cpus) = boot.into_parts::<N>(alloc)?;
    locked.set_watch(watch);
    let answers = replay_checked(alloc, &mut locked, &tables, &mut cpus, lines, form);
    let (ended, seen) = end_checked_boot(locked, tables, cpus);
    let answers = answers?;
    if !seen.is_legal {
        return Err(ProgramFault::IllegalEnd);
    }
    let told = with_end(alloc, answers, ended, is_audited)?;
    Ok(with_steps(alloc, told, seen.steps)?)
}

// The answers, and after them the number of steps that were checked.
fn with_steps(alloc: Global, mut answers: Vec<u8>, steps: u64) -> Result<Vec<u8>, AllocError>
    ensures told { IfOk result (λ text. text.items ≡ answers.items ++ checked_text steps) }
{
    let mut told = String::new(alloc);
    writeln!(told, "checked {steps} steps")?;
    answers.extend_from_slice(told.as_bytes())?;
    Ok(answers)
}
