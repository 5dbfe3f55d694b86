//! How far the run of a log was checked.

ghost use Rattle.std.specs.Prelude.{◌≡◌, ◌+◌, ◌^◌, ◌<◌, ◌≤◌, IfErr, IfOk};
ghost use Rattle.step_rules.specs.State.{is_unheld, one_if};
ghost use Rattle.log_lines.specs.declared.line.LogLine.TheVariants as kinds;
ghost use Rattle.log_lines.specs.Line.{IsZone};
ghost use Rattle.log_check.specs.Taking.{CountsSteps, HasZoneInRange, TakesAfter};
ghost use Rattle.log_check.specs.declared.verdict.LogFault.TheVariants.{NoMemory};

use crate::line_fault::LineFault;
use crate::reason::Reason;
use crate::reason_of;
use crate::verdict::LogFault;
use log_lines::line::LogLine;
use mem_core::checker::Checker;
use mem_core::holds::is_unheld;
use std::alloc::Global;
use step_rules::phase::Hold;
use step_rules::step::{Answer, Step};
use zone_blocks::choices::Choices;
use zone_blocks::config::Config;

/// The checker, once the sizes of the zone are known, and how many steps it was asked to take.
#[derive(Drop)]
pub(crate) struct Progress {
    pub(crate) checker: Option<Checker>,
    pub(crate) steps: u64,
    // How many of these were legal and left the lock free.
    pub(crate) free: u64,
}

/// The result of a line.
#[derive(Clone, Copy)]
pub(crate) enum Taken {
    /// The log goes on.
    GoesOn,
    /// The line is a step whose answer the rules don't allow; they allow this one, for this reason.
    NotLegal { expected: Answer, reason: Reason },
    /// No log continues with this line.
    Bad(LineFault),
}

impl Progress {
    /// Takes the next line of the log.
    pub(crate) fn take_line(&mut self, alloc: Global, line: &LogLine) -> Result<Taken, LogFault>
        requires in_range { HasZoneInRange line.now }
        requires counts { CountsSteps self.old }
        requires few { self.old.steps + 1 < 2 ^ 64 }
        ensures taken { IfOk result (TakesAfter self.old line.now self.new) }
        ensures fault { IfErr result (λ fault. fault ≡ NoMemory) }
        ensures counts { CountsSteps self.new }
        ensures few { self.new.steps ≤ self.old.steps + 1 }
    {
        match line {
            LogLine::Skipped => Ok(Taken::GoesOn),
            LogLine::Zone {
                frames,
                cpus,
                groups,
            } => self.take_zone(alloc, *frames, *cpus, *groups),
            LogLine::Step { step, answer } => Ok(self.take_step(step, answer)),
        }
    }

    fn take_zone(
        &mut self,
        alloc: Global,
        frames: u32,
        cpus: u32,
        groups: u32,
    ) -> Result<Taken, LogFault>
        requires sizes { IsZone frames cpus groups }
        requires counts { CountsSteps self.old }
        ensures taken { IfOk result (TakesAfter self.old (kinds.Zone frames cpus groups) self.new) }
        ensures fault { IfErr result (λ fault. fault ≡ NoMemory) }
        ensures counts { CountsSteps self.new }
        ensures steps { self.new.steps ≡ self.old.steps }
    {
        if self.checker.is_some() {
            return Ok(Taken::Bad(LineFault::SizesAgain));
        }
        let config = Config {
            frames,
            cpus,
            batch: 1,
            high: 1,
            stock: 1,
            choices: Choices {
                groups,
                ..Choices::NONE
            },
        };
        match Checker::new(alloc, config) {
            Ok(checker) => {
                self.checker = Some(checker);
                Ok(Taken::GoesOn)
            }
            Err(_) => Err(LogFault::NoMemory),
        }
    }

    fn take_step(&mut self, step: &Step, answer: &Answer) -> Taken
        requires counts { CountsSteps self.old }
        requires few { self.old.steps + 1 < 2 ^ 64 }
        ensures taken { TakesAfter self.old (kinds.Step step.now answer.now) self.new result }
        ensures counts { CountsSteps self.new }
        ensures few { self.new.steps ≤ self.old.steps + 1 }
    {
        match &mut self.checker {
            None => Taken::Bad(LineFault::StepFirst),
            Some(checker) => {
                self.steps += 1;
                match checker.accept(step, answer) {
                    Ok(()) => {
                        self.free += free_once(checker.rows().hold);
                        Taken::GoesOn
                    }
                    Err(expected) => Taken::NotLegal {
                        expected,
                        reason: reason_of(checker.rows(), step, answer, &expected),
                    },
                }
            }
        }
    }
}

// 1 if the lock is free, else 0.
fn free_once(hold: Hold) -> u64
    ensures once { result ≡ one_if (is_unheld hold) }
    ensures few { result ≤ 1 }
{
    if is_unheld(hold) { 1 } else { 0 }
}
