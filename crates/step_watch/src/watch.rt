//! The watch, and how it takes a step.

ghost use Rattle.std.specs.Prelude.{◌≡◌, ◌∷◌, [], ◌+◌, ◌++◌, IfOk, IsTrue};
ghost use Rattle.step_rules.specs.After.{cpu_makes};
ghost use Rattle.log_lines.specs.Line.{entry_text};
ghost use Rattle.mem_core.specs.{state_shown, zone_of_config, Leads};
ghost use Rattle.step_rules.specs.declared.step.Action.{Action};
ghost use Rattle.step_rules.specs.declared.step.Answer.{Answer};
ghost use Rattle.step_watch.specs.Watched.{Accepts, Adds, Builds, IsNewLog, IsNewWatch, Watches};
ghost use Rattle.step_watch.specs.Watched.{has_legal_steps, has_whole_log, known_log, log_text, steps_seen, watch_off};
ghost use Rattle.zone_blocks.specs.Config.{IsValidConfig};

use log_lines::write_entry;
use mem_core::checker::Checker;
use std::alloc::{AllocError, Global};
use std::marker::Model;
use step_rules::step::{Action, Answer, Step};
use zone_blocks::config::Config;

/// Takes steps where they are made, if it is on. It stops at the first step that the rules don't allow, or for whose
/// line of the log memory runs out.
#[derive(Drop)]
pub struct Watch {
    // Checks each step, if there is one.
    checker: Option<Checker>,
    // The lines of all steps, if they are written.
    log: Option<Vec<u8>>,
    // Whether it takes steps.
    is_on: bool,
}

impl Model for Watch {
    ghost use Rattle.step_watch.specs.Watched.{KnownWatch, known_log};

    ghost Value = { KnownWatch };

    ghost view = { λ watch. record { core = watch.checker; log = known_log watch.log; is_on = watch.is_on } };
}

// Whether the checker accepts this answer. It counts its steps in 64 bits, and takes no step beyond them.
fn accepts(checker: &mut Checker, step: &Step, answer: &Answer) -> bool
    ensures leads { IsTrue result → Leads (state_shown checker.old) step.now answer.now (state_shown checker.new) }
    ensures count { IsTrue result → checker.new.steps ≡ checker.old.steps + 1 }
{
    if checker.steps() == u64::MAX {
        return false;
    }
    checker.accept(step, answer).is_ok()
}

// Whether the checker, if there is one, accepts this answer.
fn check(checker: &mut Option<Checker>, step: &Step, answer: &Answer) -> bool
    ensures { IsTrue result → Accepts checker.old step.now answer.now checker.new }
{
    match checker {
        None => true,
        Some(checker) => accepts(checker, step, answer),
    }
}

// Adds the line of the step to a log.
fn write_line(log: &mut Vec<u8>, step: &Step, answer: &Answer) -> Result<(), AllocError>
    ensures { IfOk result (λ _. log.new.items ≡ log.old.items ++ (entry_text step.now answer.now ++ 10 ∷ [])) }
{
    write_entry(step, answer, log)?;
    log.push(b'\n')?;
    Ok(())
}

// Adds the line of the step to the log, if there is one. It returns false if memory runs out.
fn write(log: &mut Option<Vec<u8>>, step: &Step, answer: &Answer) -> bool
    ensures { IsTrue result → Adds (known_log log.old) step.now answer.now (known_log log.new) }
{
    match log {
        None => true,
        Some(log) => write_line(log, step, answer).is_ok(),
    }
}

impl Watch {
    /// A watch that is off: it takes no step.
    pub fn off() -> Watch
        ensures { result ≡ watch_off }
    {
        Watch {
            checker: None,
            log: None,
            is_on: false,
        }
    }

    /// A watch that checks the steps of a boot of these sizes, from its first step on. It reserves here all room that
    /// it needs. Of the sizes only the frames, the CPUs and the room for groups matter.
    pub fn new(alloc: Global, config: Config) -> Result<Watch, AllocError>
        requires { IsValidConfig config }
        ensures { IfOk result (IsNewWatch (zone_of_config config)) }
    {
        let checker = Checker::new(alloc, config)?;
        Ok(Watch {
            checker: Some(checker),
            log: None,
            is_on: true,
        })
    }

    /// A watch that writes each step as a line of a log. The log grows with the steps.
    pub fn logging(alloc: Global) -> Watch
        ensures { IsNewLog result }
    {
        Watch {
            checker: None,
            log: Some(Vec::new(alloc)),
            is_on: true,
        }
    }

    /// Whether the watch takes steps. Only then must a step be handed to it.
    #[inline(always)]
    pub fn is_on(&self) -> bool
        ensures { result ≡ self.now.is_on }
    {
        self.is_on
    }

    /// Whether the watch checks steps, and the rules allowed each that it took. The law `watched_runs_are_legal` says
    /// what follows.
    pub fn is_legal(&self) -> bool
        ensures { result ≡ has_legal_steps self.now }
    {
        self.is_on && self.checker.is_some()
    }

    /// How many steps the watch checked and found legal.
    pub fn steps(&self) -> u64
        ensures { result ≡ steps_seen self.now }
    {
        match &self.checker {
            None => 0,
            Some(checker) => checker.steps(),
        }
    }

    /// Whether the watch writes a log that has each step so far. If not, no log is written or memory ran out for it.
    pub fn is_whole(&self) -> bool
        ensures { result ≡ has_whole_log self.now }
    {
        self.is_on && self.log.is_some()
    }

    /// The log so far: a line for each step. It is empty if no log is written.
    pub fn log(&self) -> &[u8]
        ensures { result.now ≡ log_text self.now }
    {
        match &self.log {
            None => &[],
            Some(log) => log.as_slice(),
        }
    }

    /// Takes the step of this seat that `made` builds, with its answer. A watch that is off, or has stopped, does
    /// nothing, and doesn't call `made`: an action has room for a path, so building one costs.
    #[inline(always)]
    pub fn take<F: FnOnce() -> (Action, Answer)>(&mut self, seat: u32, made: F)
        requires { F.IsAlwaysCallable made }
        ensures { (action : Action) (answer : Answer) → Builds (F.post made) action answer
            → Watches self.old (cpu_makes seat action answer ∷ []) self.new }
    {
        if self.is_on {
            self.take_made(seat, made);
        }
    }

    // Takes the step: the watch is on.
    #[cold]
    #[inline(never)]
    fn take_made<F: FnOnce() -> (Action, Answer)>(&mut self, seat: u32, made: F)
        requires on { IsTrue self.old.is_on }
        requires callable { F.IsAlwaysCallable made }
        ensures { (it : Action × Answer) × F.post made it × Watches self.old (cpu_makes seat it.0 it.1 ∷ []) self.new }
    {
        let (action, answer) = made();
        let step = Step { seat, action };
        self.is_on = check(&mut self.checker, &step, &answer)
            && write(&mut self.log, &step, &answer);
    }
}
