//! Whole runs: the steps of any list get answers of a legal run, which keeps the promise.

ghost use Rattle.std.specs.Prelude.{◌≡◌, IfOk, length};
ghost use Rattle.std.specs.List.{zip};
ghost use Rattle.step_rules.specs.After.{IsLegalRun};
ghost use Rattle.mem_core.specs.Shown.{ShowsRun, zone_of_config, HasMaximalAreas};
ghost use Rattle.mem_core.specs.Promise.{CoreKeepsPromise, AlwaysKeepsPromise, AlwaysPlacesFirst};
ghost use Rattle.zone_blocks.specs.Config.{IsValidConfig};

use crate::reading_core::Core;
use std::alloc::{AllocError, Global};
use step_rules::step::{Answer, Step};
use zone_blocks::config::Config;

/// The core after a list of steps, and their answers.
#[derive(Drop)]
pub struct Played {
    /// The core after the last step.
    pub core: Core,
    /// The answer to each step, in order.
    pub answers: Vec<Answer>,
}

/// Makes the steps one after another, on a new core. The steps with their answers are a legal run, and the core shows
/// that run. Its state is the one that the run leads to, and its free areas are the maximal blocks of the free
/// frames.
///
/// After each beginning of the run that leaves the lock free, the promise holds of whatever shows the state. At the
/// end it holds of what the core shows. A placed block is the front of the smallest sufficient free block.
/// `step_rules::laws` has what else follows for any legal run.
///
/// It fails only if memory runs out; no clause says so, it was read in the code.
pub fn play(alloc: Global, config: Config, steps: &[Step]) -> Result<Played, AllocError>
    requires { IsValidConfig config }
    ensures one_each { IfOk result (λ p. length p.answers.items ≡ length steps.now) }
    ensures zone { IfOk result (λ p. p.core.zone ≡ zone_of_config config) }
    ensures shows { IfOk result (λ p. ShowsRun p.core (zip steps.now p.answers.items)) }
    ensures areas { IfOk result (λ p. HasMaximalAreas p.core) }
    ensures promise { IfOk result (λ p. AlwaysKeepsPromise (zone_of_config config) (zip steps.now p.answers.items)) }
    ensures promise_shown { IfOk result (λ p. CoreKeepsPromise p.core (zip steps.now p.answers.items)) }
    ensures first { IfOk result (λ p. AlwaysPlacesFirst (zone_of_config config) (zip steps.now p.answers.items)) }
{
    let mut answers = Vec::with_capacity(alloc, steps.len())?;
    let mut core = Core::new(alloc, config)?;
    for step in steps {
        answers.push_reserved(core.step(*step));
    }
    Ok(Played { core, answers })
}

/// Makes the steps one after another, on a new core, and returns an answer for each. The steps with these answers are
/// a legal run. So the laws of `step_rules::laws` hold of it, and each beginning that leaves the lock free keeps the
/// promise.
///
/// A placed block is the front of the smallest sufficient free block; the rules would allow others. It fails only if
/// memory runs out; no clause says so, it was read in the code.
pub fn run(alloc: Global, config: Config, steps: &[Step]) -> Result<Vec<Answer>, AllocError>
    requires { IsValidConfig config }
    ensures one_each { IfOk result (λ answers. length answers.items ≡ length steps.now) }
    ensures legal { IfOk result (λ answers. IsLegalRun (zone_of_config config) (zip steps.now answers.items)) }
    ensures promise { IfOk result (λ answers. AlwaysKeepsPromise (zone_of_config config)
        (zip steps.now answers.items)) }
    ensures first { IfOk result (λ answers. AlwaysPlacesFirst (zone_of_config config) (zip steps.now answers.items)) }
{
    let Played { core, answers } = play(alloc, config, steps)?;
    drop(core);
    Ok(answers)
}
