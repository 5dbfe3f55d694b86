//! The check of a whole log: whether it is a legal run.

ghost use Rattle.std.specs.Prelude.{◌≡◌, ◌↔◌, IfOk};
ghost use Rattle.step_rules.specs.{at_boot, IsLegalRun};
ghost use Rattle.mem_core.specs.Shown.{state_shown, zone_of_config};
ghost use Rattle.mem_core.specs.Promise.{AlwaysKeepsPromise};
ghost use Rattle.mem_core.specs.Checked.{IsVerdict};
ghost use Rattle.mem_core.specs.declared.verdict.Verdict.TheVariants.{Legal};
ghost use Rattle.zone_blocks.specs.Config.{IsValidConfig};

use crate::checker::Checker;
use crate::verdict::Verdict;
use std::alloc::{AllocError, Global};
use step_rules::step::{Answer, Step};
use zone_blocks::config::Config;

/// Says whether a log is a legal run of a zone of these sizes. The log is the steps of any memory controller with
/// their answers; who wrote it doesn't matter. A legal log keeps the promise after each of its beginnings that leaves
/// the lock free.
///
/// For any other log it names the first step whose answer isn't allowed, and an answer that would have been. It fails
/// only if memory runs out; no clause says so, it was read in the code.
pub fn check(alloc: Global, config: Config, log: &[(Step, Answer)]) -> Result<Verdict, AllocError>
    requires { IsValidConfig config }
    ensures verdict { IfOk result (IsVerdict (zone_of_config config) log.now) }
    ensures legal { IfOk result (λ verdict. (verdict ≡ Legal) ↔ IsLegalRun (zone_of_config config) log.now) }
    ensures promise { IfOk result (λ verdict. verdict ≡ Legal → AlwaysKeepsPromise (zone_of_config config) log.now) }
{
    let mut checker = Checker::new(alloc, config)?;
    let verdict = judge(&mut checker, log);
    drop(checker);
    Ok(verdict)
}

// The verdict of a checker that has taken no step.
fn judge(checker: &mut Checker, log: &[(Step, Answer)]) -> Verdict
    requires state { state_shown checker.old ≡ at_boot (state_shown checker.old).zone }
    requires steps { checker.old.steps ≡ 0 }
    ensures { IsVerdict (state_shown checker.old).zone log.now result }
{
    for (index, (step, answer)) in log.iter().enumerate() {
        if let Err(expected) = checker.accept(step, answer) {
            return Verdict::IllegalAt { index, expected };
        }
    }
    Verdict::Legal
}
