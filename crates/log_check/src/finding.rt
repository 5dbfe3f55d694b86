//! The reason for an answer that isn't allowed.

ghost use Rattle.std.specs.Prelude.{◌≡◌, ◌↔◌, IsTrue, false};
ghost use Rattle.step_rules.specs.declared.step.Answer.TheVariants.{Illegal};
ghost use Rattle.step_rules.specs.Legal.{Allows, is_legal};
ghost use Rattle.mem_core.specs.{state_in, FitsZone, IsBelowBounds};
ghost use Rattle.log_check.specs.Reasons.{Fails, IsReason};

use crate::answers::decide;
use crate::reason::Reason;
use crate::showing::show;
use mem_core::legal::first_unmet;
use mem_core::rows::Rows;
use step_rules::step::{Answer, Step};

/// Why a step may not get an answer, if another is due: the first condition of the step that isn't met, in the order of
/// the table of rules, or what decides the answer that is due.
pub fn reason_of(rows: &Rows, step: &Step, answer: &Answer, due: &Answer) -> Reason
    requires fits { FitsZone rows.now }
    requires bounded { IsBelowBounds (state_in rows.now) }
    requires due { Allows (state_in rows.now) step.now.seat step.now.action due.now }
    requires denied { ¬ Allows (state_in rows.now) step.now.seat step.now.action answer.now }
    ensures { IsReason (state_in rows.now) step.now answer.now due.now result }
{
    if is_illegal(answer) {
        Reason::MayBeMade
    } else if is_illegal(due) {
        unmet(rows, step)
    } else {
        decide(rows, step, answer, due)
    }
}

fn is_illegal(answer: &Answer) -> bool
    ensures { IsTrue result ↔ (answer.now ≡ Illegal) }
{
    *answer == Answer::Illegal
}

// Why the first condition that isn't met isn't.
fn unmet(rows: &Rows, step: &Step) -> Reason
    requires fits { FitsZone rows.now }
    requires bounded { IsBelowBounds (state_in rows.now) }
    requires illegal { is_legal (state_in rows.now) step.now.seat step.now.action ≡ false }
    ensures { Fails (state_in rows.now) step.now.seat step.now.action result }
{
    match first_unmet(rows, step) {
        Some(condition) => show(rows, &condition),
        None => unreachable!(),
    }
}
