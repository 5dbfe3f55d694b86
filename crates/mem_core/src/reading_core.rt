//! The core, and how a step changes it: to the state that the rules give, which continues each run that it shows.

ghost use Rattle.std.specs.Prelude.{◌≡◌, ℕ, ◌+◌, ◌^◌, ◌<◌, ◌≤◌, ◌++◌, ◌∷◌, [], IfOk};
ghost use Rattle.step_rules.specs.declared.step.Answer.{Answer};
ghost use Rattle.step_rules.specs.declared.step.Answer.TheVariants.{Illegal};
ghost use Rattle.step_rules.specs.{Allows, UsageMoves, Run, after};
ghost use Rattle.mem_core.specs.Shown.{CoreState, ShowsRun, state_shown, zone_of_config, HasMaximalAreas};
ghost use Rattle.mem_core.specs.Promise.{PlacesFrontIn, CoreKeepsPromise};
ghost use Rattle.zone_blocks.specs.Config.{IsValidConfig};

mod readers;

use crate::account::Account;
use crate::accounts::{new_accounts, update_accounts};
use crate::free_areas::set_areas;
use crate::rows::Rows;
use crate::serve::{pages_asked, serve};
use group_tree::group::MAX_GROUPS;
use std::alloc::{AllocError, Global};
use std::marker::Model;
use step_rules::step::{Answer, Step};
use zone_blocks::areas::FreeAreas;
use zone_blocks::config::Config;

/// The core. A contract sees it as a `CoreState`.
#[derive(Drop)]
pub struct Core {
    rows: Rows,
    // Scratch space for `set_areas`: whether each frame is free.
    free: Vec<bool>,
    accounts: Vec<Account>,
    areas: FreeAreas,
    steps: u64,
}

impl Model for Core {
    ghost use Rattle.mem_core.specs.Shown.{CoreState};

    ghost Value = { CoreState };

    ghost use Rattle.mem_core.specs.Inside.{core_state, IsWhole};

    ghost view = { core_state };

    ghost invariant = { IsWhole };
}

impl Core {
    /// A core with all frames free, the root alone, the lock free and no step made. It reserves here all room that
    /// its steps need. Of the sizes only the frames, the CPUs and the room for groups matter.
    pub fn new(alloc: Global, config: Config) -> Result<Core, AllocError>
        requires { IsValidConfig config }
        ensures zone { IfOk result (λ core. core.zone ≡ zone_of_config config) }
        ensures empty { IfOk result (λ core. ShowsRun core []) }
        ensures areas { IfOk result HasMaximalAreas }
    {
        let accounts = new_accounts(alloc, MAX_GROUPS)?;
        let mut free = Vec::with_capacity(alloc, config.frames as usize)?;
        let mut areas = FreeAreas::new(alloc, config.frames)?;
        let rows = Rows::new(alloc, config.frames, config.cpus, config.choices.groups)?;
        set_areas(&rows, &mut free, &mut areas);
        Ok(Core {
            rows,
            free,
            accounts,
            areas,
            steps: 0,
        })
    }

    /// Makes one step if it is legal, and answers it. A step that isn't legal is answered Illegal and changes only
    /// the number of steps. 2^64 - 1 steps may be made.
    pub fn step(&mut self, step: Step) -> Answer
        requires { self.old.steps + 1 < 2 ^ 64 }
        ensures allowed { Allows (state_shown self.old) step.seat step.action result }
        ensures state { state_shown self.new ≡ after (state_shown self.old) step.seat step.action result }
        ensures steps { self.new.steps ≡ self.old.steps + 1 }
        ensures shows { (run : Run) → ShowsRun self.old run → ShowsRun self.new (run ++ (step, result) ∷ []) }
        ensures promise { (run : Run) → ShowsRun self.old run → CoreKeepsPromise self.new (run ++ (step, result) ∷ []) }
        ensures first { PlacesFrontIn (state_shown self.old) step.action result }
        ensures zone { self.new.zone ≡ self.old.zone }
        ensures areas { HasMaximalAreas self.new }
        ensures illegal { result ≡ Illegal → self.new ≡ record self.old { steps = self.old.steps + 1 } }
        ensures usage { UsageMoves (state_shown self.old) step.seat step.action result }
    {
        let _ = pages_asked(&step.action); // Called for its contract: fewer than 2^32 pages.
        let answer = serve(&mut self.rows, &self.areas, &step);
        self.steps += 1;
        if let Answer::Illegal = answer {
            return answer;
        }
        update_accounts(&self.rows, &step.action, &answer, &mut self.accounts);
        set_areas(&self.rows, &mut self.free, &mut self.areas);
        answer
    }
}
