//! The phase of each frame, with counts that spare a step the look at all frames.

ghost use Rattle.std.specs.Prelude.{◌≡◌, ◌+◌, ◌<◌, ◌≤◌, IfOk, length, replicate, slice_set, vec_len};
ghost use Rattle.std.specs.List.{slice_index_or};
ghost use Rattle.group_tree.specs.Bounds.{most_groups};
ghost use Rattle.step_rules.specs.declared.phase.Phase.{Phase};
ghost use Rattle.step_rules.specs.declared.phase.Phase.TheVariants.{InZone};
ghost use Rattle.zone_blocks.specs.Config.{most_cpus, most_frames};
ghost use Rattle.mem_core.specs.Counted.{IsTally, class_in, class_size, keeper_class, transit_class};

use crate::tally::{
    KEEPER_CLASSES, TRANSIT_CLASSES, keeper_class, move_one, new_sizes, transit_class,
};
use std::alloc::{AllocError, Global};
use std::marker::Model;
use step_rules::phase::Phase;

/// The phase of each frame. A contract sees it as a list.
#[derive(Drop)]
pub struct PhaseTable {
    phases: Vec<Phase>,
    // How many frames each group keeps, by class.
    kept: Vec<u32>,
    // How many frames are in transit to or from each CPU, by class.
    in_transit: Vec<u32>,
}

impl Model for PhaseTable {
    ghost use Rattle.std.specs.Prelude.{List};
    ghost use Rattle.step_rules.specs.declared.phase.Phase.{Phase};
    ghost use Rattle.mem_core.specs.Tables.{AreCounted};

    ghost Value = { List Phase };

    ghost view = { λ t. t.phases.items };

    ghost invariant = { AreCounted };
}

/// A phase for each frame of the zone, all free.
fn new_phases(alloc: Global, frames: usize) -> Result<Vec<Phase>, AllocError>
    ensures items { IfOk result (λ phases. phases.items ≡ replicate frames InZone) }
    ensures number { IfOk result (λ phases. vec_len phases ≡ frames) }
{
    vec![in alloc; Phase::InZone; frames]
}

impl PhaseTable {
    /// The phases of this many frames, all of which are free.
    pub fn new(alloc: Global, frames: u32) -> Result<PhaseTable, AllocError>
        requires { frames ≤ most_frames }
        ensures { IfOk result (λ table. table ≡ replicate frames InZone) }
    {
        let phases = new_phases(alloc, frames as usize)?;
        let kept = new_sizes(alloc, KEEPER_CLASSES, frames)?;
        let in_transit = new_sizes(alloc, TRANSIT_CLASSES, frames)?;
        Ok(PhaseTable {
            phases,
            kept,
            in_transit,
        })
    }

    /// How many frames have a phase.
    pub fn len(&self) -> usize
        ensures { result ≡ length self.now }
    {
        self.phases.len()
    }

    /// The phase of a frame; InZone beyond the last.
    #[tactic(auto, using(crate::proofs::Looking::past_default))]
    pub fn get(&self, frame: u32) -> Phase
        ensures { result ≡ slice_index_or self.now frame InZone }
    {
        if (frame as usize) < self.phases.len() {
            self.phases[frame as usize]
        } else {
            Phase::InZone
        }
    }

    /// Sets the phase of a frame.
    pub fn set(&mut self, frame: u32, phase: Phase)
        requires { frame < length self.old }
        ensures { self.new ≡ slice_set self.old frame phase }
    {
        let at = frame as usize;
        let keeper = keeper_class(self.phases[at]);
        let cpu = transit_class(self.phases[at]);
        self.phases[at] = phase;
        let new_keeper = keeper_class(self.phases[at]);
        let new_cpu = transit_class(self.phases[at]);
        move_one(&mut self.kept, keeper, new_keeper);
        move_one(&mut self.in_transit, cpu, new_cpu);
    }

    /// How many frames no group keeps, and then for each group number how many it keeps.
    pub(crate) fn kept(&self) -> &[u32]
        ensures sizes { IsTally (length self.now) (class_in keeper_class self.now) result.now }
        ensures number { length result.now ≡ most_groups + 1 }
        ensures few { length self.now ≤ most_frames }
    {
        let _phases = &self.phases; // Borrowed for the invariant.
        self.kept.as_slice()
    }

    /// How many frames are in transit to or from a CPU.
    pub(crate) fn in_transit(&self, cpu: u32) -> u32
        requires { cpu ≤ most_cpus }
        ensures { result ≡ class_size (length self.now) (class_in transit_class self.now) (cpu + 1) }
    {
        self.in_transit[cpu as usize + 1]
    }

    /// How many frames are in transit to or from no CPU.
    pub(crate) fn at_rest(&self) -> u32
        ensures { result ≡ class_size (length self.now) (class_in transit_class self.now) 0 }
    {
        self.in_transit[0]
    }
}
