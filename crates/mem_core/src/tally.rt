//! The sizes of classes of frames, one of which changes as a frame moves to another class.

ghost use Rattle.std.specs.Prelude.{◌≡◌, ◌+◌, ◌<◌, ◌≤◌, ℕ, IfOk, replicate, slice_set, vec_len};
ghost use Rattle.std.specs.List.{slice_index_or};
ghost use Rattle.group_tree.specs.Bounds.{most_groups};
ghost use Rattle.step_rules.specs.Phases.{keeper_of};
ghost use Rattle.zone_blocks.specs.Config.{most_cpus, most_frames};
ghost use Rattle.mem_core.specs.Counted.{keeper_class, moved_sizes, stage_transit_cpu, transit_class, transit_cpu};

use crate::phases::keeper_of;
use group_tree::group::MAX_GROUPS;
use std::alloc::{AllocError, Global};
use step_rules::phase::{Phase, Stage, Way};
use zone_blocks::config::Config;

/// The classes of frames by the group that keeps them: one for no group, and one for each group number.
pub(crate) const KEEPER_CLASSES: usize = MAX_GROUPS + 1;

/// The classes of frames by the CPU to or from which they are in transit: one for no CPU, one for each number up to
/// that of the last CPU, and one for all numbers above.
pub(crate) const TRANSIT_CLASSES: usize = 67;

/// The class of a frame by the group that keeps it.
pub(crate) fn keeper_class(phase: Phase) -> usize
    ensures class { result ≡ keeper_class phase }
    ensures below { result < most_groups + 1 }
{
    match keeper_of(phase) {
        None => 0,
        Some(group) => group.number() as usize + 1,
    }
}

/// The class of a frame by the CPU to or from which it is in transit.
pub(crate) fn transit_class(phase: Phase) -> usize
    ensures class { result ≡ transit_class phase }
    ensures below { result < 67 }
{
    match transit_cpu(phase) {
        None => 0,
        Some(cpu) => {
            if cpu > Config::MAX_CPUS {
                TRANSIT_CLASSES - 1
            } else {
                cpu as usize + 1
            }
        }
    }
}

fn transit_cpu(phase: Phase) -> Option<u32>
    ensures { result ≡ transit_cpu phase }
{
    match phase {
        Phase::Lent { cpu, way } => {
            if matches!(way, Way::OnList) {
                None
            } else {
                Some(cpu)
            }
        }
        Phase::Head { unit: _, stage } => stage_transit_cpu(stage),
        _ => None,
    }
}

fn stage_transit_cpu(stage: Stage) -> Option<u32>
    ensures { result ≡ stage_transit_cpu stage }
{
    match stage {
        Stage::FreshPassing(cpu) => Some(cpu),
        Stage::BackPassing(cpu) => Some(cpu),
        _ => None,
    }
}

/// The sizes of this many classes, if all frames are of the first.
pub(crate) fn new_sizes(alloc: Global, classes: usize, frames: u32) -> Result<Vec<u32>, AllocError>
    requires { 1 ≤ classes }
    ensures sizes { IfOk result (λ sizes. sizes.items ≡ slice_set (replicate classes 0) 0 frames) }
    ensures number { IfOk result (λ sizes. vec_len sizes ≡ classes) }
{
    let mut sizes = vec![in alloc; 0; classes]?;
    sizes[0] = frames;
    Ok(sizes)
}

/// One frame moves from a class to a class.
pub(crate) fn move_one(sizes: &mut Vec<u32>, from: usize, to: usize)
    requires from { from < vec_len sizes.old }
    requires to { to < vec_len sizes.old }
    requires some { 1 ≤ slice_index_or sizes.old.items from 0 }
    requires few { (k : ℕ) → slice_index_or sizes.old.items k 0 ≤ most_frames }
    ensures sizes { sizes.new.items ≡ moved_sizes sizes.old.items from to }
    ensures number { vec_len sizes.new ≡ vec_len sizes.old }
{
    sizes[from] -= 1;
    sizes[to] += 1;
}
