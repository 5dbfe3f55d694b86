//! Tests on the phase of a frame, and how a step changes it: each returns what the rules' function of the same name
//! does.

ghost use Rattle.std.specs.Prelude.{◌≡◌};
ghost use Rattle.step_rules.specs.Phases.{ListFrame, FreshFrame, BackFrame};
ghost use Rattle.step_rules.specs.{has_as, is_free, is_head, is_head_in_hand, is_passing, is_stage_in_hand};
ghost use Rattle.step_rules.specs.{is_stage_passing, keeper_of, is_returnable, is_stage_returnable, passes_out};
ghost use Rattle.step_rules.specs.{passes_back, has_stage, stage_passes_back, at_stage, passed_back, collected};
ghost use Rattle.step_rules.specs.{stage_passed_back, stage_collected, unit_of, unit_size};

use group_tree::group::GroupId;
use step_rules::phase::{Phase, Stage, Way};

/// The frame is in the zone's free areas.
pub fn is_free(phase: Phase) -> bool
    ensures { result ≡ is_free phase }
{
    matches!(phase, Phase::InZone)
}

/// The frame heads a charged unit.
pub fn is_head(phase: Phase) -> bool
    ensures { result ≡ is_head phase }
{
    matches!(phase, Phase::Head { .. })
}

/// The group that keeps the frame.
pub fn keeper_of(phase: Phase) -> Option<GroupId>
    ensures { result ≡ keeper_of phase }
{
    match phase {
        Phase::Head { unit, stage: _ } => Some(unit.group),
        Phase::Tail(group) => Some(group),
        _ => None,
    }
}

/// The frame is on the CPU's list.
pub fn is_listed_at(phase: Phase, cpu: u32) -> bool
    ensures { result ≡ has_as ListFrame cpu phase }
{
    match phase {
        Phase::Lent { cpu: other, way } => other == cpu && matches!(way, Way::OnList),
        _ => false,
    }
}

/// The frame is fresh at the CPU.
pub fn is_fresh_at(phase: Phase, cpu: u32) -> bool
    ensures { result ≡ has_as FreshFrame cpu phase }
{
    match phase {
        Phase::Head { unit: _, stage } => is_stage_fresh(stage, cpu),
        _ => false,
    }
}

fn is_stage_fresh(stage: Stage, cpu: u32) -> bool
    ensures { result ≡ has_stage FreshFrame cpu stage }
{
    match stage {
        Stage::FreshAt(other) => other == cpu,
        _ => false,
    }
}

/// The frame is a back frame of the CPU.
pub fn is_back_at(phase: Phase, cpu: u32) -> bool
    ensures { result ≡ has_as BackFrame cpu phase }
{
    match phase {
        Phase::Head { unit: _, stage } => is_stage_back(stage, cpu),
        _ => false,
    }
}

fn is_stage_back(stage: Stage, cpu: u32) -> bool
    ensures { result ≡ has_stage BackFrame cpu stage }
{
    match stage {
        Stage::BackAt(other) => other == cpu,
        _ => false,
    }
}

/// The frame is in transit to the CPU.
pub fn passes_out(phase: Phase, cpu: u32) -> bool
    ensures { result ≡ passes_out cpu phase }
{
    match phase {
        Phase::Lent { cpu: other, way } => other == cpu && matches!(way, Way::PassingOut),
        _ => false,
    }
}

/// The frame is in transit back from the CPU.
pub fn passes_back(phase: Phase, cpu: u32) -> bool
    ensures { result ≡ passes_back cpu phase }
{
    match phase {
        Phase::Lent { cpu: other, way } => other == cpu && matches!(way, Way::PassingBack),
        Phase::Head { unit: _, stage } => stage_passes_back(stage, cpu),
        _ => false,
    }
}

fn stage_passes_back(stage: Stage, cpu: u32) -> bool
    ensures { result ≡ stage_passes_back cpu stage }
{
    match stage {
        Stage::FreshPassing(other) => other == cpu,
        Stage::BackPassing(other) => other == cpu,
        _ => false,
    }
}

/// The frame is in transit between the zone and a CPU.
pub fn is_passing(phase: Phase) -> bool
    ensures { result ≡ is_passing phase }
{
    match phase {
        Phase::Lent { cpu: _, way } => !matches!(way, Way::OnList),
        Phase::Head { unit: _, stage } => is_stage_passing(stage),
        _ => false,
    }
}

fn is_stage_passing(stage: Stage) -> bool
    ensures { result ≡ is_stage_passing stage }
{
    matches!(stage, Stage::FreshPassing(_) | Stage::BackPassing(_))
}

/// The frame heads a charged unit, and is in the zone's hand.
pub fn is_head_in_hand(phase: Phase) -> bool
    ensures { result ≡ is_head_in_hand phase }
{
    match phase {
        Phase::Head { unit: _, stage } => is_stage_in_hand(stage),
        _ => false,
    }
}

fn is_stage_in_hand(stage: Stage) -> bool
    ensures { result ≡ is_stage_in_hand stage }
{
    matches!(stage, Stage::Collected | Stage::Bare | Stage::AwaitsReturn)
}

/// A unit at this stage may be returned, given whether its group is killed.
pub fn is_stage_returnable(is_killed: bool, stage: Stage) -> bool
    ensures { result ≡ is_stage_returnable is_killed stage }
{
    match stage {
        Stage::Collected => is_killed,
        Stage::AwaitsReturn => true,
        _ => false,
    }
}

/// The same unit, at another stage.
pub fn at_stage(new: Stage, phase: Phase) -> Phase
    ensures { result ≡ at_stage new phase }
{
    match phase {
        Phase::Head { unit, stage: _ } => Phase::Head { unit, stage: new },
        _ => phase,
    }
}

/// The phase of a frame that is passed back.
pub fn passed_back(phase: Phase) -> Phase
    ensures { result ≡ passed_back phase }
{
    match phase {
        Phase::Lent { cpu, way: _ } => Phase::Lent {
            cpu,
            way: Way::PassingBack,
        },
        Phase::Head { unit, stage } => Phase::Head {
            unit,
            stage: stage_passed_back(stage),
        },
        _ => phase,
    }
}

fn stage_passed_back(stage: Stage) -> Stage
    ensures { result ≡ stage_passed_back stage }
{
    match stage {
        Stage::FreshAt(cpu) => Stage::FreshPassing(cpu),
        Stage::BackAt(cpu) => Stage::BackPassing(cpu),
        _ => stage,
    }
}

/// The phase of a frame that is collected.
pub fn collected(phase: Phase) -> Phase
    ensures { result ≡ collected phase }
{
    match phase {
        Phase::Lent { cpu: _, way: _ } => Phase::InZone,
        Phase::Head { unit, stage } => Phase::Head {
            unit,
            stage: stage_collected(stage),
        },
        _ => phase,
    }
}

fn stage_collected(stage: Stage) -> Stage
    ensures { result ≡ stage_collected stage }
{
    match stage {
        Stage::FreshPassing(_) => Stage::Collected,
        Stage::BackPassing(_) => Stage::AwaitsReturn,
        _ => stage,
    }
}

/// How many frames are returned together with this one.
pub fn unit_size(phase: Phase) -> u32
    ensures { result ≡ unit_size (unit_of phase) }
{
    match phase {
        Phase::Head { unit, stage: _ } => unit.order.frames(),
        _ => 1,
    }
}
