//! Returning units to the zone.

ghost use Rattle.std.specs.Prelude.{◌≡◌, ◌+◌, ◌^◌, ◌≤◌, ◌∷◌, [], length};
ghost use Rattle.zone_blocks.specs.{AreMaximalBlocks, IsInUse, GivesFrames};
ghost use Rattle.group_charge.specs.Charges.{pages_of, with_uncharge, UsageRises};
ghost use Rattle.step_rules.specs.After.{zone_makes};
ghost use Rattle.step_rules.specs.declared.step.Action.TheVariants as action;
ghost use Rattle.step_rules.specs.declared.step.Answer.TheVariants.{Done};
ghost use Rattle.boot_words.specs.{IsHeld};
ghost use Rattle.mem_machine.specs.Freeing.{FreesFrames};
ghost use Rattle.mem_machine.specs.Noted.{MayTake, Records};

use crate::frame_state::FrameState;
use crate::proving::prove_charges;
use crate::stepping::make_step;
use boot_words::PastSeat;
use cpu_part::{BootName, Tables};
use group_charge::charges::Charges;
use step_rules::phase::ChargedUnit;
use step_rules::step::{Action, Answer};
use step_watch::Watch;
use zone_blocks::block::Block;
use zone_blocks::buddy::Buddy;

// Records this many frames from `at` on as free.
fn free_frames(frame_states: &mut Vec<FrameState>, at: u32, frames: u32)
    requires { at + frames ≤ length frame_states.old.items }
    ensures { FreesFrames at frames frame_states.old.items frame_states.new.items }
{
    for k in 0..frames as usize {
        frame_states[at as usize + k] = FrameState::Free;
    }
}

/// Returns a charged unit that is in the zone's hand: its frames are free, its pages are uncharged from its group, and
/// the zone makes the step.
pub(crate) fn return_unit<N: BootName>(
    tables: &Tables<N>,
    past: &mut PastSeat,
    watch: &mut Watch,
    zone: &mut Buddy,
    frame_states: &mut Vec<FrameState>,
    charges: &mut Charges,
    at: u32,
    unit: ChargedUnit,
)
    requires held { IsHeld N.table past.old }
    requires legal { MayTake N.table past.old (zone_makes (action.Return at) Done) }
    requires in_use { IsInUse zone.old.free (record { at = at; order = unit.order }) }
    requires inside { at + 2 ^ unit.order ≤ length frame_states.old.items }
    requires charged { 2 ^ unit.order ≤ pages_of charges.old unit.group }
    ensures frame_states { FreesFrames at (2 ^ unit.order) frame_states.old.items frame_states.new.items }
    ensures frames { GivesFrames zone.old.free (record { at = at; order = unit.order }) zone.new.free }
    ensures areas { AreMaximalBlocks zone.new.free zone.new.blocks }
    ensures charges { charges.new ≡ with_uncharge charges.old unit.group (2 ^ unit.order) }
    ensures usage { UsageRises charges.new charges.old unit.group (2 ^ unit.order) }
    ensures notes { Records N.table (record { past = past.old; watch = watch.old })
        (zone_makes (action.Return at) Done ∷ []) (record { past = past.new; watch = watch.new }) }
{
    prove_charges(charges);
    let order = unit.order;
    free_frames(frame_states, at, order.frames());
    zone.give(Block { at, order });
    charges.uncharge(unit.group, order.frames());
    make_step(tables, past, watch, || {
        (Action::Return { frame: at }, Answer::Done)
    });
}
