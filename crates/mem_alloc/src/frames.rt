//! Allocating single frames, from the CPU's list.

ghost use Rattle.std.specs.Prelude.{◌≡◌, ◌+◌, ◌<◌, ◌≤◌, [], ◌∷◌, length, IsTrue, false, MatchResult, OnOk, IfOk, OnErr};
ghost use Rattle.zone_blocks.specs.Config.{IsValidConfig};
ghost use Rattle.group_tree.specs.Groups.{has_group};
ghost use Rattle.mem_machine.specs.{KeepsVisit, VisitDoes, Visits, HoldsPage, IsOfSize, stock_now, IsSettled};
ghost use Rattle.mem_machine.specs.{HasListRoom};
ghost use Rattle.mem_alloc.specs.Frames.{AllocatesFrame, FillsList, MakesRefillRounds, RefillsInRounds};

use crate::charging::pay_for_frame;
use crate::faults::AllocFault;
use crate::reclaims::reclaim_anywhere;
use cpu_part::{BootName, CpuLists, Tables};
use frame_word::Frame;
use group_charge::note::Note;
use group_tree::group::GroupId;
use mem_machine::Machine;
use mem_reclaim::MAX_ROUNDS;
use zone_blocks::config::Config;

// Reclaims one page from all groups, in rounds, and lends free frames to the CPU's list after each. A round that
// reclaims nothing is the last. Returns whether frames were added to the list.
fn make_refill_rounds<N: BootName>(
    machine: &mut Machine<N>,
    tables: &Tables<N>,
    cpu: &mut CpuLists<N>,
    batch: u32,
) -> bool
    requires visit { Visits N.table machine.old cpu.old }
    requires room { HasListRoom cpu.old batch }
    requires some { 1 ≤ batch }
    requires none_fresh { cpu.old.fresh ≡ [] }
    ensures refills { VisitDoes N.table (MakesRefillRounds batch result) machine.old cpu.old machine.new cpu.new }
    ensures visit { Visits N.table machine.new cpu.new }
    ensures stock { stock_now N.table machine.new cpu.new.number ≡ stock_now N.table machine.old cpu.old.number }
{
    for round in 0..MAX_ROUNDS {
        let freed = reclaim_anywhere(machine, tables, round + 1, 1);
        if machine.refill(tables, cpu, batch) > 0 {
            return true;
        }
        if freed == 0 {
            return false;
        }
    }
    false
}

// No frame is free: notes that, and reclaims in rounds, until frames were added to the CPU's list. Returns whether any
// were.
fn refill_in_rounds<N: BootName>(
    machine: &mut Machine<N>,
    tables: &Tables<N>,
    cpu: &mut CpuLists<N>,
    batch: u32,
) -> bool
    requires visit { Visits N.table machine.old cpu.old }
    requires room { HasListRoom cpu.old batch }
    requires some { 1 ≤ batch }
    requires none_fresh { cpu.old.fresh ≡ [] }
    ensures refills { VisitDoes N.table (RefillsInRounds batch result) machine.old cpu.old machine.new cpu.new }
    ensures visit { Visits N.table machine.new cpu.new }
    ensures stock { stock_now N.table machine.new cpu.new.number ≡ stock_now N.table machine.old cpu.old.number }
{
    machine.note(Note::Zone { order: 0 });
    make_refill_rounds(machine, tables, cpu, batch)
}

// Makes sure that the CPU's list has a frame. If none is free, even after rounds of reclaim, the CPU's stock is
// drained.
fn fill_list<N: BootName>(
    machine: &mut Machine<N>,
    tables: &Tables<N>,
    cpu: &mut CpuLists<N>,
    sizes: Config,
    group: GroupId,
) -> Result<(), AllocFault>
    requires visit { Visits N.table machine.old cpu.old }
    requires sizes { IsValidConfig sizes }
    requires none_fresh { cpu.old.fresh ≡ [] }
    requires page { HoldsPage N.table machine.old cpu.old.number group }
    ensures fills { VisitDoes N.table (FillsList sizes result) machine.old cpu.old machine.new cpu.new }
    ensures visit { Visits N.table machine.new cpu.new }
    ensures page { OnOk result (HoldsPage N.table machine.new cpu.new.number group) }
    ensures front { OnOk result (1 ≤ length cpu.new.list) }
{
    if cpu.list_len() > 0 {
        return Ok(());
    }
    if machine.refill(tables, cpu, sizes.batch) > 0 {
        return Ok(());
    }
    if refill_in_rounds(machine, tables, cpu, sizes.batch) {
        return Ok(());
    }
    let cpu_number = cpu.number();
    machine.drain_stock(tables, cpu_number);
    Err(AllocFault::NoFrames)
}

/// Allocates one frame for an existing group, in the visit of this CPU, which has been settled. The frame is the front
/// of the CPU's list, is paid for with a page of its stock, and is fresh then.
///
/// - `RequesterKilled`: the group was killed before, and nothing changed; or it died because a limit had no room for
///   one page.
/// - `Over`: the limit of the group that is named has no room for one page, after all that `make_room` does.
/// - `NoFrames`: no frame is listed or free, even after at most 16 rounds of reclaim from all groups. The stock is
///   drained.
///
/// After a refusal the peaks, notes, drains, kills and reclaimed pages stay. At most `sizes.stock` pages are added to
/// the stock, and at most `sizes.batch` frames to the list. The zone has at most 1,048,576 frames and 64 CPUs.
pub fn alloc_frame<N: BootName>(
    machine: &mut Machine<N>,
    tables: &Tables<N>,
    cpu: &mut CpuLists<N>,
    sizes: Config,
    group: GroupId,
) -> Result<Frame, AllocFault>
    requires visit { Visits N.table machine.old cpu.old }
    requires size { IsOfSize N.table }
    requires sizes { IsValidConfig sizes }
    requires there { IsTrue (has_group machine.old.ledger.groups group) }
    requires settled { IsSettled cpu.old }
    ensures allocates { VisitDoes N.table (AllocatesFrame sizes group result) machine.old cpu.old machine.new cpu.new }
    ensures stays { KeepsVisit N.table cpu.old machine.new cpu.new }
    ensures fresh { MatchResult result (λ f. cpu.new.fresh ≡ f ∷ []) (λ cause. cpu.new.fresh ≡ []) }
    ensures at_most_high { length cpu.old.list + length cpu.old.fresh ≤ sizes.high
        → length cpu.new.list + length cpu.new.fresh ≤ sizes.high }
    ensures frame { IfOk result (λ f. f < N.table.frames) }
{
    if machine.is_killed(group) {
        return Err(AllocFault::RequesterKilled);
    }
    pay_for_frame(machine, tables, cpu, sizes, group)?;
    fill_list(machine, tables, cpu, sizes, group)?;
    Ok(machine.take_front(tables, cpu, group))
}
