//! Allocating blocks of frames: they are taken from the zone and are kept units at once.

ghost use Rattle.std.specs.Prelude.{◌≡◌, ◌^◌, ◌≤◌, [], length, Err, IsTrue};
ghost use Rattle.group_tree.specs.Groups.{has_group};
ghost use Rattle.mem_machine.specs.{KeepsVisit, VisitDoes, Visits, IsOfSize, MayCharge, IsSettled};
ghost use Rattle.mem_alloc.specs.declared.faults.AllocFault.TheVariants.{NoFrames};
ghost use Rattle.mem_alloc.specs.Blocks.{AllocatesBlock, ChargesBlock, MakesTakeRounds, MayHaveBlock, TakesAfterDrain};

use crate::faults::AllocFault;
use crate::high::reclaim_high;
use crate::reclaims::reclaim_anywhere;
use crate::room::make_room;
use cpu_part::{BootName, CpuLists, Tables};
use frame_word::Frame;
use group_charge::note::Note;
use group_tree::group::GroupId;
use mem_machine::{Machine, TakeFault, prove_order};
use mem_reclaim::MAX_ROUNDS;
use zone_blocks::order::Order;

// Charges a block to the group and takes it, after what memory.high asks for and as soon as every limit has room.
fn charge_block<N: BootName>(
    machine: &mut Machine<N>,
    tables: &Tables<N>,
    cpu: &mut CpuLists<N>,
    group: GroupId,
    order: Order,
) -> Result<Frame, AllocFault>
    requires visit { Visits N.table machine.old cpu.old }
    requires may_charge { MayCharge machine.old group (2 ^ order) }
    requires settled { IsSettled cpu.old }
    ensures charges { VisitDoes N.table (ChargesBlock group order result) machine.old cpu.old machine.new cpu.new }
    ensures cpu { cpu.new ≡ cpu.old }
    ensures visit { Visits N.table machine.new cpu.new }
    ensures room { result ≡ Err NoFrames → MayHaveBlock machine.new group order }
{
    let pages = order.frames();
    reclaim_high(machine, tables, group, pages);
    'tries: loop {
        match machine.take_block(tables, cpu, group, order) {
            Ok(head) => return Ok(head),
            Err(TakeFault::NoBlock) => return Err(AllocFault::NoFrames),
            Err(TakeFault::Over(over)) => make_room(machine, tables, group, over.group, pages)?,
        }
    }
}

// Reclaims as many pages as the block has from all groups, in rounds, and tries to take the block after each. A round
// that reclaims nothing is the last.
fn reclaim_until_taken<N: BootName>(
    machine: &mut Machine<N>,
    tables: &Tables<N>,
    cpu: &mut CpuLists<N>,
    group: GroupId,
    order: Order,
) -> Result<Frame, AllocFault>
    requires visit { Visits N.table machine.old cpu.old }
    requires room { MayHaveBlock machine.old group order }
    requires settled { IsSettled cpu.old }
    ensures takes { VisitDoes N.table (MakesTakeRounds group order result) machine.old cpu.old machine.new cpu.new }
    ensures cpu { cpu.new ≡ cpu.old }
    ensures visit { Visits N.table machine.new cpu.new }
{
    let pages = order.frames();
    for round in 0..MAX_ROUNDS {
        let freed = reclaim_anywhere(machine, tables, round + 1, u64::from(pages));
        match machine.take_block(tables, cpu, group, order) {
            Ok(head) => return Ok(head),
            Err(TakeFault::Over(_)) => unreachable!(),
            Err(TakeFault::NoBlock) if freed == 0 => return Err(AllocFault::NoFrames),
            Err(TakeFault::NoBlock) => {}
        }
    }
    Err(AllocFault::NoFrames)
}

// Returns the CPU's list to the zone, and then takes the block, for which every limit has room. If still no block is
// free, that is noted, and its pages are reclaimed in rounds.
fn take_after_drain<N: BootName>(
    machine: &mut Machine<N>,
    tables: &Tables<N>,
    cpu: &mut CpuLists<N>,
    group: GroupId,
    order: Order,
) -> Result<Frame, AllocFault>
    requires visit { Visits N.table machine.old cpu.old }
    requires room { MayHaveBlock machine.old group order }
    requires settled { IsSettled cpu.old }
    ensures takes { VisitDoes N.table (TakesAfterDrain group order result) machine.old cpu.old machine.new cpu.new }
    ensures stays { KeepsVisit N.table cpu.old machine.new cpu.new }
    ensures fresh { cpu.new.fresh ≡ [] }
    ensures list { length cpu.new.list ≤ length cpu.old.list }
{
    let listed = cpu.list_len() as u32;
    machine.drain_list(tables, cpu, listed);
    match machine.take_block(tables, cpu, group, order) {
        Ok(head) => Ok(head),
        Err(TakeFault::NoBlock) => {
            machine.note(Note::Zone {
                order: order.exponent(),
            });
            reclaim_until_taken(machine, tables, cpu, group, order)
        }
        Err(TakeFault::Over(_)) => unreachable!(),
    }
}

/// Allocates a block of this order for an existing group, in the visit of this CPU, which has been settled. 2^`order`
/// pages are charged to the group, and the block is a kept unit of it at once, named by its head.
///
/// - `RequesterKilled`: the group was killed before, and nothing changed; or it died because a limit had no room for
///   the pages, which are at most 8.
/// - `Over`: the limit of the group that is named has no room for the pages, after all that `make_room` does.
/// - `NoFrames`: no block of the order or above is free, even after the CPU's list was returned to the zone, and after
///   at most 16 rounds of reclaim from all groups. The pages are uncharged.
///
/// After a refusal the peaks, notes, drains, kills and reclaimed pages stay. The zone has at most 1,048,576 frames and
/// 64 CPUs.
pub fn alloc_block<N: BootName>(
    machine: &mut Machine<N>,
    tables: &Tables<N>,
    cpu: &mut CpuLists<N>,
    group: GroupId,
    order: Order,
) -> Result<Frame, AllocFault>
    requires visit { Visits N.table machine.old cpu.old }
    requires size { IsOfSize N.table }
    requires there { IsTrue (has_group machine.old.ledger.groups group) }
    requires settled { IsSettled cpu.old }
    ensures allocates { VisitDoes N.table (AllocatesBlock group order result) machine.old cpu.old machine.new cpu.new }
    ensures stays { KeepsVisit N.table cpu.old machine.new cpu.new }
    ensures fresh { cpu.new.fresh ≡ [] }
    ensures list { length cpu.new.list ≤ length cpu.old.list }
{
    if machine.is_killed(group) {
        return Err(AllocFault::RequesterKilled);
    }
    prove_order(order);
    machine.prove_room();
    match charge_block(machine, tables, cpu, group, order) {
        Ok(head) => Ok(head),
        Err(AllocFault::NoFrames) => take_after_drain(machine, tables, cpu, group, order),
        Err(cause) => Err(cause),
    }
}
