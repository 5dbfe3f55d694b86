//! Charging pages for single frames, through the CPU's stock.

ghost use Rattle.std.specs.Prelude.{◌≡◌, ◌↔◌, IsTrue, false, true, OnOk};
ghost use Rattle.mem_machine.specs.{Holds, Makes, VisitDoes, Visits, HoldsPage, FitsStock, IsDrained, BySteps};
ghost use Rattle.mem_alloc.specs.Charging.{ChargesOne, FillsBatch, FillsDrainedStock, LacksBatch, MayFill, MayPay, PaysForFrame};

use crate::faults::AllocFault;
use crate::high::{path_has_high_room, reclaim_high};
use crate::room::make_room;
use cpu_part::{BootName, CpuLists, Tables};
use group_tree::group::GroupId;
use mem_machine::Machine;
use stock_word::Stock;
use zone_blocks::config::Config;

// Whether the CPU's stock has a page of the group.
fn holds_page<N: BootName>(
    machine: &mut Machine<N>,
    tables: &Tables<N>,
    cpu: &CpuLists<N>,
    group: GroupId,
) -> bool
    requires holds { Holds N.table machine.old cpu.now }
    ensures holds { IsTrue result ↔ HoldsPage N.table machine.old cpu.now.number group }
    ensures machine { machine.new ≡ machine.old }
{
    let number = group.number();
    match machine.look_at_stock(tables, cpu) {
        Stock::HeldBy { group: own, pages } => own == number && pages > 0,
        _ => false,
    }
}

// Charges one page to the group and fills the CPU's stock with it, after what memory.high asks for and as soon as every
// limit has room.
fn fill_one<N: BootName>(
    machine: &mut Machine<N>,
    tables: &Tables<N>,
    cpu: &CpuLists<N>,
    group: GroupId,
) -> Result<(), AllocFault>
    requires { MayFill N.table group 1 machine.old cpu.now }
    ensures charges { VisitDoes N.table (ChargesOne group result) machine.old cpu.now machine.new cpu.now }
    ensures visit { Visits N.table machine.new cpu.now }
{
    reclaim_high(machine, tables, group, 1);
    'tries: loop {
        let Err(over) = machine.fill_stock(tables, cpu, group, 1) else {
            return Ok(());
        };
        make_room(machine, tables, group, over.group, 1)?;
    }
}

// Charges this many pages to the group and fills the CPU's drained stock with them, if each memory.high and each limit
// has room for them. Returns whether it has.
fn fill_batch<N: BootName>(
    machine: &mut Machine<N>,
    tables: &Tables<N>,
    cpu: &CpuLists<N>,
    group: GroupId,
    pages: u32,
) -> bool
    requires may_fill { MayFill N.table group pages machine.old cpu.now }
    requires pages { FitsStock pages }
    ensures fills { result ≡ true
        → VisitDoes N.table (FillsBatch group pages) machine.old cpu.now machine.new cpu.now }
    ensures lacks { result ≡ false → BySteps Makes N.table (LacksBatch group pages) machine.old machine.new }
    ensures visit { Visits N.table machine.new cpu.now }
    ensures drained { result ≡ false → IsDrained N.table machine.new cpu.now.number }
{
    if !path_has_high_room(machine.charges(), group, pages) {
        return false;
    }
    let Err(_over) = machine.fill_stock(tables, cpu, group, pages) else {
        return true;
    };
    false
}

// Charges pages to the group and fills the CPU's drained stock with them: `sizes.stock` pages if each memory.high and
// each limit has room for them, else one.
fn fill_drained_stock<N: BootName>(
    machine: &mut Machine<N>,
    tables: &Tables<N>,
    cpu: &CpuLists<N>,
    sizes: Config,
    group: GroupId,
) -> Result<(), AllocFault>
    requires may_pay { MayPay N.table sizes group machine.old cpu.now }
    requires drained { IsDrained N.table machine.old cpu.now.number }
    ensures charges { VisitDoes N.table (FillsDrainedStock sizes group result)
        machine.old cpu.now machine.new cpu.now }
    ensures visit { Visits N.table machine.new cpu.now }
{
    machine.prove_room();
    if fill_batch(machine, tables, cpu, group, sizes.stock) {
        return Ok(());
    }
    fill_one(machine, tables, cpu, group)
}

// Makes sure that the CPU's stock has a page of the group.
pub(crate) fn pay_for_frame<N: BootName>(
    machine: &mut Machine<N>,
    tables: &Tables<N>,
    cpu: &CpuLists<N>,
    sizes: Config,
    group: GroupId,
) -> Result<(), AllocFault>
    requires { MayPay N.table sizes group machine.old cpu.now }
    ensures pays { VisitDoes N.table (PaysForFrame sizes group result) machine.old cpu.now machine.new cpu.now }
    ensures visit { Visits N.table machine.new cpu.now }
    ensures page { OnOk result (HoldsPage N.table machine.new cpu.now.number group) }
{
    if holds_page(machine, tables, cpu, group) {
        return Ok(());
    }
    let cpu_number = cpu.number();
    machine.drain_stock(tables, cpu_number);
    fill_drained_stock(machine, tables, cpu, sizes, group)
}
