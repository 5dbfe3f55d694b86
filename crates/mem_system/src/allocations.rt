//! Allocating frames and blocks for a group.

ghost use Rattle.std.specs.Prelude.{◌≡◌, ℕ, IsTrue, Err};
ghost use Rattle.group_tree.specs.Groups.{has_group};
ghost use Rattle.mem_machine.specs.Local.{KeepsVisit, VisitDoes};
ghost use Rattle.mem_alloc.specs.declared.faults.AllocFault.TheVariants as cause_is;
ghost use Rattle.mem_system.specs.Allocations.{Allocates, AllocatesAs, FreshOf, outcome_of};
ghost use Rattle.mem_system.specs.Outcomes.{HasItsGroups};
ghost use Rattle.mem_system.specs.Commands.{ListAndFreshStayWithin, MayExecute};

use crate::outcome::Outcome;
use cpu_part::{BootName, CpuLists, Tables};
use frame_word::Frame;
use group_tree::fault::Fault;
use group_tree::group::GroupId;
use mem_alloc::{AllocFault, alloc_block, alloc_frame};
use mem_machine::Machine;
use zone_blocks::config::Config;
use zone_blocks::order::Order;

// The outcome of an allocation.
pub(crate) fn outcome_of(answer: &Result<Frame, AllocFault>) -> Outcome
    ensures { result ≡ outcome_of answer.now }
{
    match answer {
        Ok(frame) => Outcome::Frame(frame.number()),
        Err(cause) => match *cause {
            AllocFault::Over(group) => Outcome::OverLimit(group),
            AllocFault::NoFrames => Outcome::Refused(Fault::NoFrames),
            AllocFault::RequesterKilled => Outcome::Refused(Fault::Killed),
        },
    }
}

// Allocates a single frame, or a block of an order above 0, for the group.
fn allocate_as<N: BootName>(
    machine: &mut Machine<N>,
    tables: &Tables<N>,
    cpu: &mut CpuLists<N>,
    sizes: Config,
    group: GroupId,
    order: Order,
) -> Result<Frame, AllocFault>
    requires visit { MayExecute N.table sizes machine.old cpu.old }
    requires there { IsTrue (has_group machine.old.ledger.groups group) }
    ensures allocates { VisitDoes N.table (AllocatesAs sizes group order result)
        machine.old cpu.old machine.new cpu.new }
    ensures stays { KeepsVisit N.table cpu.old machine.new cpu.new }
    ensures fresh { FreshOf (outcome_of result) order cpu.new.fresh }
    ensures at_most_high { ListAndFreshStayWithin sizes cpu.old cpu.new }
    ensures there { (g : ℕ) → result ≡ Err (cause_is.Over g) → IsTrue (has_group machine.new.ledger.groups g) }
{
    if order.exponent() == 0 {
        alloc_frame(machine, tables, cpu, sizes, group)
    } else {
        alloc_block(machine, tables, cpu, group, order)
    }
}

// Allocates frames of this order for the group.
pub(crate) fn allocate<N: BootName>(
    machine: &mut Machine<N>,
    tables: &Tables<N>,
    cpu: &mut CpuLists<N>,
    sizes: Config,
    group: GroupId,
    order: u32,
) -> Outcome
    requires visit { MayExecute N.table sizes machine.old cpu.old }
    requires there { IsTrue (has_group machine.old.ledger.groups group) }
    ensures allocates { VisitDoes N.table (Allocates sizes group order result)
        machine.old cpu.old machine.new cpu.new }
    ensures groups { HasItsGroups machine.new.ledger result }
    ensures stays { KeepsVisit N.table cpu.old machine.new cpu.new }
    ensures fresh { FreshOf result order cpu.new.fresh }
    ensures at_most_high { ListAndFreshStayWithin sizes cpu.old cpu.new }
{
    let Some(order) = Order::of(order) else {
        return Outcome::Refused(Fault::BadOrder);
    };
    let answer = allocate_as(machine, tables, cpu, sizes, group, order);
    outcome_of(&answer)
}
