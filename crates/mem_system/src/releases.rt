//! Releasing kept units.

ghost use Rattle.std.specs.Prelude.{◌≡◌, ◌↔◌, ◌<◌, ◌≤◌, IsTrue, [], length};
ghost use Rattle.zone_blocks.specs.Config.{IsValidConfig};
ghost use Rattle.step_rules.specs.declared.phase.ChargedUnit.{ChargedUnit};
ghost use Rattle.mem_machine.specs.declared.frame_state.FrameState.TheVariants.{Free, Head};
ghost use Rattle.mem_machine.specs.{frame_state_at, KeepsVisit, VisitDoes, Visits};
ghost use Rattle.mem_system.specs.Outcomes.{HasItsGroups};
ghost use Rattle.mem_system.specs.Releases.{CutsList, ListsFrame, ReleasesFrame};
ghost use Rattle.mem_system.specs.Commands.{ListStaysWithin};

use crate::outcome::Outcome;
use crate::units::find_unit;
use cpu_part::{BootName, CpuLists, Tables};
use frame_word::Frame;
use group_tree::fault::Fault;
use mem_machine::{Machine, Released};
use zone_blocks::config::Config;

// Whether the unit that the frame heads is a single frame.
fn is_single<N: BootName>(machine: &Machine<N>, frame: Frame) -> bool
    requires { frame < N.table.frames }
    ensures { (unit : ChargedUnit) → frame_state_at machine.now.frame_states frame ≡ Head unit → IsTrue result
        ↔ (unit.order ≡ 0) }
{
    match machine.unit(frame) {
        Some(unit) => unit.order.exponent() == 0,
        None => false,
    }
}

// If the CPU's list has at least `high` frames, returns `batch` frames from its front to the zone.
fn cut_list<N: BootName>(
    machine: &mut Machine<N>,
    tables: &Tables<N>,
    cpu: &mut CpuLists<N>,
    sizes: Config,
)
    requires visit { Visits N.table machine.old cpu.old }
    requires sizes { IsValidConfig sizes }
    ensures cuts { VisitDoes N.table (CutsList sizes) machine.old cpu.old machine.new cpu.new }
    ensures visit { Visits N.table machine.new cpu.new }
    ensures room { length cpu.new.list < 256 }
    ensures below_high { length cpu.old.list ≤ sizes.high → length cpu.new.list < sizes.high }
{
    if cpu.list_len() >= sizes.high as usize {
        machine.drain_list(tables, cpu, sizes.batch);
    }
}

// Adds a free frame to the end of the CPU's list, which is cut first if it has at least `high` frames.
fn list_frame<N: BootName>(
    machine: &mut Machine<N>,
    tables: &Tables<N>,
    cpu: &mut CpuLists<N>,
    sizes: Config,
    frame: Frame,
)
    requires visit { Visits N.table machine.old cpu.old }
    requires sizes { IsValidConfig sizes }
    requires frame { frame < N.table.frames }
    requires free { frame_state_at machine.old.frame_states frame ≡ Free }
    requires none_fresh { cpu.old.fresh ≡ [] }
    ensures lists { VisitDoes N.table (ListsFrame sizes frame) machine.old cpu.old machine.new cpu.new }
    ensures stays { KeepsVisit N.table cpu.old machine.new cpu.new }
    ensures fresh { cpu.new.fresh ≡ cpu.old.fresh }
    ensures at_most_high { ListStaysWithin sizes cpu.old cpu.new }
{
    cut_list(machine, tables, cpu, sizes);
    machine.lend(tables, cpu, frame);
}

// Releases the unit that the frame heads. A single frame that is freed goes to the CPU's list.
pub(crate) fn release_frame<N: BootName>(
    machine: &mut Machine<N>,
    tables: &Tables<N>,
    cpu: &mut CpuLists<N>,
    sizes: Config,
    frame: u32,
) -> Outcome
    requires visit { Visits N.table machine.old cpu.old }
    requires sizes { IsValidConfig sizes }
    requires frame { frame < N.table.frames }
    requires none_fresh { cpu.old.fresh ≡ [] }
    ensures released { VisitDoes N.table (ReleasesFrame sizes frame result) machine.old cpu.old machine.new cpu.new }
    ensures groups { HasItsGroups machine.new.ledger result }
    ensures stays { KeepsVisit N.table cpu.old machine.new cpu.new }
    ensures fresh { cpu.new.fresh ≡ cpu.old.fresh }
    ensures at_most_high { ListStaysWithin sizes cpu.old cpu.new }
{
    let Some(frame) = find_unit(machine, tables, frame) else {
        return Outcome::Refused(Fault::NotKept);
    };
    let is_single = is_single(machine, frame);
    match machine.release(tables, cpu, frame) {
        Released::Left(left) => Outcome::Left(left),
        Released::Returned => {
            if is_single {
                list_frame(machine, tables, cpu, sizes, frame);
            }
            Outcome::Returned
        }
    }
}
