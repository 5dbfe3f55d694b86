//! Lowering a group's usage to a limit.

ghost use Rattle.std.specs.Prelude.{IsTrue};
ghost use Rattle.group_tree.specs.Groups.{has_group};
ghost use Rattle.boot_words.specs.Pasts.{IsHeld};
ghost use Rattle.mem_machine.specs.{Makes, StaysVisited, BySteps};
ghost use Rattle.mem_system.specs.Usage.{LowersAbove, LowersToHigh, LowersUsage};

use control_files::limit::Limit;
use cpu_part::{BootName, Tables};
use group_charge::note::Note;
use group_tree::group::GroupId;
use mem_alloc::{kill_for_limit, note_limit};
use mem_machine::Machine;
use mem_reclaim::reclaim_to_limit;

// Lowers the group's usage to this many pages, as far as possible: drains the stocks of its subtree, and reclaims from
// it in rounds.
pub(crate) fn lower_usage<N: BootName>(
    machine: &mut Machine<N>,
    tables: &Tables<N>,
    group: GroupId,
    limit: u32,
)
    requires there { IsTrue (has_group machine.old.ledger.groups group) }
    requires held { IsHeld N.table machine.old.run.past }
    ensures lowers { BySteps Makes N.table (LowersUsage group limit) machine.old machine.new }
    ensures visit { StaysVisited N.table machine.old machine.new }
{
    machine.drain_stocks(tables, group);
    reclaim_to_limit(machine, tables, group, 0, limit);
}

// If the group's usage is above its new memory.high, notes that and lowers the usage as `lower_usage` does. No event is
// counted, since no charge was about to exceed it, and nobody is killed for memory.high.
pub(crate) fn lower_to_high<N: BootName>(
    machine: &mut Machine<N>,
    tables: &Tables<N>,
    group: GroupId,
    high: Limit,
)
    requires there { IsTrue (has_group machine.old.ledger.groups group) }
    requires held { IsHeld N.table machine.old.run.past }
    ensures lowers { BySteps Makes N.table (LowersToHigh group high) machine.old machine.new }
    ensures visit { StaysVisited N.table machine.old machine.new }
{
    let Some(high) = high else {
        return;
    };
    let usage = machine.current(group);
    if high < usage {
        machine.note(Note::High {
            group,
            high,
            usage,
            need: 0,
        });
        lower_usage(machine, tables, group, high);
    }
}

// If the group's usage is above its limit, notes that and lowers the usage as `lower_usage` does. If that isn't enough,
// kills until the usage is within the limit or no victim is left, unless the boot chose that no group is killed.
pub(crate) fn keep_to_limit<N: BootName>(
    machine: &mut Machine<N>,
    tables: &Tables<N>,
    group: GroupId,
    limit: u32,
)
    requires there { IsTrue (has_group machine.old.ledger.groups group) }
    requires held { IsHeld N.table machine.old.run.past }
    ensures lowers { BySteps Makes N.table (LowersAbove group limit) machine.old machine.new }
    ensures visit { StaysVisited N.table machine.old machine.new }
{
    if limit < machine.current(group) {
        note_limit(machine, group, 0);
        lower_usage(machine, tables, group, limit);
        kill_for_limit(machine, tables, group);
    }
}
