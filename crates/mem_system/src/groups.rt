//! Making and removing groups.

ghost use Rattle.std.specs.Prelude.{IsTrue, MatchResult};
ghost use Rattle.group_tree.specs.Groups.{has_group};
ghost use Rattle.boot_words.specs.Pasts.{IsHeld};
ghost use Rattle.mem_machine.specs.{BySteps, Makes, StaysVisited};
ghost use Rattle.mem_system.specs.Leaves.{IsLeaf, IsNoLeaf};
ghost use Rattle.mem_system.specs.Outcomes.{HasItsGroups};
ghost use Rattle.mem_system.specs.Groups.{MakesGroup, Removes};

use crate::outcome::Outcome;
use crate::usage::lower_usage;
use cpu_part::{BootName, Tables};
use group_charge::charges::Charges;
use group_tree::fault::Fault;
use group_tree::group::GroupId;
use mem_machine::Machine;

// Makes the group of the path.
pub(crate) fn make_group<N: BootName>(
    machine: &mut Machine<N>,
    tables: &Tables<N>,
    path: &[u8],
) -> Outcome
    requires held { IsHeld N.table machine.old.run.past }
    ensures made { BySteps Makes N.table (MakesGroup path.now result) machine.old machine.new }
    ensures groups { HasItsGroups machine.new.ledger result }
    ensures visit { StaysVisited N.table machine.old machine.new }
{
    match machine.make(tables, path) {
        Ok(group) => Outcome::Group(group),
        Err(fault) => Outcome::Refused(fault),
    }
}

// Refuses to remove the root, and a group with a child.
fn check_leaf(charges: &Charges, group: GroupId) -> Result<(), Fault>
    requires there { IsTrue (has_group charges.now.groups group) }
    ensures { MatchResult result (λ ok. IsLeaf charges.now.groups group) (IsNoLeaf charges.now.groups group) }
{
    if group == GroupId::root() {
        return Err(Fault::BadName);
    }
    if charges.tree().has_child(group) {
        return Err(Fault::HasChildren);
    }
    Ok(())
}

// Lowers the usage of the group as far as possible, and removes the group if nothing is charged to it then. The group
// has no child, so all of its usage is its own.
pub(crate) fn remove_group<N: BootName>(
    machine: &mut Machine<N>,
    tables: &Tables<N>,
    group: GroupId,
) -> Outcome
    requires there { IsTrue (has_group machine.old.ledger.groups group) }
    requires held { IsHeld N.table machine.old.run.past }
    ensures removed { BySteps Makes N.table (Removes group result) machine.old machine.new }
    ensures groups { HasItsGroups machine.new.ledger result }
    ensures visit { StaysVisited N.table machine.old machine.new }
{
    if let Err(fault) = check_leaf(machine.charges(), group) {
        return Outcome::Refused(fault);
    }
    lower_usage(machine, tables, group, 0);
    if machine.current(group) > 0 {
        return Outcome::Refused(Fault::Busy);
    }
    machine.remove(tables, group);
    Outcome::Done
}
