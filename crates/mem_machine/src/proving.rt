//! What always holds. A proof knows the invariant of a type only from the contract of a call. Each of these calls has
//! such a contract, and does nothing.

ghost use Rattle.std.specs.Prelude.{◌≡◌, ◌^◌, ◌<◌, ◌≤◌, IsTrue};
ghost use Rattle.group_tree.specs.{most_groups, AreGroups, has_group};
ghost use Rattle.group_charge.specs.Charges.{AreCharges, current_of, total_pages};
ghost use Rattle.mem_machine.specs.Machines.{IsConsistent};

use crate::machine::Machine;
use cpu_part::{BootName, Tables};
use group_charge::charges::Charges;
use group_tree::group::GroupId;
use group_tree::tree::Tree;
use zone_blocks::order::Order;

/// Shows that there are at most 64 CPUs, and fewer than 2^32 frames.
#[inline(always)]
pub fn prove_sizes<N: BootName>(tables: &Tables<N>)
    ensures frames { N.table.frames < 2 ^ 32 }
    ensures few { N.table.cpus ≤ 64 }
{
    let _frames = tables.words.frames();
    let _cpus = tables.words.cpus();
}

/// Shows that a group's number is below `most_groups`.
#[inline(always)]
pub fn prove_number(group: GroupId)
    ensures { group < most_groups }
{
    let _number = group.number();
}

/// Shows that a block has at most 1,024 frames.
#[inline(always)]
pub fn prove_order(order: Order)
    ensures { 2 ^ order ≤ 1024 }
{
    let _frames = order.frames();
}

/// Shows that the groups make up a tree.
#[inline(always)]
pub fn prove_groups(tree: &Tree)
    ensures legal { AreGroups tree.now }
    ensures root { IsTrue (has_group tree.now 0) }
{
    let _groups = tree.groups();
}

/// Shows that the charges are those of a tree, and that the root's are all of them.
#[inline(always)]
pub fn prove_charges(charges: &Charges)
    ensures legal { AreCharges charges.now }
    ensures root { IsTrue (has_group charges.now.groups 0) }
    ensures total { current_of charges.now 0 ≡ total_pages charges.now.accounts }
    ensures fits { current_of charges.now 0 < 2 ^ 32 }
{
    let _tree = charges.tree();
}

impl<N: BootName> Machine<N> {
    /// Shows that the machine is consistent.
    #[inline(always)]
    pub fn prove_consistent(&self)
        ensures { IsConsistent N.table self.now }
    {
        let _ = &self.past;
    }

    /// Shows that a group's usage is below 2^32 pages.
    #[inline(always)]
    pub fn prove_usage(&self, group: GroupId)
        requires { IsTrue (has_group self.now.ledger.groups group) }
        ensures { current_of self.now.ledger group < 2 ^ 32 }
    {
        let _usage = self.current(group);
    }
}
