//! Reclaim in proportion: a pass in which each group gives no more than its share.

ghost use Rattle.std.specs.Prelude.{◌≡◌, ◌<◌, ◌+◌, IsTrue, slice_index};
ghost use Rattle.group_tree.specs.Groups.{has_group, room_of};
ghost use Rattle.group_charge.specs.Charges.{current_of};
ghost use Rattle.boot_words.specs.Pasts.{IsHeld};
ghost use Rattle.mem_reclaim.specs.Moves.{FreesBySteps};
ghost use Rattle.mem_reclaim.specs.Shares.{ReclaimsShares, may_give};
ghost use Rattle.mem_reclaim.specs.Staying.{Keeps};

use crate::passes::{Pass, reclaim_pass, spared_by};
use cpu_part::{BootName, Tables};
use group_protection::protecting::protection_of;
use group_protection::reclaim_shares::Shares;
use group_tree::group::{GroupId, MAX_GROUPS};
use mem_machine::{Machine, is_in_subtree, prove_charges};

// How many pages a group of the subtree of `target` may give: its clean ones, as far as its usage is beyond what a first
// pass spares. Other groups give none.
fn may_give<N: BootName>(machine: &Machine<N>, target: GroupId, group: GroupId) -> u32
    requires { IsTrue (has_group machine.now.ledger.groups target) }
    ensures { result ≡ may_give machine.now target group }
{
    let charges = machine.charges();
    prove_charges(charges);
    if !is_in_subtree(charges.tree(), target, group) {
        return 0;
    }
    let protection = protection_of(charges, target, group);
    let rest = charges
        .current(group)
        .saturating_sub(spared_by(Pass::First, protection));
    machine.clean_pages(group).min(u64::from(rest)) as u32
}

// The shares of a reclaim of `want` pages from the subtree of `target`.
fn shares_of<N: BootName>(machine: &Machine<N>, target: GroupId, want: u64) -> Shares
    requires { IsTrue (has_group machine.now.ledger.groups target) }
    ensures room { result.room ≡ room_of machine.now.ledger.groups }
    ensures available { slice_index result.available ≡ may_give machine.now target }
    ensures want { result.want ≡ want }
{
    prove_charges(machine.charges());
    let room = machine.room();
    let mut available = [0; MAX_GROUPS];
    for number in 0..room {
        let Some(group) = GroupId::of(number) else {
            unreachable!()
        };
        available[number as usize] = may_give(machine, target, group);
    }
    Shares::new(available, room, want)
}

/// The pass of shares over the subtree of `target`. It ages lists and spares marked units, as a first pass does. Returns
/// how many pages were freed.
pub(crate) fn reclaim_shares<N: BootName>(
    machine: &mut Machine<N>,
    tables: &Tables<N>,
    target: GroupId,
    want: u64,
) -> u64
    requires there { IsTrue (has_group machine.old.ledger.groups target) }
    requires held { IsHeld N.table machine.old.run.past }
    ensures passes { FreesBySteps N.table result machine.old machine.new (ReclaimsShares target want) }
    ensures keeps { Keeps N.table machine.old machine.new }
    ensures usage { current_of machine.new.ledger target + result ≡ current_of machine.old.ledger target }
    ensures few { result < want + 1024 }
{
    let shares = shares_of(machine, target, want);
    reclaim_pass(machine, tables, target, want, Pass::First, Some(&shares))
}
