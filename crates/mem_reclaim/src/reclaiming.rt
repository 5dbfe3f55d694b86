//! Reclaiming pages from a subtree.

ghost use Rattle.std.specs.Prelude.{◌≡◌, ◌<◌, ◌+◌, IsTrue, nat_lt};
ghost use Rattle.group_tree.specs.Groups.{has_group};
ghost use Rattle.group_charge.specs.Charges.{current_of};
ghost use Rattle.boot_words.specs.Pasts.{IsHeld};
ghost use Rattle.mem_reclaim.specs.Moves.{FreesBySteps};
ghost use Rattle.mem_reclaim.specs.Passes.{MakesPasses};
ghost use Rattle.mem_reclaim.specs.Shares.{Reclaims};
ghost use Rattle.mem_reclaim.specs.Staying.{Keeps, MissedAll};

use crate::passes::{Pass, reclaim_pass};
use crate::shares::reclaim_shares;
use cpu_part::{BootName, Tables};
use group_tree::group::GroupId;
use mem_machine::Machine;

/// The result of a reclaim.
#[derive(Clone, Copy, Debug, PartialEq, Eq)]
pub struct Reclaimed {
    /// How many pages were freed: fewer than those wanted and 1,024 together, as many as the largest block has.
    pub pages: u64,
    /// Whether the last pass ended without enough pages: each clean unit that the subtree still keeps was tried and
    /// missed, or memory.min protects it.
    pub tried_all: bool,
}

// The passes of a reclaim of `want` pages from the subtree of `group`. If no group of the tree has memory.low or
// memory.min, the third pass would only repeat the second.
fn make_passes<N: BootName>(
    machine: &mut Machine<N>,
    tables: &Tables<N>,
    group: GroupId,
    want: u64,
) -> u64
    requires there { IsTrue (has_group machine.old.ledger.groups group) }
    requires wanted { 0 < want }
    requires held { IsHeld N.table machine.old.run.past }
    ensures reclaims { FreesBySteps N.table result machine.old machine.new (MakesPasses group want) }
    ensures missed { result < want → MissedAll group machine.old machine.new }
    ensures usage { current_of machine.new.ledger group + result ≡ current_of machine.old.ledger group }
    ensures few { result < want + 1024 }
    ensures keeps { Keeps N.table machine.old machine.new }
{
    machine.prove_usage(group); // At most this many pages are freed.
    let first = reclaim_pass(machine, tables, group, want, Pass::First, None);
    if want <= first {
        return first;
    }
    let both = first + reclaim_pass(machine, tables, group, want - first, Pass::Second, None);
    if want <= both {
        return both;
    }
    if !machine.charges().is_protecting() {
        return both;
    }
    both + reclaim_pass(machine, tables, group, want - both, Pass::Third, None)
}

// All passes of a reclaim of `want` pages: the pass of shares before the others, if the boot chose it.
fn make_all_passes<N: BootName>(
    machine: &mut Machine<N>,
    tables: &Tables<N>,
    group: GroupId,
    want: u64,
) -> u64
    requires there { IsTrue (has_group machine.old.ledger.groups group) }
    requires wanted { 0 < want }
    requires held { IsHeld N.table machine.old.run.past }
    ensures reclaims { FreesBySteps N.table result machine.old machine.new (Reclaims group want) }
    ensures missed { result < want → MissedAll group machine.old machine.new }
    ensures usage { current_of machine.new.ledger group + result ≡ current_of machine.old.ledger group }
    ensures few { result < want + 1024 }
    ensures keeps { Keeps N.table machine.old machine.new }
{
    if !machine.is_proportional() {
        return make_passes(machine, tables, group, want);
    }
    machine.prove_usage(group); // At most this many pages are freed.
    let shared = reclaim_shares(machine, tables, group, want);
    if want <= shared {
        return shared;
    }
    shared + make_passes(machine, tables, group, want - shared)
}

/// Frees units that the subtree of `group` keeps, until at least `want` pages are freed or every clean unit that
/// memory.min doesn't protect was tried. A unit is freed if only the zone has a reference on it; a dirty unit never is.
/// The first pass ages each group's lists, tries its inactive units and gives marked ones a second chance. The second
/// pass tries all clean units. If some group of the tree has memory.low or memory.min, these passes spare what one of
/// them protects, and a third spares only what memory.min protects. Each pass goes over the groups by ascending number,
/// and over a list from the oldest unit to the newest. If the boot chose it (`Choices::is_proportional`), a pass of shares
/// comes before them: a first pass in which no turn wants more than its group's share of `want`, in proportion to the
/// groups' clean pages. With `want` 0 nothing is done.
pub fn reclaim<N: BootName>(
    machine: &mut Machine<N>,
    tables: &Tables<N>,
    group: GroupId,
    want: u64,
) -> Reclaimed
    requires there { IsTrue (has_group machine.old.ledger.groups group) }
    requires held { IsHeld N.table machine.old.run.past }
    ensures reclaims { FreesBySteps N.table result.pages machine.old machine.new (Reclaims group want) }
    ensures tried_all { result.tried_all ≡ nat_lt result.pages want }
    ensures missed { IsTrue result.tried_all → MissedAll group machine.old machine.new }
    ensures usage { current_of machine.new.ledger group + result.pages ≡ current_of machine.old.ledger group }
    ensures few { result.pages < want + 1024 }
    ensures keeps { Keeps N.table machine.old machine.new }
{
    if want == 0 {
        return Reclaimed {
            pages: 0,
            tried_all: false,
        };
    }
    let pages = make_all_passes(machine, tables, group, want);
    Reclaimed {
        pages,
        tried_all: pages < want,
    }
}
