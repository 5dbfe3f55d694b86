//! Reclaim of an amount (cgroup-v2.rst, memory.reclaim).

ghost use Rattle.std.specs.Prelude.{◌≡◌, ◌<◌, ◌+◌, IsTrue};
ghost use Rattle.group_tree.specs.Groups.{has_group};
ghost use Rattle.group_charge.specs.Charges.{current_of};
ghost use Rattle.boot_words.specs.Pasts.{IsHeld};
ghost use Rattle.mem_reclaim.specs.Moves.{FreesBySteps};
ghost use Rattle.mem_reclaim.specs.Rounds.{ReclaimsAmount, ReclaimsPages};
ghost use Rattle.mem_reclaim.specs.Staying.{Keeps, MissedAll};

use crate::rounds::{MAX_ROUNDS, reclaim_round};
use cpu_part::{BootName, Tables};
use group_charge::note::Note;
use group_tree::group::GroupId;
use mem_machine::Machine;

// Reclaims `asked` pages from the subtree of `group` in rounds, as `reclaim_amount` does, without the note before them.
fn make_reclaim_rounds<N: BootName>(
    machine: &mut Machine<N>,
    tables: &Tables<N>,
    group: GroupId,
    asked: u64,
) -> u64
    requires there { IsTrue (has_group machine.old.ledger.groups group) }
    requires held { IsHeld N.table machine.old.run.past }
    ensures rounds { FreesBySteps N.table result machine.old machine.new (ReclaimsPages group asked) }
    ensures missed { result < asked → MissedAll group machine.old machine.new }
    ensures usage { current_of machine.new.ledger group + result ≡ current_of machine.old.ledger group }
    ensures keeps { Keeps N.table machine.old machine.new }
{
    machine.prove_usage(group); // At most this much is freed, so no sum overflows.
    let mut freed = 0;
    for round in 0..MAX_ROUNDS {
        if asked <= freed {
            return freed;
        }
        let pages = reclaim_round(machine, tables, group, round + 1, asked - freed).pages;
        freed += pages;
        if pages == 0 {
            return freed;
        }
    }
    freed
}

/// Reclaims `asked` pages from the subtree of `group`, in at most 16 rounds. That they are asked for is noted first.
/// Each round wants what is still missing and is noted; a round that freed nothing is the last. Returns how many pages
/// were freed. They are more than asked for if a block had more, and fewer only if each clean unit that the subtree
/// still keeps was tried and missed, or memory.min protects it. Stocks stay, and nobody is killed.
pub fn reclaim_amount<N: BootName>(
    machine: &mut Machine<N>,
    tables: &Tables<N>,
    group: GroupId,
    asked: u64,
) -> u64
    requires there { IsTrue (has_group machine.old.ledger.groups group) }
    requires held { IsHeld N.table machine.old.run.past }
    ensures rounds { FreesBySteps N.table result machine.old machine.new (ReclaimsAmount group asked) }
    ensures missed { result < asked → MissedAll group machine.old machine.new }
    ensures usage { current_of machine.new.ledger group + result ≡ current_of machine.old.ledger group }
    ensures keeps { Keeps N.table machine.old machine.new }
{
    machine.note(Note::Asked {
        group,
        pages: asked,
    });
    make_reclaim_rounds(machine, tables, group, asked)
}
