//! Rounds of reclaim before a limit.

ghost use Rattle.std.specs.Prelude.{◌≡◌, ◌<◌, ◌+◌, ◌^◌, IsTrue, nat_lt};
ghost use Rattle.group_tree.specs.Groups.{has_group};
ghost use Rattle.group_charge.specs.Charges.{current_of};
ghost use Rattle.boot_words.specs.Pasts.{IsHeld};
ghost use Rattle.mem_reclaim.specs.Moves.{FreesBySteps};
ghost use Rattle.mem_reclaim.specs.Rounds.{ReclaimsRound, ReclaimsRounds, max_rounds, pages_missing, pages_wanted};
ghost use Rattle.mem_reclaim.specs.Staying.{Keeps, MissedAll};

use crate::reclaiming::{Reclaimed, reclaim};
use cpu_part::{BootName, Tables};
use group_charge::charges::Charges;
use group_charge::note::Note;
use group_tree::group::GroupId;
use mem_machine::Machine;

/// The greatest number of rounds of reclaim before a limit. Linux makes as many (`MAX_RECLAIM_RETRIES`), but counts
/// only those that freed nothing.
pub const MAX_ROUNDS: u32 = 16;

// How many pages must be freed in the group's subtree, so that with `need` more pages its usage is at most the limit.
fn missing(charges: &Charges, group: GroupId, need: u32, limit: u32) -> u64
    requires { IsTrue (has_group charges.now.groups group) }
    ensures missing { result ≡ pages_missing group need limit charges.now }
    ensures few { current_of charges.now group < 2 ^ 32 }
{
    (u64::from(charges.current(group)) + u64::from(need)).saturating_sub(u64::from(limit))
}

// How many pages a round wants: those that are missing, but at least `batch`.
fn wanted(charges: &Charges, group: GroupId, need: u32, limit: u32, batch: u32) -> u64
    requires { IsTrue (has_group charges.now.groups group) }
    ensures wanted { result ≡ pages_wanted batch group need limit charges.now }
    ensures few { current_of charges.now group < 2 ^ 32 }
{
    let missing = missing(charges, group, need, limit);
    if missing == 0 {
        return 0;
    }
    missing.max(u64::from(batch))
}

/// Makes the round of this number, from 1, for a group, in which `want` pages are wanted. It is noted with what it
/// tried, after the units that it freed, if these are noted. If it frees fewer pages, each clean unit that the subtree
/// still keeps was tried and missed, or memory.min protects it.
pub fn reclaim_round<N: BootName>(
    machine: &mut Machine<N>,
    tables: &Tables<N>,
    group: GroupId,
    number: u32,
    want: u64,
) -> Reclaimed
    requires there { IsTrue (has_group machine.old.ledger.groups group) }
    requires held { IsHeld N.table machine.old.run.past }
    ensures makes { FreesBySteps N.table result.pages machine.old machine.new (ReclaimsRound group number want) }
    ensures tried_all { result.tried_all ≡ nat_lt result.pages want }
    ensures missed { IsTrue result.tried_all → MissedAll group machine.old machine.new }
    ensures usage { current_of machine.new.ledger group + result.pages ≡ current_of machine.old.ledger group }
    ensures keeps { Keeps N.table machine.old machine.new }
{
    let before = machine.counts();
    let reclaimed = reclaim(machine, tables, group, want);
    let after = machine.counts();
    let usage = machine.current(group);
    machine.note(Note::Round {
        number,
        returned: after.freezes.saturating_sub(before.freezes),
        missed: after.misses.saturating_sub(before.misses),
        pages: reclaimed.pages,
        usage,
    });
    reclaimed
}

/// Reclaims from the subtree of `group` until its usage with `need` more pages is at most `limit`. It makes at most 16
/// rounds. Each round wants the pages that are missing when it begins, but at least `batch`, and is noted; one that
/// freed none is the last. Returns how many pages were freed. If they weren't enough, each clean unit that the subtree
/// still keeps was tried and missed, or memory.min protects it.
pub fn reclaim_in_batches<N: BootName>(
    machine: &mut Machine<N>,
    tables: &Tables<N>,
    group: GroupId,
    need: u32,
    limit: u32,
    batch: u32,
) -> u64
    requires there { IsTrue (has_group machine.old.ledger.groups group) }
    requires held { IsHeld N.table machine.old.run.past }
    ensures rounds { FreesBySteps N.table result machine.old machine.new
        (ReclaimsRounds group (pages_wanted batch group need limit) max_rounds) }
    ensures missed { limit < current_of machine.new.ledger group + need → MissedAll group machine.old machine.new }
    ensures usage { current_of machine.new.ledger group + result ≡ current_of machine.old.ledger group }
    ensures keeps { Keeps N.table machine.old machine.new }
{
    let mut freed = 0;
    for round in 0..MAX_ROUNDS {
        let want = wanted(machine.charges(), group, need, limit, batch);
        if want == 0 {
            return freed;
        }
        let pages = reclaim_round(machine, tables, group, round + 1, want).pages;
        freed += pages;
        if pages == 0 {
            return freed;
        }
    }
    freed
}

/// Reclaims as `reclaim_in_batches` does, in rounds that want just the pages that are missing.
pub fn reclaim_to_limit<N: BootName>(
    machine: &mut Machine<N>,
    tables: &Tables<N>,
    group: GroupId,
    need: u32,
    limit: u32,
) -> u64
    requires there { IsTrue (has_group machine.old.ledger.groups group) }
    requires held { IsHeld N.table machine.old.run.past }
    ensures rounds { FreesBySteps N.table result machine.old machine.new
        (ReclaimsRounds group (pages_missing group need limit) max_rounds) }
    ensures missed { limit < current_of machine.new.ledger group + need → MissedAll group machine.old machine.new }
    ensures usage { current_of machine.new.ledger group + result ≡ current_of machine.old.ledger group }
    ensures keeps { Keeps N.table machine.old machine.new }
{
    reclaim_in_batches(machine, tables, group, need, limit, 1)
}
