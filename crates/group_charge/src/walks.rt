//! The walks from a group up to the root, over usages, peaks and counts, which are kept by group number.

ghost use Rattle.std.specs.Prelude.{◌≡◌, ℕ, ◌+◌, ◌-◌, ◌^◌, ◌<◌, ◌≤◌, IfSome, IsTrue, MatchOption, length};
ghost use Rattle.group_tree.specs.{is_passed, room_of, AreGroups, has_group, in_subtree, IsLowestOver, PathHasRoom};
ghost use Rattle.group_tree.specs.{fits_limit};
ghost use Rattle.group_charge.specs.Kept.{AccountsOnPath, UsagesPassed, account_by, usage_by, with_event};
ghost use Rattle.group_charge.specs.Kept.{with_local_event, with_usage_peak};

use crate::account::Account;
use group_tree::event::EventKey;
use group_tree::group::GroupId;
use group_tree::tree::Tree;

// Whether the pages are at most the limit, if there is one.
fn fits_limit(limit: Option<u32>, pages: u32) -> bool
    ensures { result ≡ fits_limit limit pages }
{
    match limit {
        None => true,
        Some(limit) => pages <= limit,
    }
}

/// Adds the pages to the usage of the group and of each group above it, until one would exceed its limit. Returns that
/// group, to which it adds nothing.
pub fn add_until_over(
    tree: &Tree,
    usages: &mut Vec<u32>,
    group: GroupId,
    pages: u32,
) -> Option<GroupId>
    requires legal { AreGroups tree.now }
    requires there { IsTrue (has_group tree.now group) }
    requires size { length usages.old.items ≡ room_of tree.now }
    requires fits { (m : ℕ) → usage_by usages.old.items m + pages < 2 ^ 32 }
    ensures room { MatchOption result (PathHasRoom tree.now (usage_by usages.old.items) group pages)
        (IsLowestOver tree.now (usage_by usages.old.items) group pages) }
    ensures added { UsagesPassed tree.now group result (λ usage. usage + pages) usages.old.items usages.new.items }
    ensures size { length usages.new.items ≡ room_of tree.now }
{
    for ancestor in tree.ancestors(group) {
        let number = ancestor.number() as usize;
        let usage = usages[number] + pages;
        if !fits_limit(tree.max(ancestor), usage) {
            return Some(ancestor);
        }
        usages[number] = usage;
    }
    None
}

/// Subtracts the pages from the usage of the group and of each group above it. If an end is given, the walk stops
/// there: that group and those above it keep their usage.
pub fn subtract_until(
    tree: &Tree,
    usages: &mut Vec<u32>,
    group: GroupId,
    end: Option<GroupId>,
    pages: u32,
)
    requires legal { AreGroups tree.now }
    requires there { IsTrue (has_group tree.now group) }
    requires size { length usages.old.items ≡ room_of tree.now }
    requires on_path { IfSome end (λ m. IsTrue (in_subtree tree.now m group)) }
    requires enough { (m : ℕ) → IsTrue (is_passed tree.now group end m) → pages ≤ usage_by usages.old.items m }
    ensures taken { UsagesPassed tree.now group end (λ usage. usage - pages) usages.old.items usages.new.items }
    ensures size { length usages.new.items ≡ room_of tree.now }
{
    for ancestor in tree.ancestors(group) {
        if end == Some(ancestor) {
            return;
        }
        usages[ancestor.number() as usize] -= pages;
    }
}

/// Raises the peaks of the group and of each group above it to their usage.
pub fn raise_peaks(tree: &Tree, accounts: &mut Vec<Account>, usages: &Vec<u32>, group: GroupId)
    requires legal { AreGroups tree.now }
    requires there { IsTrue (has_group tree.now group) }
    requires size { length accounts.old.items ≡ room_of tree.now }
    requires usages { length usages.now.items ≡ room_of tree.now }
    ensures raised { AccountsOnPath tree.now group (with_usage_peak usages.now.items) accounts.old.items accounts.new.items }
    ensures size { length accounts.new.items ≡ room_of tree.now }
{
    for ancestor in tree.ancestors(group) {
        let number = ancestor.number() as usize;
        let usage = usages[number];
        accounts[number].peak = accounts[number].peak.max(usage);
    }
}

/// Counts one more event of this key in the hierarchical counts of the group and of each group above it.
pub fn count_event(tree: &Tree, accounts: &mut Vec<Account>, key: EventKey, group: GroupId)
    requires legal { AreGroups tree.now }
    requires there { IsTrue (has_group tree.now group) }
    requires size { length accounts.old.items ≡ room_of tree.now }
    ensures counted { AccountsOnPath tree.now group (with_event key) accounts.old.items accounts.new.items }
    ensures size { length accounts.new.items ≡ room_of tree.now }
{
    for ancestor in tree.ancestors(group) {
        let at = ancestor.number() as usize;
        accounts[at].events = accounts[at].events.with_one_more(key);
    }
}

/// Counts one more event of this key in the local counts of the group.
pub fn count_local_event(accounts: &mut Vec<Account>, key: EventKey, group: GroupId)
    requires there { group < length accounts.old.items }
    ensures counted { accounts.new.items ≡ with_local_event key group accounts.old.items }
{
    let number = group.number() as usize;
    accounts[number].events_local = accounts[number].events_local.with_one_more(key);
}
