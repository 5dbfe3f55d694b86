//! The charges of a tree of groups.

ghost use Rattle.std.specs.Prelude.{◌≡◌, ◌≢◌, ℕ, ◌↔◌, ◌+◌, ◌^◌, ◌<◌, ◌≤◌, false, IfErr, IfOk, IsOk, IsTrue};
ghost use Rattle.std.specs.Prelude.{MatchOption, OnErr, OnOk, Some, replicate};
ghost use Rattle.std.specs.Option.{option_copied};
ghost use Rattle.std.specs.Result.{result_err};
ghost use Rattle.group_tree.specs.Bounds.{most_groups};
ghost use Rattle.group_tree.specs.Groups.{IsLeastFreeNumber, has_child, has_group, is_oom_group, limit_of, make_fault};
ghost use Rattle.group_tree.specs.Room.{IsLowestOver, PathHasRoom};
ghost use Rattle.group_charge.specs.Charges.{AreCharges, CountsOnly, PagesRise, PeaksRise, SameEvents, SamePages};
ghost use Rattle.group_charge.specs.Charges.{SamePeaks, UsageRises, account_at, are_protecting, current_of, empty_account};
ghost use Rattle.group_charge.specs.Charges.{events_local_of, events_of, initial_ledger, pages_of, peak_of};
ghost use Rattle.group_charge.specs.Charges.{settings_of, total_pages, with_charge, with_group_limit};
ghost use Rattle.group_charge.specs.Charges.{with_group_removed, with_new_group, with_noted, with_oom_flag};
ghost use Rattle.group_charge.specs.Charges.{with_settings, with_uncharge};

use crate::account::Account;
use crate::settings::{ReclaimSettings, SettingsTable};
use crate::walks;
use group_tree::event::{EventCounts, EventKey};
use group_tree::fault::Fault;
use group_tree::group::GroupId;
use group_tree::tree::Tree;
use std::alloc::{AllocError, Global};
use std::marker::Model;

/// A refused charge: the lowest group whose limit has no room.
#[derive(Clone, Copy, Debug, PartialEq, Eq)]
pub struct Over {
    /// The group itself or one of its ancestors.
    pub group: GroupId,
}

/// A tree of groups with its charges, in pages of 4,096 bytes. The usage of the root is at most 2^32 - 1 pages. Only
/// `new` allocates.
#[derive(Debug, Drop)]
pub struct Charges {
    tree: Tree,
    // By number: the account of each group.
    accounts: Vec<Account>,
    // By number: the pages charged to each group and to all groups below it; 0 if no group has the number.
    usages: Vec<u32>,
    // By number: what is set for each group.
    settings: SettingsTable,
}

impl Model for Charges {
    ghost use Rattle.group_charge.specs.Charges.{Ledger};
    ghost use Rattle.group_charge.specs.Kept.{AreSoundCharges, ledger_of};

    ghost Value = { Ledger };

    ghost view = { λ c. ledger_of c.tree c.accounts.items c.settings };

    ghost invariant = { λ c. AreSoundCharges c.tree c.accounts.items c.usages.items c.settings };
}

impl Charges {
    /// The root alone, with nothing charged, no limit and nothing set, and with room for this many groups below it: at
    /// most [`MAX_GROUPS`](group_tree::group::MAX_GROUPS) - 1.
    pub fn new(alloc: Global, descendants: u32) -> Result<Charges, AllocError>
        requires { descendants < most_groups }
        ensures { IfOk result (λ charges. charges ≡ initial_ledger descendants) }
    {
        let room = descendants as usize + 1;
        let tree = Tree::new(alloc, descendants)?;
        let accounts = empty_accounts(alloc, room)?;
        let usages = no_usages(alloc, room)?;
        let settings = SettingsTable::new(alloc, room)?;
        Ok(Charges {
            tree,
            accounts,
            usages,
            settings,
        })
    }

    /// The tree.
    pub fn tree(&self) -> &Tree
        ensures tree { result.now ≡ self.now.groups }
        ensures legal { AreCharges self.now }
        ensures root { IsTrue (has_group result.now 0) }
        ensures total { current_of self.now 0 ≡ total_pages self.now.accounts }
        ensures fits { current_of self.now 0 < 2 ^ 32 }
    {
        &self.tree
    }

    /// Whether this many more pages can be charged at all, as `try_charge` requires: the root's usage stays at most
    /// 2^32 - 1 pages.
    pub fn fits(&self, pages: u32) -> bool
        ensures { IsTrue result ↔ (current_of self.now 0 + pages < 2 ^ 32) }
    {
        let _tree = self.tree(); // Called for its contract: the root is there.
        self.current(GroupId::root()) <= u32::MAX - pages
    }

    fn account(&self, group: GroupId) -> &Account
        requires { IsTrue (has_group self.now.groups group) }
        ensures { account_at self.now group ≡ Some result.now }
    {
        &self.accounts[group.number() as usize]
    }

    /// Makes a group, as `Tree::make` does. It has no page, peak 0, all counts 0 and nothing set.
    pub fn make(&mut self, path: &[u8]) -> Result<GroupId, Fault>
        ensures made { IfOk result (λ n. self.new ≡ with_new_group self.old n path.now) }
        ensures least { IfOk result (λ n. IsLeastFreeNumber self.old.groups n) }
        ensures refused { result_err result ≡ make_fault self.old.groups path.now }
        ensures unchanged { OnErr result (self.new ≡ self.old) }
        ensures pages { SamePages self.old self.new }
        ensures there { IfOk result (λ n. IsTrue (has_group self.new.groups n)) }
        ensures kept { (m : ℕ) → IsTrue (has_group self.old.groups m) → IsTrue (has_group self.new.groups m) }
    {
        let group = self.tree.make(path)?;
        self.accounts[group.number() as usize] = new_account(group);
        self.settings.set(group, ReclaimSettings::none());
        Ok(group)
    }

    /// Sets the limit of an existing group, in pages; None removes the limit. Only later charges are checked against
    /// it.
    pub fn set_max(&mut self, group: GroupId, limit: Option<u32>)
        requires { IsTrue (has_group self.old.groups group) }
        ensures limited { self.new ≡ with_group_limit self.old group limit }
        ensures there { (m : ℕ) → has_group self.new.groups m ≡ has_group self.old.groups m }
        ensures pages { SamePages self.old self.new }
    {
        self.tree.set_max(group, limit);
    }

    /// Sets whether an existing group other than the root is killed as a whole.
    pub fn set_oom_group(&mut self, group: GroupId, oom_group: bool)
        requires there { IsTrue (has_group self.old.groups group) }
        requires below_root { group ≢ 0 }
        ensures flagged { self.new ≡ with_oom_flag self.old group oom_group }
        ensures there { (m : ℕ) → has_group self.new.groups m ≡ has_group self.old.groups m }
        ensures pages { SamePages self.old self.new }
    {
        self.tree.set_oom_group(group, oom_group);
    }

    /// Sets memory.high, memory.low and memory.min of the group. Only later charges and reclaims read them.
    pub fn set_settings(&mut self, group: GroupId, settings: ReclaimSettings)
        ensures { self.new ≡ with_settings self.old group settings }
    {
        self.settings.set(group, settings);
    }

    /// Removes an existing group that isn't the root, has no group below it and no page charged.
    pub fn remove(&mut self, group: GroupId)
        requires there { IsTrue (has_group self.old.groups group) }
        requires leaf { has_child self.old.groups group ≡ false }
        requires below_root { group ≢ 0 }
        requires empty { current_of self.old group ≡ 0 }
        ensures removed { self.new ≡ with_group_removed self.old group }
        ensures pages { SamePages self.old self.new }
    {
        self.tree.remove(group);
        self.settings.set(group, ReclaimSettings::none());
    }

    /// The usage of an existing group, in pages (memory.current): the pages charged to it and to all groups below it.
    pub fn current(&self, group: GroupId) -> u32
        requires { IsTrue (has_group self.now.groups group) }
        ensures { result ≡ current_of self.now group }
    {
        self.usages[group.number() as usize]
    }

    /// The pages charged to the group itself.
    #[tactic(auto, unfolding(crate::specs::Charges::pages_of))]
    pub fn own_pages(&self, group: GroupId) -> u32
        requires { IsTrue (has_group self.now.groups group) }
        ensures { result ≡ pages_of self.now group }
    {
        self.account(group).pages
    }

    /// The greatest usage since the group was made, in pages (memory.peak).
    #[tactic(auto, unfolding(crate::specs::Charges::peak_of))]
    pub fn peak(&self, group: GroupId) -> u32
        requires { IsTrue (has_group self.now.groups group) }
        ensures { result ≡ peak_of self.now group }
    {
        self.account(group).peak
    }

    /// The limit of the group, in pages (memory.max), or None if it has no limit.
    pub fn max(&self, group: GroupId) -> Option<u32>
        requires { IsTrue (has_group self.now.groups group) }
        ensures { result ≡ limit_of self.now.groups group }
    {
        self.tree.max(group)
    }

    /// Whether the group is killed as a whole (memory.oom.group).
    pub fn is_oom_group(&self, group: GroupId) -> bool
        requires { IsTrue (has_group self.now.groups group) }
        ensures { result ≡ is_oom_group self.now.groups group }
    {
        self.tree.is_oom_group(group)
    }

    /// What is set for the group: memory.high, memory.low and memory.min.
    pub fn settings(&self, group: GroupId) -> ReclaimSettings
        ensures { result ≡ settings_of self.now group }
    {
        self.settings.of(group)
    }

    /// Whether memory.low or memory.min of some group is above 0.
    pub fn is_protecting(&self) -> bool
        ensures { result ≡ are_protecting self.now.settings }
    {
        self.settings.is_protecting()
    }

    /// The events of the group and of all groups below it (memory.events).
    #[tactic(auto, unfolding(crate::specs::Charges::events_of))]
    pub fn events(&self, group: GroupId) -> EventCounts
        requires { IsTrue (has_group self.now.groups group) }
        ensures { result ≡ events_of self.now group }
    {
        self.account(group).events
    }

    /// The events of the group itself (memory.events.local).
    #[tactic(auto, unfolding(crate::specs::Charges::events_local_of))]
    pub fn events_local(&self, group: GroupId) -> EventCounts
        requires { IsTrue (has_group self.now.groups group) }
        ensures { result ≡ events_local_of self.now group }
    {
        let account = self.account(group);
        account.events_local
    }

    /// Charges the pages to the group if the group and each ancestor has room for all of them. Otherwise the error
    /// names the lowest one without room, and nothing changes, not even a peak.
    pub fn try_charge(&mut self, group: GroupId, pages: u32) -> Result<(), Over>
        requires there { IsTrue (has_group self.old.groups group) }
        requires fits { current_of self.old 0 + pages < 2 ^ 32 }
        ensures granted { IsOk result ↔ PathHasRoom self.old.groups (current_of self.old) group pages }
        ensures charged { OnOk result (self.new ≡ with_charge self.old group pages) }
        ensures usage { OnOk result (UsageRises self.old self.new group pages) }
        ensures pages { OnOk result (PagesRise self.old self.new group pages) }
        ensures peaks { OnOk result (PeaksRise self.old self.new group) }
        ensures events { OnOk result (SameEvents self.old self.new) }
        ensures over { IfErr result (λ e. IsLowestOver self.old.groups (current_of self.old) group pages e.group) }
        ensures unchanged { OnErr result (self.new ≡ self.old) }
        ensures groups { self.new.groups ≡ self.old.groups }
    {
        if let Some(over) = walks::add_until_over(&self.tree, &mut self.usages, group, pages) {
            walks::subtract_until(&self.tree, &mut self.usages, group, Some(over), pages);
            return Err(Over { group: over });
        }
        self.accounts[group.number() as usize].pages += pages;
        walks::raise_peaks(&self.tree, &mut self.accounts, &self.usages, group);
        Ok(())
    }

    /// Uncharges pages of the group itself. Its peak stays.
    pub fn uncharge(&mut self, group: GroupId, pages: u32)
        requires there { IsTrue (has_group self.old.groups group) }
        requires charged { pages ≤ pages_of self.old group }
        ensures uncharged { self.new ≡ with_uncharge self.old group pages }
        ensures usage { UsageRises self.new self.old group pages }
        ensures groups { self.new.groups ≡ self.old.groups }
        ensures pages { PagesRise self.new self.old group pages }
        ensures peaks { SamePeaks self.old self.new }
        ensures events { SameEvents self.old self.new }
    {
        self.accounts[group.number() as usize].pages -= pages;
        walks::subtract_until(&self.tree, &mut self.usages, group, None, pages);
    }

    /// Counts one more event of this key for the group itself, and one more for it and each of its ancestors. A count
    /// that reaches 2^64 - 1 stays there.
    pub fn note(&mut self, key: EventKey, group: GroupId)
        requires { IsTrue (has_group self.old.groups group) }
        ensures noted { self.new ≡ with_noted key self.old group }
        ensures only { CountsOnly key self.old self.new group }
    {
        walks::count_event(&self.tree, &mut self.accounts, key, group);
        walks::count_local_event(&mut self.accounts, key, group);
    }
}

// An account for each number: that of the root, until a group with the number is made.
fn empty_accounts(alloc: Global, room: usize) -> Result<Vec<Account>, AllocError>
    ensures { IfOk result (λ accounts. accounts.items ≡ replicate room (empty_account 0)) }
{
    vec![in alloc; new_account(GroupId::root()); room]
}

fn no_usages(alloc: Global, room: usize) -> Result<Vec<u32>, AllocError>
    ensures { IfOk result (λ usages. usages.items ≡ replicate room 0) }
{
    vec![in alloc; 0; room]
}

fn new_account(group: GroupId) -> Account
    ensures { result ≡ empty_account group }
{
    Account {
        group,
        pages: 0,
        peak: 0,
        events: EventCounts::none(),
        events_local: EventCounts::none(),
    }
}
