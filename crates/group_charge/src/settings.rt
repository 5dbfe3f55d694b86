//! What is set for each group, beside its limit.

ghost use Rattle.std.specs.Prelude.{◌≡◌, IfOk, replicate, set};
ghost use Rattle.std.specs.List.{slice_index_or};
ghost use Rattle.group_charge.specs.Charges.{are_protecting, is_protecting, no_settings};

use group_tree::group::GroupId;
use std::alloc::{AllocError, Global};
use std::marker::Model;

/// What reclaim does for a group, in pages. None is `max`.
#[derive(Clone, Copy, Debug, PartialEq, Eq)]
pub struct ReclaimSettings {
    /// memory.high: before a charge would exceed it, pages are reclaimed.
    pub high: Option<u32>,
    /// memory.low: reclaim spares this much of the usage while it finds pages elsewhere.
    pub low: Option<u32>,
    /// memory.min: reclaim spares this much of the usage.
    pub min: Option<u32>,
}

impl ReclaimSettings {
    /// The defaults: no memory.high, and nothing is protected.
    pub fn none() -> ReclaimSettings
        ensures { result ≡ no_settings }
    {
        ReclaimSettings {
            high: None,
            low: Some(0),
            min: Some(0),
        }
    }

    // Whether memory.low or memory.min is above 0.
    fn is_protecting(&self) -> bool
        ensures { result ≡ is_protecting self.now }
    {
        self.low != Some(0) || self.min != Some(0)
    }
}

/// What is set for each group, by number.
#[derive(Debug, Drop)]
pub(crate) struct SettingsTable {
    settings: Vec<ReclaimSettings>,
    // Whether some group's settings protect it. Kept so that a tree in which nothing is protected costs nothing.
    is_protecting: bool,
}

impl Model for SettingsTable {
    ghost use Rattle.std.specs.Prelude.{◌≡◌, List};
    ghost use Rattle.group_charge.specs.Charges.{ReclaimSettings, are_protecting};

    ghost Value = { List ReclaimSettings };

    ghost view = { λ t. t.settings.items };

    ghost invariant = { λ t. t.is_protecting ≡ are_protecting t.settings.items };
}

impl SettingsTable {
    /// Nothing is set for any group, with room for this many.
    pub(crate) fn new(alloc: Global, room: usize) -> Result<SettingsTable, AllocError>
        ensures { IfOk result (λ table. table ≡ replicate room no_settings) }
    {
        let settings = default_settings(alloc, room)?;
        Ok(SettingsTable {
            settings,
            is_protecting: false,
        })
    }

    /// What is set for the group.
    pub(crate) fn of(&self, group: GroupId) -> ReclaimSettings
        ensures { result ≡ slice_index_or self.now group no_settings }
    {
        match self.settings.get(group.number() as usize) {
            Some(settings) => *settings,
            None => ReclaimSettings::none(),
        }
    }

    /// Whether memory.low or memory.min of some group is above 0.
    pub(crate) fn is_protecting(&self) -> bool
        ensures { result ≡ are_protecting self.now }
    {
        self.is_protecting
    }

    /// Replaces what is set for the group. A number beyond the room changes nothing.
    pub(crate) fn set(&mut self, group: GroupId, settings: ReclaimSettings)
        ensures { self.new ≡ set self.old group settings }
    {
        let number = group.number() as usize;
        if number >= self.settings.len() {
            return;
        }
        self.settings[number] = settings;
        if self.is_protecting || settings.is_protecting() {
            self.is_protecting = self.settings.iter().any(|of_one| of_one.is_protecting());
        }
    }
}

fn default_settings(alloc: Global, room: usize) -> Result<Vec<ReclaimSettings>, AllocError>
    ensures { IfOk result (λ settings. settings.items ≡ replicate room no_settings) }
{
    vec![in alloc; ReclaimSettings::none(); room]
}
