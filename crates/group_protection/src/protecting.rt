//! What protects a group from a reclaim.

ghost use Rattle.std.specs.Prelude.{◌≡◌, IsTrue};
ghost use Rattle.group_tree.specs.Groups.{has_group};
ghost use Rattle.group_protection.specs.Protections.{effective, low_key, min_key};

use crate::shares::{claimed, setting, share_of, used};
use group_charge::charges::Charges;
use group_tree::group::GroupId;

/// A file that protects a group.
#[derive(Clone, Copy, Debug, PartialEq, Eq)]
pub enum Key {
    /// memory.min: reclaim doesn't take what it protects, except in a last unit that is larger than what is wanted.
    Min,
    /// memory.low: reclaim takes what it protects only if it finds nothing else.
    Low,
}

/// How much of a group's usage a reclaim spares, in pages.
#[derive(Clone, Copy, Debug, PartialEq, Eq)]
pub struct Protection {
    /// The effective value of memory.min.
    pub min: u32,
    /// The effective value of memory.low.
    pub low: u32,
}

// The effective value of the group, which is `target` or below it.
fn effective(charges: &Charges, key: Key, target: GroupId, group: GroupId) -> u32
    requires { IsTrue (has_group charges.now.groups group) }
    ensures { result ≡ effective key charges.now target group }
{
    if group == target {
        return 0;
    }
    let Some(parent) = charges.tree().parent(group) else {
        return 0;
    };
    if parent == target {
        return setting(charges, key, group);
    }
    share_of(
        effective(charges, key, target, parent),
        claimed(charges, key, parent),
        charges.current(parent),
        used(charges, key, group),
        charges.current(group),
    )
}

/// What protects the group, which is `target` or below it, from a reclaim from the subtree of `target`. If nothing is
/// set in the tree, that is known without a walk.
pub fn protection_of(charges: &Charges, target: GroupId, group: GroupId) -> Protection
    requires { IsTrue (has_group charges.now.groups group) }
    ensures min { result.min ≡ effective min_key charges.now target group }
    ensures low { result.low ≡ effective low_key charges.now target group }
{
    if !charges.is_protecting() {
        return Protection { min: 0, low: 0 };
    }
    Protection {
        min: effective(charges, Key::Min, target, group),
        low: effective(charges, Key::Low, target, group),
    }
}
