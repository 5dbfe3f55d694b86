//! What a group gets of its parent's protection.

ghost use Rattle.std.specs.Prelude.{◌≡◌, IsTrue};
ghost use Rattle.group_tree.specs.Groups.{has_group};
ghost use Rattle.group_protection.specs.Protections.{claim_on, claimed, setting, share_of, used};

use crate::protecting::Key;
use group_charge::charges::Charges;
use group_tree::group::GroupId;

/// What is set for the group, in pages. No usage is above `max`.
pub(crate) fn setting(charges: &Charges, key: Key, group: GroupId) -> u32
    ensures { result ≡ setting key charges.now group }
{
    let settings = charges.settings(group);
    match key {
        Key::Min => settings.min.unwrap_or(u32::MAX),
        Key::Low => settings.low.unwrap_or(u32::MAX),
    }
}

/// How much of what is set for the group it uses.
pub(crate) fn used(charges: &Charges, key: Key, group: GroupId) -> u32
    requires { IsTrue (has_group charges.now.groups group) }
    ensures { result ≡ used key charges.now group }
{
    charges.current(group).min(setting(charges, key, group))
}

// What the group claims of the protection of `parent`: what it uses, if it is a child of it.
fn claim_on(charges: &Charges, key: Key, parent: GroupId, group: GroupId) -> u32
    requires { IsTrue (has_group charges.now.groups group) }
    ensures { result ≡ claim_on key charges.now parent group }
{
    if charges.tree().parent(group) == Some(parent) {
        used(charges, key, group)
    } else {
        0
    }
}

/// What all children of the group claim together.
pub(crate) fn claimed(charges: &Charges, key: Key, parent: GroupId) -> u64
    ensures { result ≡ claimed key charges.now parent }
{
    let mut sum = 0;
    for row in charges.tree().groups() {
        sum += u64::from(claim_on(charges, key, parent, row.number));
    }
    sum
}

/// What a child gets of `protection`, that of its parent. All children claim `claimed` pages together, and the child
/// `own_use`.
pub(crate) fn share_of(
    protection: u32,
    claimed: u64,
    usage: u32,
    own_use: u32,
    own_usage: u32,
) -> u32
    ensures { result ≡ share_of protection claimed usage own_use own_usage }
{
    let all = u64::from(protection);
    let own = u64::from(own_use);
    if claimed > all {
        return (own * all / claimed).min(all) as u32;
    }
    if u64::from(usage) <= claimed || own_usage <= own_use {
        return own.min(all) as u32;
    }
    let rest = u64::from(own_usage - own_use);
    (own + (all - claimed) * rest / (u64::from(usage) - claimed)).min(all) as u32
}
