//! The group that a host names by its number.

ghost use Rattle.std.specs.Prelude.{◌≡◌, IfNone, IfSome, IsTrue};
ghost use Rattle.group_tree.specs.Groups.{has_group};
ghost use Rattle.host_memory.specs.Groups.{IsMissingIn};

use group_charge::charges::Charges;
use group_tree::group::GroupId;

/// The group of this number; `None` if there is none.
#[inline(always)]
pub fn find_group(charges: &Charges, number: u32) -> Option<GroupId>
    ensures found { IfSome result (λ group. (group ≡ number) × IsTrue (has_group charges.now.groups group)) }
    ensures none { IfNone result (IsMissingIn charges.now.groups number) }
{
    let tree = charges.tree();
    let Some(group) = GroupId::of(number) else {
        return None;
    };
    if !tree.contains(group) {
        return None;
    }
    Some(group)
}
