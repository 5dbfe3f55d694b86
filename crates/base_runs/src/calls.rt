//! How the tests compare, and a charge that is made after a test of its conditions.

ghost use Rattle.std.specs.Prelude.{IsTrue};
ghost use Rattle.group_tree.specs.Groups.{has_group};

use group_charge::charges::{Charges, Over};
use group_tree::event::EventKey;
use group_tree::group::GroupId;
use group_tree::tree::Tree;
use std::process::Abort;

/// The condition holds, or the test fails. A call is cheaper to prove than the macro in its place.
pub fn expect_true(rt: &impl Abort, condition: bool) {
    assert!(rt; condition);
}

/// The group exists, or the test fails.
pub fn expect_group(rt: &impl Abort, tree: &Tree, group: GroupId)
    ensures { IsTrue (has_group tree.now group) }
{
    assert!(rt; tree.contains(group));
}

/// Charges the pages to the group, with this answer. A refusal is noted at the group whose limit is exceeded.
pub fn charge_pages(
    rt: &impl Abort,
    charges: &mut Charges,
    group: GroupId,
    pages: u32,
    answer: Result<(), Over>,
) {
    expect_group(rt, charges.tree(), group);
    assert!(rt; charges.fits(pages));
    expect_true(rt, charges.try_charge(group, pages) == answer);
    if let Err(over) = answer {
        expect_group(rt, charges.tree(), over.group);
        charges.note(EventKey::Max, over.group);
    }
}
