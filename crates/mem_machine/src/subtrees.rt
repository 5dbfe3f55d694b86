//! The groups of a subtree.

ghost use Rattle.std.specs.Prelude.{◌≡◌, IsTrue};
ghost use Rattle.group_tree.specs.Groups.{has_group, in_subtree};

use crate::proving::prove_groups;
use group_tree::group::GroupId;
use group_tree::tree::Tree;

// Whether `other` is `group` or a descendant of it. The walk up from it ends where it is no deeper than `group`.
#[tactic(auto, using(crate::proofs::Depths::below_itself, crate::proofs::Depths::root_not_below))]
fn is_at_or_below(tree: &Tree, group: GroupId, other: GroupId) -> bool
    requires group { IsTrue (has_group tree.now group) }
    requires other { IsTrue (has_group tree.now other) }
    ensures { result ≡ in_subtree tree.now group other }
{
    prove_groups(tree);
    let depth = tree.depth(group);
    let mut above = other;
    while above.number() != group.number() {
        if tree.depth(above) <= depth {
            return false;
        }
        let Some(parent) = tree.parent(above) else {
            return false;
        };
        above = parent;
    }
    true
}

/// Whether both groups exist, and `other` is `group` or a descendant of it.
pub fn is_in_subtree(tree: &Tree, group: GroupId, other: GroupId) -> bool
    ensures { result ≡ in_subtree tree.now group other }
{
    tree.contains(group) && tree.contains(other) && is_at_or_below(tree, group, other)
}
