//! Which groups are killed with a victim (cgroup-v2.rst, memory.oom.group; `mem_cgroup_get_oom_group`, since Linux
//! 4.19).

ghost use Rattle.std.specs.Prelude.{◌≡◌, ◌≢◌, IfSome, IsTrue};
ghost use Rattle.group_tree.specs.Groups.{in_subtree};
ghost use Rattle.mem_reclaim.specs.Sets.{IsFlaggedAbove};

use group_tree::group::GroupId;
use group_tree::tree::Tree;
use mem_machine::prove_groups;

/// What was killed for a limit.
#[derive(Clone, Copy, Debug, PartialEq, Eq)]
pub struct Killed {
    /// The victim.
    pub victim: GroupId,
    /// The group whose whole subtree was killed, the victim included; the victim itself if no flag applies.
    pub killed_root: GroupId,
}

/// The highest group with memory.oom.group on, from the victim up to the group `limited`, both included; None if none
/// of them has it on. It is never the root, which has no flag.
pub(crate) fn highest_flagged(tree: &Tree, limited: GroupId, victim: GroupId) -> Option<GroupId>
    requires { IsTrue (in_subtree tree.now limited victim) }
    ensures highest { IsFlaggedAbove tree.now limited victim result }
    ensures below_root { IfSome result (λ killed_root. killed_root ≢ 0) }
{
    prove_groups(tree);
    let mut killed_root = None;
    for above in tree.ancestors(victim) {
        if tree.is_oom_group(above) {
            killed_root = Some(above);
        }
        if above == limited {
            return killed_root;
        }
    }
    killed_root
}
