//! The walk from a group up to the root.

ghost use Rattle.std.specs.Prelude.{◌≡◌, IsTrue};
ghost use Rattle.std.specs.Iterator.{YieldsFirst, item_count};
ghost use Rattle.group_tree.specs.Groups.{has_group};
ghost use Rattle.group_tree.specs.Ancestors.{IsPathUp, ancestors_of};

use crate::group::GroupId;
use crate::tree::Tree;
use std::marker::Model;

/// A walk up the tree. A contract sees it as the list of the groups still to visit.
#[derive(Drop)]
pub struct Ancestors<'a> {
    tree: &'a Tree,
    next: Option<GroupId>,
}

impl<'a> Model for Ancestors<'a> {
    ghost use Rattle.std.specs.Prelude.{ℕ, List};
    ghost use Rattle.group_tree.specs.Ancestors.{IsWalk, ancestors_from};

    ghost Value = { List ℕ };

    ghost view = { λ a. ancestors_from a.tree.now a.next };

    ghost invariant = { λ a. IsWalk a.tree.now a.next };
}

impl<'a> Iterator for Ancestors<'a> {
    type Item = GroupId;

    ghost next_gives = { YieldsFirst (λ rest. rest) };

    ghost remaining = { item_count (λ rest. rest) };

    #[inline]
    fn next(&mut self) -> Option<GroupId> {
        let group = self.next?;
        self.next = self.tree.parent(group);
        Some(group)
    }
}

impl Tree {
    /// The walk from an existing group up to the root: the group first, then each parent, the root last. It yields
    /// one group more than the group's path has names. It allocates nothing.
    #[inline]
    pub fn ancestors(&self, group: GroupId) -> Ancestors<'_>
        requires { IsTrue (has_group self.now group) }
        ensures value { result ≡ ancestors_of self.now group }
        ensures path { IsPathUp self.now group result }
    {
        let _groups = self.groups(); // Called for its contract.
        Ancestors {
            tree: self,
            next: Some(group),
        }
    }
}
