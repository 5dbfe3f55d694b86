//! The tree of groups.

ghost use Rattle.std.specs.Prelude.{◌≡◌, ◌≢◌, ℕ, ◌↔◌, ◌<◌, ◌==◌, ◌&&◌, false, not, length, IfOk, IsNone, IsTrue, OnErr};
ghost use Rattle.std.specs.Prelude.{Some, ◌≤◌, replicate};
ghost use Rattle.std.specs.Option.{option_copied};
ghost use Rattle.std.specs.Result.{result_err};
ghost use Rattle.group_tree.specs.Ancestors.{depth_at};
ghost use Rattle.group_tree.specs.Bounds.{most_groups};
ghost use Rattle.group_tree.specs.Slots.{free_slot, slot_at};
ghost use Rattle.group_tree.specs.Path.{IsWellFormed};
ghost use Rattle.group_tree.specs.Groups.{AreGroups, IsLeastFreeNumber, flagged, group_at, has_child, has_group};
ghost use Rattle.group_tree.specs.Groups.{in_subtree, initial_groups, is_oom_group, limit_of, limited, make_fault};
ghost use Rattle.group_tree.specs.Groups.{number_at, parent_of, path_of, room_of, the_root, with_group, with_limit};
ghost use Rattle.group_tree.specs.Groups.{with_oom_group, without_group};

use crate::fault::Fault;
use crate::group::{Group, GroupId};
use crate::names;
use crate::path::{MAX_DEPTH, PathText};
use std::alloc::{AllocError, Global};
use std::marker::Model;

/// The groups of a controller. A contract sees them as a list, in the order in which they were made. `new` reserves
/// the room for all groups, so that no later call allocates.
#[derive(Debug, Drop)]
pub struct Tree {
    rows: Vec<Group>,
    // By number: whether a group has it, and what a walk to the root needs of that group.
    slots: Vec<Slot>,
}

// What the tree keeps of a group by its number, beside its row.
#[derive(Clone, Copy, Debug, PartialEq, Eq)]
struct Slot {
    // Whether a group has the number.
    is_there: bool,
    // The group's parent. The root has its own number here.
    parent: GroupId,
    // How many names the path has.
    depth: usize,
    // The same limit as in the row, so that a walk to the root reads one array.
    limit: Option<u32>,
}

impl Model for Tree {
    ghost use Rattle.std.specs.Prelude.{◌≤◌, List, vec_capacity};
    ghost use Rattle.group_tree.specs.Groups.{AreGroups, Group, room_of};
    ghost use Rattle.group_tree.specs.Slots.{AreSlots};

    ghost Value = { List Group };

    ghost view = { λ t. t.rows.items };

    ghost invariant = { λ t. AreGroups t.rows.items × (room_of t.rows.items ≤ vec_capacity t.rows)
        × AreSlots t.rows.items t.slots.items };
}

impl Tree {
    /// The root alone, without a limit, with room for this many groups below it: at most [`MAX_GROUPS`] - 1.
    pub fn new(alloc: Global, descendants: u32) -> Result<Tree, AllocError>
        requires { descendants < most_groups }
        ensures { IfOk result (λ tree. tree ≡ initial_groups descendants) }
    {
        let room = descendants as usize + 1;
        let mut rows = Vec::with_capacity(alloc, room)?;
        rows.push(root_group(descendants)).unwrap();
        let mut slots = free_slots(alloc, room)?;
        slots[0].is_there = true;
        Ok(Tree { rows, slots })
    }

    /// The groups, in the order in which they were made; the root is the first.
    pub fn groups(&self) -> &[Group]
        ensures groups { result.now ≡ self.now }
        ensures legal { AreGroups self.now }
        ensures root { IsTrue (has_group self.now 0) }
    {
        self.rows.as_slice()
    }

    fn row(&self, group: GroupId) -> Option<&Group>
        ensures { option_copied result ≡ group_at self.now group }
    {
        self.rows.iter().find(|row| row.number == group)
    }

    /// Whether a group of this number exists.
    pub fn contains(&self, group: GroupId) -> bool
        ensures { result ≡ has_group self.now group }
    {
        let _rows = &self.rows; // Borrowed for the invariant.
        slot_at(self.slots.as_slice(), group.number()).is_there
    }

    /// The group with this path, or None if no group has it.
    pub fn find(&self, path: &[u8]) -> Option<GroupId>
        ensures { result ≡ number_at self.now path.now }
    {
        for row in &self.rows {
            if row.path.as_bytes() == path {
                return Some(row.number);
            }
        }
        None
    }

    /// The path of an existing group.
    #[tactic(auto, unfolding(crate::specs::Groups::has_group, crate::specs::Groups::path_of))]
    pub fn path_of(&self, group: GroupId) -> &PathText
        requires { IsTrue (has_group self.now group) }
        ensures value { path_of self.now group ≡ Some result.now }
        ensures formed { IsWellFormed result.now }
    {
        let _rows = &self.rows; // Borrowed for the invariant.
        &self.row(group).unwrap().path
    }

    /// The limit of an existing group, in pages, or None if it has no limit.
    #[inline]
    pub fn max(&self, group: GroupId) -> Option<u32>
        requires { IsTrue (has_group self.now group) }
        ensures { result ≡ limit_of self.now group }
    {
        let _rows = &self.rows; // Borrowed for the invariant.
        slot_at(self.slots.as_slice(), group.number()).limit
    }

    /// Whether an existing group is killed as a whole (memory.oom.group); the root never is.
    #[tactic(auto, unfolding(crate::specs::Groups::has_group, crate::specs::Groups::is_oom_group))]
    pub fn is_oom_group(&self, group: GroupId) -> bool
        requires { IsTrue (has_group self.now group) }
        ensures { result ≡ is_oom_group self.now group }
    {
        let _rows = &self.rows; // Borrowed for the invariant.
        self.row(group).unwrap().oom_group
    }

    /// The parent of an existing group; None exactly for the root.
    #[inline]
    pub fn parent(&self, group: GroupId) -> Option<GroupId>
        requires { IsTrue (has_group self.now group) }
        ensures value { result ≡ parent_of self.now group }
        ensures root { IsNone result ↔ (group ≡ 0) }
    {
        if group.number() == 0 {
            return None;
        }
        let _rows = &self.rows; // Borrowed for the invariant.
        Some(slot_at(self.slots.as_slice(), group.number()).parent)
    }

    /// How many names the path of an existing group has: 0 exactly for the root, and at most 8.
    pub fn depth(&self, group: GroupId) -> usize
        requires { IsTrue (has_group self.now group) }
        ensures { result ≡ depth_at self.now group }
    {
        let _rows = &self.rows; // Borrowed for the invariant.
        slot_at(self.slots.as_slice(), group.number()).depth
    }

    /// Whether the second of two existing groups is the first or lies below it.
    pub fn in_subtree(&self, group: GroupId, below: GroupId) -> bool
        requires above { IsTrue (has_group self.now group) }
        requires below { IsTrue (has_group self.now below) }
        ensures { result ≡ in_subtree self.now group below }
    {
        let _groups = self.groups(); // Called for its contract.
        self.ancestors(below).any(|above| above == group)
    }

    // Whether the second group lies below the first and is not the first.
    fn lies_below(&self, group: GroupId, below: GroupId) -> bool
        requires above { IsTrue (has_group self.now group) }
        requires below { IsTrue (has_group self.now below) }
        ensures { result ≡ (not (below == group) && in_subtree self.now group below) }
    {
        below != group && self.in_subtree(group, below)
    }

    /// Whether another group lies below an existing group.
    pub fn has_child(&self, group: GroupId) -> bool
        requires { IsTrue (has_group self.now group) }
        ensures { result ≡ has_child self.now group }
    {
        for row in &self.rows {
            if self.lies_below(group, row.number) {
                return true;
            }
        }
        false
    }

    /// Why a group with this path can't be made: the first cause that holds of BadName, TooDeep, Exists, NoParent and
    /// TreeFull. None if it can be made.
    #[tactic(auto, unfolding(crate::specs::Groups::make_fault))]
    pub fn make_fault(&self, path: &[u8]) -> Option<Fault>
        ensures { result ≡ make_fault self.now path.now }
    {
        if !names::is_well_formed(path) || names::is_root(path) {
            Some(Fault::BadName)
        } else if names::depth(path) > MAX_DEPTH {
            Some(Fault::TooDeep)
        } else if self.find(path).is_some() {
            Some(Fault::Exists)
        } else if self.find(names::parent_path(path)).is_none() {
            Some(Fault::NoParent)
        } else if self.rows.len() >= self.slots.len() {
            Some(Fault::TreeFull)
        } else {
            None
        }
    }

    /// How many groups may exist at once, the root included: 1 to [`MAX_GROUPS`]. Each group's number is below.
    ///
    /// [`MAX_GROUPS`]: crate::group::MAX_GROUPS
    pub fn room(&self) -> u32
        ensures room { result ≡ room_of self.now }
        ensures most { result ≤ most_groups }
    {
        let _groups = self.groups(); // Called for its contract.
        self.slots.len() as u32
    }

    // Takes a number, because a `GroupId` is below `MAX_GROUPS`.
    fn is_taken(&self, number: u32) -> bool
        ensures { result ≡ has_group self.now number }
    {
        let _rows = &self.rows; // Borrowed for the invariant.
        slot_at(self.slots.as_slice(), number).is_there
    }

    fn least_free(&self) -> GroupId
        requires { length self.now < room_of self.now }
        ensures number { IsLeastFreeNumber self.now result }
        ensures below { result < room_of self.now }
    {
        let _groups = self.groups(); // Called for its contract.
        let mut number = 0;
        while self.is_taken(number) {
            number += 1;
        }
        GroupId::of(number).unwrap()
    }

    /// Makes a group with the least free number, no limit and the flag off. If `make_fault` gives a cause, the call
    /// returns that refusal and the tree doesn't change.
    pub fn make(&mut self, path: &[u8]) -> Result<GroupId, Fault>
        ensures made { IfOk result (λ n. self.new ≡ with_group self.old n path.now) }
        ensures least { IfOk result (λ n. IsLeastFreeNumber self.old n) }
        ensures there { IfOk result (λ n. IsTrue (has_group self.new n)) }
        ensures kept { (m : ℕ) → IsTrue (has_group self.old m) → IsTrue (has_group self.new m) }
        ensures refused { result_err result ≡ make_fault self.old path.now }
        ensures unchanged { OnErr result (self.new ≡ self.old) }
    {
        if let Some(fault) = self.make_fault(path) {
            return Err(fault);
        }
        let number = self.least_free();
        let parent = self.find(names::parent_path(path)).unwrap();
        let depth = names::depth(path);
        let path = PathText::of(path).unwrap();
        let row = Group {
            number,
            path,
            limit: None,
            oom_group: false,
            descendants: 0,
        };
        self.rows.push(row).unwrap();
        self.slots[number.number() as usize] = Slot {
            is_there: true,
            parent,
            depth,
            limit: None,
        };
        Ok(number)
    }

    /// Sets the limit of an existing group, in pages; None removes the limit.
    pub fn set_max(&mut self, group: GroupId, limit: Option<u32>)
        requires { IsTrue (has_group self.old group) }
        ensures { self.new ≡ with_limit self.old group limit }
    {
        set_limit(self.rows.as_mut_slice(), group, limit);
        self.slots[group.number() as usize].limit = limit;
    }

    /// Sets whether an existing group other than the root is killed as a whole.
    pub fn set_oom_group(&mut self, group: GroupId, oom_group: bool)
        requires there { IsTrue (has_group self.old group) }
        requires below_root { group ≢ 0 }
        ensures { self.new ≡ with_oom_group self.old group oom_group }
    {
        set_flag(self.rows.as_mut_slice(), group, oom_group);
    }

    /// Removes an existing group that isn't the root and has no group below it. Its number is free afterwards.
    pub fn remove(&mut self, group: GroupId)
        requires there { IsTrue (has_group self.old group) }
        requires leaf { has_child self.old group ≡ false }
        requires below_root { group ≢ 0 }
        ensures { self.new ≡ without_group self.old group }
    {
        let number = group.number();
        self.rows.retain(|row| row.number.number() != number);
        self.slots[number as usize] = free_slot();
    }
}

// The root, as in a new tree.
fn root_group(descendants: u32) -> Group
    ensures { result ≡ the_root descendants }
{
    Group {
        number: GroupId::root(),
        path: PathText::of(b"/").unwrap(),
        limit: None,
        oom_group: false,
        descendants,
    }
}

fn free_slot() -> Slot
    ensures { result ≡ free_slot }
{
    Slot {
        is_there: false,
        parent: GroupId::root(),
        depth: 0,
        limit: None,
    }
}

fn free_slots(alloc: Global, room: usize) -> Result<Vec<Slot>, AllocError>
    ensures { IfOk result (λ slots. slots.items ≡ replicate room free_slot) }
{
    vec![in alloc; free_slot(); room]
}

// What a tree keeps of this number. A number beyond its room is free.
#[inline]
fn slot_at(slots: &[Slot], number: u32) -> Slot
    ensures { result ≡ slot_at slots.now number }
{
    match slots.get(number as usize) {
        Some(slot) => *slot,
        None => free_slot(),
    }
}

fn set_limit(rows: &mut [Group], group: GroupId, limit: Option<u32>)
    ensures { rows.new ≡ with_limit rows.old group limit }
{
    for row in rows.iter_mut() {
        set_limit_of_row(row, group, limit);
    }
}

fn set_limit_of_row(row: &mut Group, group: GroupId, limit: Option<u32>)
    ensures { row.new ≡ limited group limit row.old }
{
    if row.number == group {
        row.limit = limit;
    }
}

fn set_flag(rows: &mut [Group], group: GroupId, oom_group: bool)
    ensures { rows.new ≡ with_oom_group rows.old group oom_group }
{
    for row in rows.iter_mut() {
        set_flag_of_row(row, group, oom_group);
    }
}

fn set_flag_of_row(row: &mut Group, group: GroupId, oom_group: bool)
    ensures { row.new ≡ flagged group oom_group row.old }
{
    if row.number == group {
        row.oom_group = oom_group;
    }
}
