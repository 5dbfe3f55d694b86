//! The lists of all groups: how units join and leave them.

ghost use Rattle.std.specs.Prelude.{◌≡◌, ◌≢◌, ◌<◌, ◌≤◌, ◌*◌, ◌^◌, None, IfSome, false, length, slice_index_or};
ghost use Rattle.lru_lists.specs.Lists.{AllLinked};
ghost use Rattle.lru_lists.specs.Queue.{SameUse, link_at};
ghost use Rattle.mem_machine.specs.Clean.{clean_dirtied, clean_joined, clean_left};
ghost use Rattle.mem_machine.specs.Lists.{JoinsList, LeavesList};
ghost use Rattle.mem_machine.specs.Machines.{home_of, group_lists};

use group_tree::group::GroupId;
use lru_lists::laws as list_laws;
use lru_lists::links::Links;
use lru_lists::lru::Lru;
use zone_blocks::order::Order;

/// Adds a unit to the newest end of its group's inactive list, and its pages to the group's clean ones. `head` is the
/// unit's head, which is on no list.
pub(crate) fn join_list(
    links: &mut Links,
    lists: &mut Vec<Lru>,
    clean: &mut Vec<u64>,
    group: GroupId,
    order: Order,
    head: u32,
)
    requires frame { head < length links.old }
    requires away { home_of links.old head ≡ None }
    requires list { group < length lists.old.items }
    requires count { group < length clean.old.items }
    requires few { slice_index_or clean.old.items group 0 ≤ length links.old * 1024 }
    requires lists { AllLinked links.old lists.old.items }
    ensures joins { JoinsList group head
        (group_lists links.old lists.old.items) (group_lists links.new lists.new.items) }
    ensures lists { AllLinked links.new lists.new.items }
    ensures groups { length lists.new.items ≡ length lists.old.items }
    ensures frames { length links.new ≡ length links.old }
    ensures used { SameUse links.old links.new head }
    ensures dirt { (link_at links.new head).is_dirty ≡ false }
    ensures clean { clean.new.items ≡ clean_joined group order clean.old.items }
{
    let owner = group.number() as usize;
    list_laws::others_stay_linked();
    list_laws::one_of_all_changes();
    let mut own = lists[owner];
    own.add(links, head);
    lists[owner] = own;
    let _frames = links.frames(); // Fewer than 2^32, so that the count doesn't overflow.
    clean[owner] += u64::from(order.frames());
}

// Takes the pages of a unit from its group's clean ones, unless the unit is dirty and so isn't among them.
fn uncount(clean: &mut Vec<u64>, is_dirty: bool, group: GroupId, order: Order)
    requires { is_dirty ≡ false → 2 ^ order ≤ slice_index_or clean.old.items group 0 }
    ensures { clean.new.items ≡ clean_left is_dirty group order clean.old.items }
{
    if is_dirty {
        return;
    }
    clean[group.number() as usize] -= u64::from(order.frames());
}

/// Removes a kept unit from its list and, if it is clean, its pages from the group's clean ones. `head` is the unit's
/// head.
pub(crate) fn leave_list(
    links: &mut Links,
    lists: &mut Vec<Lru>,
    clean: &mut Vec<u64>,
    group: GroupId,
    order: Order,
    head: u32,
)
    requires frame { head < length links.old }
    requires kept { home_of links.old head ≢ None }
    requires owner { IfSome (home_of links.old head) (λ home. home.owner < length lists.old.items) }
    requires counted { (link_at links.old head).is_dirty ≡ false → 2 ^ order ≤ slice_index_or clean.old.items group 0 }
    requires lists { AllLinked links.old lists.old.items }
    ensures leaves { LeavesList head (group_lists links.old lists.old.items) (group_lists links.new lists.new.items) }
    ensures lists { AllLinked links.new lists.new.items }
    ensures groups { length lists.new.items ≡ length lists.old.items }
    ensures frames { length links.new ≡ length links.old }
    ensures clean { clean.new.items ≡ clean_left (link_at links.old head).is_dirty group order clean.old.items }
{
    let Some(home) = links.home(head) else {
        unreachable!()
    };
    list_laws::others_stay_linked();
    list_laws::one_of_all_changes();
    uncount(clean, links.is_dirty(head), group, order);
    let mut own = lists[home.owner as usize];
    own.unlink_and_clear(links, head);
    lists[home.owner as usize] = own;
}

/// Takes the pages of a unit from its group's clean ones if it becomes dirty, and adds them if it becomes clean.
pub(crate) fn count_dirt(
    clean: &mut Vec<u64>,
    group: GroupId,
    order: Order,
    was_dirty: bool,
    is_dirty: bool,
)
    requires count { group < length clean.old.items }
    requires few { slice_index_or clean.old.items group 0 ≤ 2 ^ 42 }
    requires counted { was_dirty ≡ false → 2 ^ order ≤ slice_index_or clean.old.items group 0 }
    ensures { clean.new.items ≡ clean_dirtied was_dirty is_dirty group order clean.old.items }
{
    let owner = group.number() as usize;
    let pages = u64::from(order.frames());
    match (was_dirty, is_dirty) {
        (false, true) => clean[owner] -= pages,
        (true, false) => clean[owner] += pages,
        _ => {}
    }
}
