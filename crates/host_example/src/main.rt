//! A small host: it charges groups for the blocks that it takes from a zone, and prints what came of it.
#![tactic(auto)]

ghost use Rattle.std.specs.Prelude.{◌≡◌, ◌^◌, IfNone, IfSome, IsTrue};
ghost use Rattle.std.specs.Bool.{OnFalse, OnTrue};
ghost use Rattle.zone_blocks.specs.Zone.{GivesFrames, TakesFrames};
ghost use Rattle.group_tree.specs.{has_group, PathHasRoom};
ghost use Rattle.group_charge.specs.Charges.{current_of, with_charge, with_uncharge};

use anyhow::{Context, Result};
use group_charge::charges::Charges;
use group_tree::group::GroupId;
use zone_blocks::block::Block;
use zone_blocks::buddy::Buddy;
use zone_blocks::order::Order;

fn main(rt: HostRuntime) -> Result<()> {
    let mut charges = Charges::new(rt.alloc(), 8)?;
    let mut zone = Buddy::new(rt.alloc(), 16)?;
    run_demo(&rt, &mut charges, &mut zone)
}

// Takes blocks of the zone for a group of three pages at most, and prints what came of each.
fn run_demo<R: Print>(rt: &R, charges: &mut Charges, zone: &mut Buddy) -> Result<()> {
    let web = charges.make(b"/web".as_slice())?;
    charges.set_max(web, Some(3));
    let pair = Order::of(1).context("an order is at most 10")?;
    let first = take_block(charges, zone, web, pair).context("no room")?;
    let at = first.at;
    println!(rt; "two pages, with a limit of three: the block at frame {at}")?;
    let refused = take_block(charges, zone, web, pair).is_none();
    println!(rt; "two pages more are refused: {refused}")?;
    let given = give_block(charges, zone, web, &first);
    println!(rt; "the block is given back: {given}")?;
    let again = take_block(charges, zone, web, pair).context("no room")?;
    let at = again.at;
    println!(rt; "two pages once more: the block at frame {at}")?;
    Ok(())
}

// Charges the pages of a block to the group and takes the block, if the limits of the group and of each of
// its ancestors have room for all of them. None if one has no room, or if no free block is great enough.
fn take_block(
    charges: &mut Charges,
    zone: &mut Buddy,
    group: GroupId,
    order: Order,
) -> Option<Block>
    requires { IsTrue (has_group charges.old.groups group) }
    ensures room { IfSome result (λ _. PathHasRoom charges.old.groups (current_of charges.old) group (2 ^ order)) }
    ensures charged { IfSome result (λ _. charges.new ≡ with_charge charges.old group (2 ^ order)) }
    ensures frames { IfSome result (λ block. TakesFrames zone.old.free block zone.new.free) }
    ensures none { IfNone result (zone.new ≡ zone.old) }
    ensures groups { charges.new.groups ≡ charges.old.groups }
{
    let pages = order.frames();
    if !charges.fits(pages) {
        return None;
    }
    if let Err(_over) = charges.try_charge(group, pages) {
        return None;
    }
    let block = zone.take(order);
    if block.is_none() {
        charges.uncharge(group, pages);
    }
    block
}

// Frees a block that the group was charged for, and uncharges its pages. False, and nothing changes, if the block isn't
// in use or the group has fewer pages.
fn give_block(charges: &mut Charges, zone: &mut Buddy, group: GroupId, block: &Block) -> bool
    requires { IsTrue (has_group charges.old.groups group) }
    ensures given { OnTrue result (GivesFrames zone.old.free block.now zone.new.free) }
    ensures uncharged { OnTrue result (charges.new ≡ with_uncharge charges.old group (2 ^ block.now.order)) }
    ensures kept { OnFalse result (zone.new ≡ zone.old) }
    ensures groups { charges.new.groups ≡ charges.old.groups }
{
    let pages = block.order.frames();
    if charges.own_pages(group) < pages {
        return false;
    }
    let can_give = zone.is_in_use(*block);
    if can_give {
        zone.give(*block);
        charges.uncharge(group, pages);
    }
    can_give
}
