//! What is kept of one seat. Each change leaves the part that the rules give, and the room of the lists as it was.

ghost use Rattle.std.specs.Prelude.{◌≡◌, ◌+◌, ◌-◌, ◌<◌, ◌≤◌, ◌^◌, IfOk, vec_len, vec_capacity, length, replicate};
ghost use Rattle.std.specs.Prelude.{slice_set};
ghost use Rattle.step_rules.specs.{no_part, without, with_listed, with_unlisted, paid, credited, with_back};
ghost use Rattle.step_rules.specs.{with_report, absorbed, filled, drained};
ghost use Rattle.zone_blocks.specs.Config.{most_frames};
ghost use Rattle.mem_core.specs.Rows.{part_in};
ghost use Rattle.mem_core.specs.Rooms.{SeatHasRoom, KeepsCapacity, KeepsRoom};

use crate::reference_counts::ReferenceCounts;
use group_tree::group::GroupId;
use std::alloc::{AllocError, Global};

/// Fresh frames of a CPU, at most: the rules refuse a consume with as many.
const MAX_FRESH: usize = 32;

/// Back frames of a CPU, at most: each was a pin, of which the rules allow as many.
const MAX_BACK: usize = 256;

/// What is kept of one seat: the zone's own, or a CPU's.
#[derive(Drop)]
pub struct SeatRow {
    /// References, for each frame.
    pub references: ReferenceCounts,
    /// The frames on the CPU's list, the front first.
    pub list: Vec<u32>,
    /// The fresh frames, the oldest first.
    pub fresh: Vec<u32>,
    /// The back frames, the oldest first.
    pub back: Vec<u32>,
    /// The group of the last fill of the stock.
    pub group: Option<GroupId>,
    /// Pages in the stock.
    pub pages: u128,
    /// Whether the stock was drained since its last fill.
    pub is_drained: bool,
    /// Pages filled and neither drained nor absorbed.
    pub book: u128,
    /// Pages of fresh frames that were passed back and not reported.
    pub unreported: u128,
    /// Pages that were reported and not absorbed.
    pub reported: u128,
}

// Removes this frame from the list.
fn remove_frame(frames: &mut Vec<u32>, frame: u32)
    ensures frames { frames.new.items ≡ without frame frames.old.items }
    ensures room { vec_capacity frames.new ≡ vec_capacity frames.old }
{
    frames.retain(|listed| *listed != frame);
}

/// Sets the references of the seat on a frame.
pub(crate) fn set_references(seat: &mut SeatRow, frame: u32, count: u32)
    requires there { frame < length seat.old.references }
    requires few { count ≤ 255 }
    ensures part { part_in seat.new ≡ part_in seat.old }
    ensures references { seat.new.references ≡ slice_set seat.old.references frame count }
    ensures rooms { KeepsCapacity seat.old seat.new }
{
    seat.references.set(frame, count);
}

/// Puts a frame at the end of the list.
pub(crate) fn list_frame(seat: &mut SeatRow, frame: u32)
    requires room { length seat.old.list.items < vec_capacity seat.old.list }
    ensures part { part_in seat.new ≡ with_listed (part_in seat.old) frame }
    ensures kept { KeepsRoom seat.old seat.new }
{
    seat.list.push_reserved(frame);
}

/// Removes a frame from the list, the fresh and the back frames; if it was fresh, one more page is unreported.
pub(crate) fn unlist_frame(seat: &mut SeatRow, frame: u32, was_fresh: bool)
    requires few { seat.old.unreported < 2 ^ 100 }
    ensures part { part_in seat.new ≡ with_unlisted (part_in seat.old) frame was_fresh }
    ensures kept { KeepsRoom seat.old seat.new }
{
    remove_frame(&mut seat.list, frame);
    remove_frame(&mut seat.fresh, frame);
    remove_frame(&mut seat.back, frame);
    if was_fresh {
        seat.unreported += 1;
    }
}

/// Makes the front of the list fresh, paid with one page of the stock.
pub(crate) fn pay_front(seat: &mut SeatRow)
    requires some { 1 ≤ length seat.old.list.items }
    requires page { 1 ≤ seat.old.pages }
    requires room { length seat.old.fresh.items < vec_capacity seat.old.fresh }
    ensures part { part_in seat.new ≡ paid (part_in seat.old) }
    ensures kept { KeepsRoom seat.old seat.new }
{
    let front = seat.list[0];
    remove_frame(&mut seat.list, front);
    seat.fresh.push_reserved(front);
    seat.pages -= 1;
}

/// Moves a fresh frame to the end of the list, and its page into the stock.
pub(crate) fn credit(seat: &mut SeatRow, frame: u32)
    requires room { length seat.old.list.items < vec_capacity seat.old.list }
    requires few { seat.old.pages < 2 ^ 100 }
    ensures part { part_in seat.new ≡ credited (part_in seat.old) frame }
    ensures kept { KeepsRoom seat.old seat.new }
{
    seat.list.push_reserved(frame);
    remove_frame(&mut seat.fresh, frame);
    seat.pages += 1;
}

/// Puts a frame at the end of the back frames.
pub(crate) fn push_back_frame(seat: &mut SeatRow, frame: u32)
    requires room { length seat.old.back.items < vec_capacity seat.old.back }
    ensures part { part_in seat.new ≡ with_back (part_in seat.old) frame }
    ensures kept { KeepsRoom seat.old seat.new }
{
    seat.back.push_reserved(frame);
}

/// Reports this many of the unreported pages.
pub(crate) fn report_pages(seat: &mut SeatRow, pages: u32)
    requires enough { pages ≤ seat.old.unreported }
    requires few { seat.old.reported < 2 ^ 100 }
    ensures part { part_in seat.new ≡ with_report (part_in seat.old) pages }
    ensures kept { KeepsRoom seat.old seat.new }
{
    seat.unreported -= u128::from(pages);
    seat.reported += u128::from(pages);
}

/// Takes the reported pages off the book, and returns how many they are.
pub(crate) fn absorb_pages(seat: &mut SeatRow) -> u128
    requires booked { seat.old.reported ≤ seat.old.book }
    ensures pages { result ≡ seat.old.reported }
    ensures part { part_in seat.new ≡ absorbed (part_in seat.old) seat.old.reported }
    ensures kept { KeepsRoom seat.old seat.new }
{
    let pages = seat.reported;
    seat.book -= pages;
    seat.reported = 0;
    pages
}

/// Fills this many pages into the stock, for this group.
pub(crate) fn fill_stock(seat: &mut SeatRow, group: GroupId, pages: u32)
    requires few { seat.old.book < 2 ^ 100 }
    ensures part { part_in seat.new ≡ filled (part_in seat.old) group pages }
    ensures kept { KeepsRoom seat.old seat.new }
{
    seat.group = Some(group);
    seat.pages = u128::from(pages);
    seat.is_drained = false;
    seat.book += u128::from(pages);
}

/// Drains all pages from the stock, and returns how many they are.
pub(crate) fn drain_stock(seat: &mut SeatRow) -> u128
    requires booked { seat.old.pages ≤ seat.old.book }
    ensures pages { result ≡ seat.old.pages }
    ensures part { part_in seat.new ≡ drained (part_in seat.old) seat.old.pages }
    ensures kept { KeepsRoom seat.old seat.new }
{
    let pages = seat.pages;
    seat.book -= pages;
    seat.pages = 0;
    seat.is_drained = seat.group.is_some();
    pages
}

/// A seat that has nothing, with room on its list for this many frames.
pub(crate) fn new_seat(alloc: Global, frames: u32) -> Result<SeatRow, AllocError>
    requires { frames ≤ most_frames }
    ensures part { IfOk result (λ s. part_in s ≡ no_part) }
    ensures none { IfOk result (λ s. s.references ≡ replicate frames 0) }
    ensures room { IfOk result (SeatHasRoom frames) }
{
    let count = frames as usize;
    let references = ReferenceCounts::new(alloc, frames)?;
    let list = Vec::with_capacity(alloc, count)?;
    let fresh = Vec::with_capacity(alloc, MAX_FRESH)?;
    let back = Vec::with_capacity(alloc, MAX_BACK)?;
    Ok(SeatRow {
        references,
        list,
        fresh,
        back,
        group: None,
        pages: 0,
        is_drained: false,
        book: 0,
        unreported: 0,
        reported: 0,
    })
}
