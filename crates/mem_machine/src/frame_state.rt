//! What the machine records of one frame.

ghost use Rattle.std.specs.Prelude.{◌≡◌};
ghost use Rattle.mem_machine.specs.FrameStates.{place_of};

use group_tree::group::GroupId;
use step_rules::phase::ChargedUnit;
use zone_blocks::order::Order;

/// The record of one frame: what the machine uses it for. There is one for each frame, and it takes 6 bytes: two for the
/// group, one each for the variant and the order or the CPU, and two of padding.
#[derive(Clone, Copy)]
pub enum FrameState {
    /// In the zone's free areas.
    Free,
    /// Lent to this CPU, whose number is at most 64: on its list, or fresh there.
    Lent(u8),
    /// The head of a charged unit.
    Head(ChargedUnit),
    /// In a charged unit of this group, and not its head.
    Tail(GroupId),
}

/// Where a frame is, for callers that don't need the head of its unit.
#[derive(Clone, Copy)]
pub enum Place {
    /// In the zone's free areas.
    Free,
    /// Lent to this CPU.
    Lent(u32),
    /// Charged to this group.
    Charged(GroupId),
}

impl FrameState {
    /// Where a frame with this record is.
    pub fn place(&self) -> Place
        ensures { result ≡ place_of self.now }
    {
        match *self {
            FrameState::Free => Place::Free,
            FrameState::Lent(cpu) => Place::Lent(u32::from(cpu)),
            FrameState::Head(unit) => Place::Charged(unit.group),
            FrameState::Tail(group) => Place::Charged(group),
        }
    }
}

/// The order of a single frame.
#[inline(always)]
pub(crate) fn single_order() -> Order
    ensures { result ≡ 0 }
{
    Order::of(0).unwrap()
}
