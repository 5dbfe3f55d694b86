//! What can be read of a CPU's part.
ghost use Rattle.std.specs.Prelude.{◌≡◌, ◌≤◌, ◌+◌, ◌↔◌, [], length, IsTrue, MatchOption};
ghost use Rattle.step_rules.specs.State.{times, most_fresh, most_pins};
ghost use Rattle.cpu_part.specs.Cpus.{AreWithin, IsIdle, most_listed};

use crate::boot_name::BootName;
use crate::cpu_lists::CpuLists;
use crate::search::place_of;
use frame_word::Frame;

impl<N: BootName> CpuLists<N> {
    /// The CPU's number. Its lists and pins are within their bounds.
    pub fn number(&self) -> u32
        ensures number { result ≡ self.now.number }
        ensures within { AreWithin (length self.now.list) (length self.now.fresh) (length self.now.back)
            (length self.now.pins) }
    {
        self.number
    }

    /// Whether the CPU has a pin on the frame.
    pub fn has_pin(&self, frame: Frame) -> bool
        ensures { IsTrue result ↔ (1 ≤ times frame self.now.pins) }
    {
        place_of(self.pins.as_slice(), frame).is_some()
    }

    /// Whether the frame is one of the fresh frames.
    pub fn has_fresh(&self, frame: Frame) -> bool
        ensures { IsTrue result ↔ (1 ≤ times frame self.now.fresh) }
    {
        place_of(self.fresh.as_slice(), frame).is_some()
    }

    /// The number of pins, at most 256 with the back frames.
    pub fn pin_count(&self) -> usize
        ensures count { result ≡ length self.now.pins }
        ensures bound { result + length self.now.back ≤ most_pins }
    {
        self.pins.len()
    }

    /// A frame that is pinned, if there is one.
    pub fn first_pin(&self) -> Option<Frame>
        ensures { MatchOption result (self.now.pins ≡ []) (λ f. 1 ≤ times f self.now.pins) }
    {
        self.pins.first().copied()
    }

    /// The number of frames on the list, at most 256 with the fresh frames.
    pub fn list_len(&self) -> usize
        ensures count { result ≡ length self.now.list }
        ensures bound { result + length self.now.fresh ≤ most_listed }
    {
        self.list.len()
    }

    /// The number of fresh frames, at most 32.
    pub fn fresh_len(&self) -> usize
        ensures count { result ≡ length self.now.fresh }
        ensures bound { result ≤ most_fresh }
    {
        self.fresh.len()
    }

    /// The number of back frames, at most 256 with the pins.
    pub fn back_len(&self) -> usize
        ensures { result ≡ length self.now.back }
    {
        self.back.len()
    }

    /// How often a fresh frame was dropped to the list. Each is one drop and one return. The count stays at 2^64 - 1.
    pub fn drops(&self) -> u64
        ensures { result ≡ self.now.drops }
    {
        self.drops
    }

    /// Whether nothing is left: no frame on the lists and no pin.
    pub fn is_idle(&self) -> bool
        ensures { IsTrue result ↔ IsIdle self.now }
    {
        self.list.is_empty()
            && self.fresh.is_empty()
            && self.back.is_empty()
            && self.pins.is_empty()
    }
}
