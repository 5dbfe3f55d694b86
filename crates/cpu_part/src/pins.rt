//! Pins: the references of the CPU.
ghost use Rattle.std.specs.Prelude.{◌≡◌, ◌≢◌, ◌+◌, ◌<◌, ◌≤◌, length, IfOk, MatchResult, Ok};
ghost use Rattle.frame_word.specs.declared.answers.Get.TheVariants.{Zero};
ghost use Rattle.group_tree.specs.declared.fault.Fault.TheVariants.{PinsFull};
ghost use Rattle.boot_words.specs.{GrewByAll, own_past, zone_of_boot, RacesAt};
ghost use Rattle.step_rules.specs.State.{times, most_pins};
ghost use Rattle.cpu_part.specs.Cpus.{IsUnlisted};
ghost use Rattle.cpu_part.specs.Calls.{IfRaced, PinAnswers, UnpinAnswers};
ghost use Rattle.cpu_part.specs.Known.{KnowsItsPart};
ghost use Rattle.cpu_part.specs.Told.{steps_of_get, steps_of_put};

use crate::boot_name::{BootName, Tables};
use crate::cpu_lists::{CpuLists, MAX_PINS};
use crate::moves::unpin;
use boot_words::CpuSeat;
use frame_word::{Frame, Get, Put};
use group_tree::fault::Fault;

impl<N: BootName> CpuLists<N> {
    /// Pins the frame if some seat has a reference on it. If pins and back frames are 256 together, that is refused
    /// with `PinsFull`, before the word is looked at. A CPU that has a pin on the frame never gets `Zero`.
    pub fn get(
        &mut self,
        tables: &Tables<N>,
        seat: &mut CpuSeat,
        frame: Frame,
    ) -> Result<Get, Fault>
        requires frame { frame < N.table.frames }
        requires knows { KnowsItsPart N.table seat.old self.old }
        ensures answer { MatchResult result
            (λ answer. (length self.old.back + length self.old.pins < most_pins)
            × PinAnswers frame answer self.old self.new
            × IfRaced answer (RacesAt (zone_of_boot N.table) (own_past seat.old.past) frame))
            (λ fault. (fault ≡ PinsFull) × (length self.old.back + length self.old.pins ≡ most_pins)
            × (self.new ≡ self.old)) }
        ensures never_zero { 1 ≤ times frame self.old.pins → result ≢ Ok Zero }
        ensures unlisted { IfOk result (λ answer. answer ≢ Zero → IsUnlisted frame self.old) }
        ensures run { GrewByAll (own_past seat.old.past) (steps_of_get self.old.number frame result)
            (own_past seat.new.past) }
        ensures last { seat.new.last ≡ seat.old.last }
        ensures knows { KnowsItsPart N.table seat.new self.new }
    {
        if self.back.len() + self.pins.len() == MAX_PINS {
            return Err(Fault::PinsFull);
        }
        match tables.words.get(seat, frame) {
            Get::Held => {
                self.pins.push_reserved(frame);
                Ok(Get::Held)
            }
            other => Ok(other),
        }
    }

    /// Removes one pin from the frame. After its last reference the frame is the newest back frame.
    pub fn put(&mut self, tables: &Tables<N>, seat: &mut CpuSeat, frame: Frame) -> Put
        requires pinned { 1 ≤ times frame self.old.pins }
        requires knows { KnowsItsPart N.table seat.old self.old }
        ensures answer { UnpinAnswers frame result self.old self.new }
        ensures unlisted { IsUnlisted frame self.old }
        ensures run { GrewByAll (own_past seat.old.past) (steps_of_put self.old.number frame result)
            (own_past seat.new.past) }
        ensures last { seat.new.last ≡ seat.old.last }
        ensures knows { KnowsItsPart N.table seat.new self.new }
    {
        unpin(&mut self.pins, frame);
        match tables.words.put(seat, frame) {
            Put::Last => {
                self.back.push_back_reserved(frame);
                Put::Last
            }
            Put::Left(left) => Put::Left(left),
        }
    }
}
