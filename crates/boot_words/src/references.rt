//! What a CPU does with references without the lock: `get` loads and may exchange once, `put` subtracts.
ghost use Rattle.std.specs.Prelude.{◌≡◌, false};
ghost use Rattle.step_rules.specs.{state_of, holds_lock};
ghost use Rattle.step_rules.specs.declared.step.Action.TheVariants as step;
ghost use Rattle.boot_words.specs.Pasts.{own_past, put_said, IsCpuPast, MayDo};
ghost use Rattle.boot_words.specs.Seats.{zone_of_boot};
ghost use Rattle.boot_words.specs.declared.past.Past.{Past};
ghost use Rattle.boot_words.specs.Calls.{CpuMakes, GetsReference};
ghost use Rattle.boot_words.specs.Cpus.{IsAwayCpu};

use crate::cpu::CpuSeat;
use crate::raw::{BootWords, PastSeat};
use crate::word::Word;
use frame_word::{Frame, Get, MAX_REFERENCES, Put};
use std::marker::Brand;

impl BootWords {
    /// Takes a reference on the frame if some seat has one: by one load and at most one exchange, from the word that the
    /// load saw. A race is no step of the run. The CPU still knows its stock.
    pub fn get(&self, cpu: &mut CpuSeat, frame: Frame) -> Get
        requires cpu { IsAwayCpu self.now cpu.old }
        requires legal { MayDo self.now cpu.old.past (step.Get frame) }
        ensures run { GetsReference self.now cpu.old.past frame result cpu.new.past }
        ensures cpu { IsAwayCpu self.now cpu.new }
        ensures same { (cpu.new.number ≡ cpu.old.number) × (cpu.new.last ≡ cpu.old.last) }
    {
        self.get_since(&mut cpu.past, frame)
    }

    // The get of a CPU with the past `before`. The load shows the past more of the run; after a race it is `before` again.
    fn get_since(&self, seat: &mut PastSeat, frame: Frame) -> Get
        ghost before: { Past }
        requires past { IsCpuPast self.now seat.old }
        requires before { own_past seat.old ≡ before }
        requires away { holds_lock (own_past seat.old).number
            (state_of (zone_of_boot self.now) (own_past seat.old).seen).hold ≡ false }
        requires legal { MayDo self.now seat.old (step.Get frame) }
        ensures { GetsReference self.now seat.old frame result seat.new }
    {
        let seen = self.load::<Brand>(seat, Word::OfFrame(frame));
        if seen == 0 || seen > MAX_REFERENCES {
            return Get::Zero;
        }
        if seen == MAX_REFERENCES {
            return Get::Full;
        }
        let found = self.exchange::<Brand>(seat, Word::OfFrame(frame), seen, seen + 1);
        if found == seen {
            Get::Held
        } else {
            Get::Raced(found)
        }
    }

    /// Drops a reference of the CPU. After the last one the frame is among its back frames. The CPU still knows its stock.
    pub fn put(&self, cpu: &mut CpuSeat, frame: Frame) -> Put
        requires cpu { IsAwayCpu self.now cpu.old }
        requires legal { MayDo self.now cpu.old.past (step.Put frame) }
        ensures run { CpuMakes self.now cpu.old.past (step.Put frame) (put_said result) cpu.new.past }
        ensures cpu { IsAwayCpu self.now cpu.new }
        ensures same { (cpu.new.number ≡ cpu.old.number) × (cpu.new.last ≡ cpu.old.last) }
    {
        self.put_one(&mut cpu.past, frame)
    }

    fn put_one(&self, seat: &mut PastSeat, frame: Frame) -> Put
        requires past { IsCpuPast self.now seat.old }
        requires legal { MayDo self.now seat.old (step.Put frame) }
        ensures { CpuMakes self.now seat.old (step.Put frame) (put_said result) seat.new }
    {
        let found = self.take_one::<Brand>(seat, Word::OfFrame(frame));
        if found == 1 {
            Put::Last
        } else {
            Put::Left(found - 1)
        }
    }
}
