//! A CPU as callers have it: its part, and its own past of the run.

ghost use Rattle.std.specs.Prelude.{◌≡◌, ◌≢◌, ◌+◌, ◌<◌, ◌≤◌, ◌↔◌, [], length, Ok, IfOk, IfSome, IsTrue, MatchOption};
ghost use Rattle.std.specs.Prelude.{MatchResult};
ghost use Rattle.frame_word.specs.declared.answers.Get.TheVariants.{Zero};
ghost use Rattle.boot_words.specs.{GrewByAll, RacesAt, IsAwayCpu, cpu_at_first, own_past, zone_of_boot};
ghost use Rattle.stock_word.specs.declared.stock.Stock.TheVariants.{NoGroup};
ghost use Rattle.stock_word.specs.Stock.{HasWord};
ghost use Rattle.group_tree.specs.declared.fault.Fault.TheVariants.{PinsFull};
ghost use Rattle.step_rules.specs.State.{times, most_fresh, most_pins};
ghost use Rattle.cpu_part.specs.Cpus.{AreWithin, IsIdle, IsUnlisted, first_cpu, most_listed};
ghost use Rattle.cpu_part.specs.Calls.{DropAnswers, FastAnswers, IfGot, IfRaced, PinAnswers, UnpinAnswers};
ghost use Rattle.cpu_part.specs.Told.{steps_of_drop, steps_of_fast, steps_of_get, steps_of_put};
ghost use Rattle.mem_system.specs.Cpus.{KnowsItself, cpu_in_run, seat_of};

use boot_words::CpuSeat;
use cpu_part::{BootName, CpuLists, Dropped, Fast, Tables};
use frame_word::{Frame, Get, Put};
use group_tree::fault::Fault;
use std::alloc::{AllocError, Global};
use std::marker::Model;
use stock_word::Stock;

/// What a CPU has for itself: its part of the memory controller, and its seat with its own past of the run. By the past it
/// knows its own lists and pins, whatever others did since its last step. `into_seat` consumes it.
pub struct Cpu<N: BootName> {
    // Empty while the CPU holds the lock: the machine has it then. It stands first: the part ends with an unused line, so
    // that what a CPU writes is in no cache line of what is beside it in memory.
    pub(crate) past: CpuSeat,
    pub(crate) part: CpuLists<N>,
}

impl<N: BootName> Model for Cpu<N> {
    ghost use Rattle.cpu_part.specs.Known.{KnowsItsPart};
    ghost use Rattle.mem_system.specs.Cpus.{CpuInRun, cpu_in_run};

    ghost Value = { CpuInRun };

    ghost view = { λ c. cpu_in_run c.part c.past };

    ghost invariant = { λ c. KnowsItsPart N.table c.past c.part };
}

impl<N: BootName> Cpu<N> {
    // The CPU that has this seat and did nothing yet. All room that its calls need is reserved. `AllocError` if memory
    // runs out.
    pub(crate) fn new(alloc: Global, seat: CpuSeat) -> Result<Cpu<N>, AllocError>
        requires seat { seat ≡ cpu_at_first N.table.table seat.number }
        requires away { IsAwayCpu N.table seat }
        ensures { IfOk result (λ c. c ≡ cpu_in_run (first_cpu seat.number) seat) }
    {
        let part = CpuLists::<N>::new(alloc, seat.number())?;
        Ok(Cpu { part, past: seat })
    }

    /// The CPU's seat, once nothing is left: no frame on the lists and no pin.
    pub fn into_seat(self) -> CpuSeat
        requires { IsIdle self.part }
        ensures seat { result ≡ seat_of self }
        ensures knows { KnowsItself N.table self }
    {
        let Cpu { part, past } = self;
        part.end();
        past
    }

    /// Takes the front of the list for the group, and pays for it from the CPU's stock. The answer is the
    /// first of these that holds: 32 fresh frames, an empty list, what the stock says; else the frame.
    pub fn alloc_fast(&mut self, tables: &Tables<N>, group: u32) -> Fast
        ensures answer { FastAnswers group result self.old.last self.old.part self.new.last self.new.part }
        ensures frame { IfGot result (λ f. f < N.table.frames) }
        ensures run { GrewByAll (own_past self.old.past)
            (steps_of_fast self.old.part.number group result self.old.last)
            (own_past self.new.past) }
    {
        self.part.alloc_fast(tables, &mut self.past, group)
    }

    /// Drops a fresh frame: its page goes to the stock, the frame to the end of the list. If the stock was drained,
    /// only what the CPU saw of it changes. A frame that is listed again counts as one drop and one return; the count
    /// stays at 2^64 - 1.
    pub fn drop_fresh(&mut self, tables: &Tables<N>, frame: Frame) -> Dropped
        requires { 1 ≤ times frame self.old.part.fresh }
        ensures answer { DropAnswers frame result self.old.last self.old.part self.new.last self.new.part }
        ensures run { GrewByAll (own_past self.old.past)
            (steps_of_drop self.old.part.number frame result self.old.last)
            (own_past self.new.past) }
    {
        self.part.drop_fresh(tables, &mut self.past, frame)
    }

    /// Pins the frame if some seat has a reference on it. If pins and back frames are 256 together, that is refused
    /// with `PinsFull`, before the word is looked at. A CPU that has a pin on the frame never gets `Zero`.
    pub fn get(&mut self, tables: &Tables<N>, frame: Frame) -> Result<Get, Fault>
        requires { frame < N.table.frames }
        ensures answer { MatchResult result
            (λ answer. (length self.old.part.back + length self.old.part.pins < most_pins)
            × PinAnswers frame answer self.old.part self.new.part
            × IfRaced answer (RacesAt (zone_of_boot N.table) (own_past self.old.past) frame))
            (λ fault. (fault ≡ PinsFull) × (length self.old.part.back + length self.old.part.pins ≡ most_pins)
            × (self.new.part ≡ self.old.part)) }
        ensures never_zero { 1 ≤ times frame self.old.part.pins → result ≢ Ok Zero }
        ensures unlisted { IfOk result (λ answer. answer ≢ Zero → IsUnlisted frame self.old.part) }
        ensures last { self.new.last ≡ self.old.last }
        ensures run { GrewByAll (own_past self.old.past) (steps_of_get self.old.part.number frame result)
            (own_past self.new.past) }
    {
        self.part.get(tables, &mut self.past, frame)
    }

    /// Removes one pin from the frame. After its last reference the frame is the newest back frame.
    pub fn put(&mut self, tables: &Tables<N>, frame: Frame) -> Put
        requires { 1 ≤ times frame self.old.part.pins }
        ensures answer { UnpinAnswers frame result self.old.part self.new.part }
        ensures unlisted { IsUnlisted frame self.old.part }
        ensures last { self.new.last ≡ self.old.last }
        ensures run { GrewByAll (own_past self.old.past) (steps_of_put self.old.part.number frame result)
            (own_past self.new.past) }
    {
        self.part.put(tables, &mut self.past, frame)
    }

    /// The CPU's number, from 1 up.
    pub fn number(&self) -> u32
        ensures number { result ≡ self.now.part.number }
        ensures within { AreWithin (length self.now.part.list) (length self.now.part.fresh)
            (length self.now.part.back) (length self.now.part.pins) }
        ensures in_run { (own_past self.now.past).number ≡ self.now.part.number }
    {
        self.part.number()
    }

    /// Whether the CPU has a pin on the frame.
    pub fn has_pin(&self, frame: Frame) -> bool
        ensures { IsTrue result ↔ (1 ≤ times frame self.now.part.pins) }
    {
        self.part.has_pin(frame)
    }

    /// Whether the frame is one of the fresh frames.
    pub fn has_fresh(&self, frame: Frame) -> bool
        ensures { IsTrue result ↔ (1 ≤ times frame self.now.part.fresh) }
    {
        self.part.has_fresh(frame)
    }

    /// The number of pins, at most 256 with the back frames.
    pub fn pin_count(&self) -> usize
        ensures count { result ≡ length self.now.part.pins }
        ensures bound { result + length self.now.part.back ≤ most_pins }
    {
        self.part.pin_count()
    }

    /// A frame that is pinned, if there is one.
    pub fn first_pin(&self) -> Option<Frame>
        ensures pin { MatchOption result (self.now.part.pins ≡ []) (λ f. 1 ≤ times f self.now.part.pins) }
        ensures frame { IfSome result (λ f. f < N.table.frames) }
    {
        self.part.first_pin()
    }

    /// The number of frames on the list, at most 256 with the fresh frames.
    pub fn list_len(&self) -> usize
        ensures count { result ≡ length self.now.part.list }
        ensures bound { result + length self.now.part.fresh ≤ most_listed }
    {
        self.part.list_len()
    }

    /// The number of fresh frames, at most 32.
    pub fn fresh_len(&self) -> usize
        ensures count { result ≡ length self.now.part.fresh }
        ensures bound { result ≤ most_fresh }
    {
        self.part.fresh_len()
    }

    /// The number of back frames, at most 256 with the pins.
    pub fn back_len(&self) -> usize
        ensures { result ≡ length self.now.part.back }
    {
        self.part.back_len()
    }

    /// The stock that the CPU saw last; its fresh frames are of that stock's group. The stock may have been drained
    /// since.
    pub fn last_stock(&self) -> Stock
        ensures last { result ≡ self.now.last }
        ensures has_word { HasWord result }
        ensures none_fresh { result ≡ NoGroup → self.now.part.fresh ≡ [] }
    {
        self.past.last()
    }

    /// How often a fresh frame was dropped to the list. Each is one drop and one return. The count stays at 2^64 - 1.
    pub fn drops(&self) -> u64
        ensures { result ≡ self.now.part.drops }
    {
        self.part.drops()
    }

    /// Whether nothing is left: no frame on the lists and no pin.
    pub fn is_idle(&self) -> bool
        ensures { IsTrue result ↔ IsIdle self.now.part }
    {
        self.part.is_idle()
    }
}
