//! The fast path: frames are paid for and dropped without a lock.
ghost use Rattle.std.specs.Prelude.{◌<◌, ◌≤◌};
ghost use Rattle.boot_words.specs.{GrewByAll, own_past};
ghost use Rattle.step_rules.specs.State.{times};
ghost use Rattle.cpu_part.specs.Calls.{FastAnswers, IfGot, DropAnswers};
ghost use Rattle.cpu_part.specs.Known.{KnowsItsPart};
ghost use Rattle.cpu_part.specs.Told.{steps_of_fast, steps_of_drop};

use crate::answers::{Dropped, Fast};
use crate::boot_name::{BootName, Tables};
use crate::cpu_lists::{CpuLists, MAX_FRESH};
use crate::moves::{freshen, relist};
use boot_words::CpuSeat;
use frame_word::Frame;
use stock_word::{Consume, Credit};

impl<N: BootName> CpuLists<N> {
    /// Takes the front of the list for the group, and pays for it from the CPU's stock. The answer is the first of these
    /// that holds: 32 fresh frames, an empty list, what the stock says; else the frame.
    pub fn alloc_fast(&mut self, tables: &Tables<N>, seat: &mut CpuSeat, group: u32) -> Fast
        requires knows { KnowsItsPart N.table seat.old self.old }
        ensures answer { FastAnswers group result seat.old.last self.old seat.new.last self.new }
        ensures frame { IfGot result (λ f. f < N.table.frames) }
        ensures run { GrewByAll (own_past seat.old.past) (steps_of_fast self.old.number group result seat.old.last)
            (own_past seat.new.past) }
        ensures knows { KnowsItsPart N.table seat.new self.new }
    {
        if self.fresh.len() == MAX_FRESH {
            return Fast::FreshFull;
        }
        if self.list.is_empty() {
            return Fast::ListEmpty;
        }
        match tables.words.consume(seat, group) {
            Consume::OtherGroup => Fast::OtherGroup,
            Consume::Drained => Fast::Drained,
            Consume::Empty => Fast::NoStock,
            Consume::Took => Fast::Got(freshen(&mut self.list, &mut self.fresh)),
        }
    }

    /// Drops a fresh frame: its page goes to the stock, the frame to the end of the list. If the stock was drained,
    /// only what the CPU saw of it changes. A frame that is listed again counts as one drop and one return; the count
    /// stays at 2^64 - 1.
    pub fn drop_fresh(&mut self, tables: &Tables<N>, seat: &mut CpuSeat, frame: Frame) -> Dropped
        requires fresh { 1 ≤ times frame self.old.fresh }
        requires knows { KnowsItsPart N.table seat.old self.old }
        ensures answer { DropAnswers frame result seat.old.last self.old seat.new.last self.new }
        ensures run { GrewByAll (own_past seat.old.past) (steps_of_drop self.old.number frame result seat.old.last)
            (own_past seat.new.past) }
        ensures knows { KnowsItsPart N.table seat.new self.new }
    {
        match tables.words.credit(seat, frame) {
            Credit::Drained => Dropped::NeedVisit,
            Credit::Stocked => {
                relist(&mut self.list, &mut self.fresh, frame);
                self.drops = self.drops.saturating_add(1);
                Dropped::Listed
            }
        }
    }
}
