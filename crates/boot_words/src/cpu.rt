//! The seats of CPUs. Without the lock a CPU changes its stock by one exchange.
ghost use Rattle.std.specs.Prelude.{◌≡◌, ◌+◌, ◌<◌, ◌≤◌, ◌==◌};
ghost use prog.Atomic.{either};
ghost use Rattle.stock_word.specs.declared.stock.Stock.TheVariants.{HeldBy};
ghost use Rattle.stock_word.specs.Stock.{word_of, HasWord};
ghost use Rattle.step_rules.specs.declared.step.Action.TheVariants as step;
ghost use Rattle.boot_words.specs.Pasts.{MayDo};
ghost use Rattle.boot_words.specs.Seats.{zone_of_boot, MayChange};
ghost use Rattle.boot_words.specs.declared.word.Word.TheVariants.{StockOf};
ghost use Rattle.boot_words.specs.Cpus.{ConsumesPage, CreditsPage, IsAwayCpu};

use crate::raw::{BootWords, PastSeat, Postcondition};
use crate::word::Word;
use frame_word::Frame;
use std::marker::{Brand, Model};
use stock_word::{Consume, Credit, Stock};

/// The seat of a CPU: its past, and the stock that it saw last.
#[derive(Drop)]
pub struct CpuSeat {
    pub(crate) past: PastSeat,
    pub(crate) number: u32,
    pub(crate) last: Stock,
}

impl Model for CpuSeat {
    ghost use Rattle.boot_words.specs.Cpus.{KnownCpuSeat};

    ghost Value = { KnownCpuSeat };

    ghost view = { λ c. record { past = c.past; number = c.number; last = c.last } };
}

impl CpuSeat {
    ghost use Rattle.std.specs.Prelude.{◌≡◌};

    /// The CPU's number, from 1 on.
    pub fn number(&self) -> u32
        ensures { result ≡ self.now.number }
    {
        self.number
    }

    /// The stock that the CPU saw last.
    pub fn last(&self) -> Stock
        ensures { result ≡ self.now.last }
    {
        self.last
    }
}

impl BootWords {
    // If the stock is held by `group` with `before` pages, it has `after` then. The word that was there is returned. The
    // frame of a credit is in no word: it is there for the proof.
    fn exchange_stock<P: Postcondition>(
        &self,
        seat: &mut PastSeat,
        cpu: u32,
        group: u32,
        before: u32,
        after: u32,
        _frame: Frame,
    ) -> u64
        requires table { seat.old.table ≡ self.now.table }
        requires cpu { cpu ≤ self.now.cpus }
        requires may { MayChange (zone_of_boot self.now) seat.old.pasts (StockOf cpu)
            (λ x. either (x == word_of (HeldBy group before)) (word_of (HeldBy group after)) x) P.post }
        ensures table { seat.new.table ≡ seat.old.table }
        ensures post { P.post result seat.new.pasts }
    {
        let old = Stock::HeldBy {
            group,
            pages: before,
        };
        let new = Stock::HeldBy {
            group,
            pages: after,
        };
        self.exchange::<P>(seat, Word::StockOf(cpu), old.word(), new.word())
    }

    /// A page for `group` from the CPU's own stock, by one exchange. If the stock that the CPU saw last has none for the
    /// group, the answer takes no access and is no step. While the CPU makes no step, nothing but a drain changes its
    /// stock: so a failed exchange means `Drained`.
    pub fn consume(&self, cpu: &mut CpuSeat, group: u32) -> Consume
        requires cpu { IsAwayCpu self.now cpu.old }
        requires legal { MayDo self.now cpu.old.past (step.Consume group) }
        ensures { ConsumesPage self.now cpu.old group result cpu.new }
    {
        match cpu.last {
            Stock::HeldBy { group: held, pages } if held == group => {
                if pages == 0 {
                    return Consume::Empty;
                }
                let found = self.exchange_stock::<Brand>(
                    &mut cpu.past,
                    cpu.number,
                    held,
                    pages,
                    pages - 1,
                    Frame::new(0), // A consume credits no frame.
                );
                if found == cpu.last.word() {
                    cpu.last = Stock::HeldBy {
                        group: held,
                        pages: pages - 1,
                    };
                    Consume::Took
                } else {
                    cpu.last = Stock::DrainedOf { group: held };
                    Consume::Drained
                }
            }
            Stock::DrainedOf { group: held } if held == group => Consume::Drained,
            _ => Consume::OtherGroup,
        }
    }

    /// The CPU gives a fresh frame up, and its page goes back to the stock, by one exchange. If the CPU saw last that its
    /// stock is drained, there is no access and no step.
    pub fn credit(&self, cpu: &mut CpuSeat, frame: Frame) -> Credit
        requires cpu { IsAwayCpu self.now cpu.old }
        requires legal { MayDo self.now cpu.old.past (step.Credit frame) }
        ensures { CreditsPage self.now cpu.old frame result cpu.new }
    {
        match cpu.last {
            Stock::HeldBy { group, pages } => {
                let found = self.exchange_stock::<Brand>(
                    &mut cpu.past,
                    cpu.number,
                    group,
                    pages,
                    pages + 1,
                    frame,
                );
                if found == cpu.last.word() {
                    cpu.last = Stock::HeldBy {
                        group,
                        pages: pages + 1,
                    };
                    Credit::Stocked
                } else {
                    cpu.last = Stock::DrainedOf { group };
                    Credit::Drained
                }
            }
            Stock::DrainedOf { group: _ } => Credit::Drained,
            // A CPU with a fresh frame saw the group that paid for it.
            Stock::NoGroup => unreachable!(),
        }
    }
}
