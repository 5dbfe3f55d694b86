//! Steps under the lock on the words of stocks. The seat has the zone's past and that of the lock's holder.
ghost use Rattle.std.specs.Prelude.{◌≡◌, ◌+◌, ◌-◌, ◌%◌, ◌^◌, ◌≤◌};
ghost use Rattle.stock_word.specs.declared.stock.Stock.TheVariants.{DrainedOf, HeldBy};
ghost use Rattle.stock_word.specs.Stock.{word_of, HasWord};
ghost use Rattle.step_rules.specs.Legal.{IsAnswer};
ghost use Rattle.step_rules.specs.declared.step.Action.TheVariants as step;
ghost use Rattle.step_rules.specs.declared.step.Answer.TheVariants.{Done, Pages, Took};
ghost use Rattle.boot_words.specs.Pasts.{local_by_pasts, IsHeld, IsHolder, MakesStep, MayMake};
ghost use Rattle.boot_words.specs.Seats.{zone_of_boot, MayChange};
ghost use Rattle.boot_words.specs.declared.word.Word.TheVariants.{StockOf};

use crate::raw::{BootWords, PastSeat, Postcondition};
use crate::word::Word;
use std::marker::Brand;
use stock_word::Stock;

impl BootWords {
    // From now on the stock is the group's, with these pages.
    fn fill_with<P: Postcondition>(&self, seat: &mut PastSeat, cpu: u32, group: u32, pages: u32)
        requires table { seat.old.table ≡ self.now.table }
        requires cpu { cpu ≤ self.now.cpus }
        requires may { MayChange (zone_of_boot self.now) seat.old.pasts (StockOf cpu)
            (λ n. word_of (HeldBy group pages)) (λ found. P.post (word_of (HeldBy group pages))) }
        ensures table { seat.new.table ≡ seat.old.table }
        ensures post { P.post (word_of (HeldBy group pages)) seat.new.pasts }
    {
        let held = Stock::HeldBy { group, pages };
        self.store::<P>(seat, Word::StockOf(cpu), held.word());
    }

    /// Fills the stock of the CPU with pages of the group, by one store. Nothing was booked to it.
    pub fn fill(&self, held: &mut PastSeat, cpu: u32, group: u32, pages: u32)
        requires held { IsHeld self.now held.old }
        requires cpu { cpu ≤ self.now.cpus }
        requires fits { HasWord (HeldBy group pages) }
        requires nothing { ((local_by_pasts self.now held.old).parts cpu).book ≡ 0 }
        requires legal { MayMake self.now held.old 0 (step.Fill cpu group pages) }
        ensures { MakesStep self.now held.old 0 (step.Fill cpu group pages) Done held.new }
    {
        self.fill_with::<Brand>(held, cpu, group, pages);
    }

    // From now on the stock is a drained one of this group. The word that was there is returned.
    fn drain_of<P: Postcondition>(&self, held: &mut PastSeat, cpu: u32, group: u32) -> u64
        requires table { held.old.table ≡ self.now.table }
        requires cpu { cpu ≤ self.now.cpus }
        requires may { MayChange (zone_of_boot self.now) held.old.pasts (StockOf cpu) (λ n. word_of (DrainedOf group))
            P.post }
        ensures table { held.new.table ≡ held.old.table }
        ensures post { P.post result held.new.pasts }
    {
        let drained = Stock::DrainedOf { group };
        self.swap::<P>(held, Word::StockOf(cpu), drained.word())
    }

    /// Empties the stock of the CPU, and returns how many pages it had: a load, and one swap if the stock has a group. The
    /// CPU's own calls may go on meanwhile.
    pub fn drain(&self, held: &mut PastSeat, cpu: u32) -> u32
        requires held { IsHeld self.now held.old }
        requires legal { MayMake self.now held.old 0 (step.DrainStock cpu) }
        ensures { MakesStep self.now held.old 0 (step.DrainStock cpu) (Pages result) held.new }
    {
        let looked = self.load::<Brand>(held, Word::StockOf(cpu));
        match Stock::of_word(looked).group() {
            None => 0,
            Some(group) => Stock::of_word(self.drain_of::<Brand>(held, cpu, group)).pages(),
        }
    }

    // Takes a page of this group off the stock word of the CPU, which doesn't say the group.
    fn take_page_of<P: Postcondition>(&self, held: &mut PastSeat, cpu: u32, _group: u32) -> u64
        requires table { held.old.table ≡ self.now.table }
        requires cpu { cpu ≤ self.now.cpus }
        requires may { MayChange (zone_of_boot self.now) held.old.pasts (StockOf cpu) (λ n. (n + (2 ^ 64 - 1)) % 2 ^ 64)
            P.post }
        ensures table { held.new.table ≡ held.old.table }
        ensures post { P.post result held.new.pasts }
    {
        self.take_one::<P>(held, Word::StockOf(cpu))
    }

    /// A consume by the CPU that holds the lock, whose stock pays: it always takes a page, by one subtraction.
    pub fn consume_held(&self, held: &mut PastSeat, cpu: u32, group: u32)
        requires held { IsHeld self.now held.old }
        requires holder { IsHolder held.old cpu }
        requires pays { IsAnswer (local_by_pasts self.now held.old) cpu (step.Consume group) Took }
        requires legal { MayMake self.now held.old cpu (step.Consume group) }
        ensures { MakesStep self.now held.old cpu (step.Consume group) Took held.new }
    {
        self.take_page_of::<Brand>(held, cpu, group);
    }
}
