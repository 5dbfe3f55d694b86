//! The hand-over of frames between a CPU and the zone, while the CPU holds the lock.
ghost use Rattle.std.specs.Prelude.{◌≡◌, ◌+◌, ◌<◌, ◌≤◌, ℕ, List, [], ◌∷◌, ◌++◌, length, IfSome, MatchOption};
ghost use Rattle.boot_words.specs.Composed.{lend_run, AreLegal, MakesInTurn, take_back_run};
ghost use Rattle.boot_words.specs.Pasts.{local_by_pasts, IsHeld, IsHolder, MakesStep, MayMake};
ghost use Rattle.step_rules.specs.Legal.{IsAnswer};
ghost use Rattle.step_rules.specs.declared.step.Action.TheVariants as step;
ghost use Rattle.step_rules.specs.declared.step.Answer.TheVariants.{Done, Took};
ghost use Rattle.cpu_part.specs.Calls.{PassesFront, PassesFresh, PassesBackUnit, TakesFront};
ghost use Rattle.cpu_part.specs.Cpus.{most_listed};
ghost use Rattle.cpu_part.specs.Known.{HasOwn};

use crate::boot_name::{BootName, Tables};
use crate::cpu_lists::CpuLists;
use crate::moves::freshen;
use boot_words::PastSeat;
use frame_word::Frame;

impl<N: BootName> CpuLists<N> {
    /// Borrows a free frame of the zone, at the end of the list. The zone passes it out and the CPU takes it in: two steps
    /// of the run, which one load makes. The visit is open. Listed and fresh frames are fewer than 256.
    pub fn borrow(&mut self, tables: &Tables<N>, held: &mut PastSeat, frame: Frame)
        requires held { IsHeld N.table held.old }
        requires holder { IsHolder held.old self.old.number }
        requires legal { AreLegal (local_by_pasts N.table held.old) (lend_run self.old.number frame) }
        requires room { length self.old.list + length self.old.fresh < most_listed }
        ensures run { MakesInTurn N.table held.old (lend_run self.old.number frame) held.new }
        ensures cpu { self.new ≡ record self.old { list = self.old.list ++ frame ∷ [] } }
    {
        tables.words.lend(held, self.number, frame);
        self.list.push_back_reserved(frame);
    }

    /// Passes the front of the list back to the zone; `None` exactly if the list is empty. The visit is open.
    pub fn pass_front(&mut self, tables: &Tables<N>, held: &mut PastSeat) -> Option<Frame>
        requires held { IsHeld N.table held.old }
        requires holder { IsHolder held.old self.old.number }
        requires legal { (f : ℕ) (rest : List ℕ) → self.old.list ≡ f ∷ rest
            → MayMake N.table held.old self.old.number (step.PassBack f) }
        ensures answer { MatchOption result ((self.old.list ≡ []) × (self.new ≡ self.old))
            (λ f. PassesFront f self.old self.new) }
        ensures run { MatchOption result (held.new ≡ held.old)
            (λ f. MakesStep N.table held.old self.old.number (step.PassBack f) Done held.new) }
        ensures frame { IfSome result (λ f. f < N.table.frames) }
    {
        let frame = self.list.pop_front()?;
        tables.words.pass_back(held, self.number, frame);
        Some(frame)
    }

    /// Gives the oldest fresh frame back to the zone, with its page; `None` exactly if there is none. The zone has the
    /// frame then, and the page is no longer booked to the CPU's stock: four steps of the run, which one load makes. The
    /// visit is open, and no reported page is unabsorbed.
    pub fn give_back_fresh(&mut self, tables: &Tables<N>, held: &mut PastSeat) -> Option<Frame>
        requires held { IsHeld N.table held.old }
        requires holder { IsHolder held.old self.old.number }
        requires legal { (f : ℕ) (rest : List ℕ) → self.old.fresh ≡ f ∷ rest
            → AreLegal (local_by_pasts N.table held.old) (take_back_run self.old.number f) }
        requires absorbed { ((local_by_pasts N.table held.old).parts self.old.number).reported ≡ 0 }
        ensures answer { MatchOption result ((self.old.fresh ≡ []) × (self.new ≡ self.old))
            (λ f. PassesFresh f self.old self.new) }
        ensures run { MatchOption result (held.new ≡ held.old)
            (λ f. MakesInTurn N.table held.old (take_back_run self.old.number f) held.new) }
        ensures frame { IfSome result (λ f. f < N.table.frames) }
    {
        if self.fresh.is_empty() {
            return None;
        }
        let frame = self.fresh.remove(0);
        tables.words.take_back(held, self.number, frame);
        Some(frame)
    }

    /// Passes the oldest back frame back to the zone; `None` exactly if there is none. The visit is open.
    pub fn pass_back_unit(&mut self, tables: &Tables<N>, held: &mut PastSeat) -> Option<Frame>
        requires held { IsHeld N.table held.old }
        requires holder { IsHolder held.old self.old.number }
        requires legal { (f : ℕ) (rest : List ℕ) → self.old.back ≡ f ∷ rest
            → MayMake N.table held.old self.old.number (step.PassBack f) }
        ensures answer { MatchOption result ((self.old.back ≡ []) × (self.new ≡ self.old))
            (λ f. PassesBackUnit f self.old self.new) }
        ensures run { MatchOption result (held.new ≡ held.old)
            (λ f. MakesStep N.table held.old self.old.number (step.PassBack f) Done held.new) }
        ensures frame { IfSome result (λ f. f < N.table.frames) }
    {
        let frame = self.back.pop_front()?;
        tables.words.pass_back(held, self.number, frame);
        Some(frame)
    }

    /// Takes the front of the list for the group and pays for it, always: the CPU's stock, of that group, has a page.
    pub fn take_front(&mut self, tables: &Tables<N>, held: &mut PastSeat, group: u32) -> Frame
        requires held { IsHeld N.table held.old }
        requires holder { IsHolder held.old self.old.number }
        requires own { HasOwn (local_by_pasts N.table held.old) self.old }
        requires legal { MayMake N.table held.old self.old.number (step.Consume group) }
        requires pays { IsAnswer (local_by_pasts N.table held.old) self.old.number (step.Consume group) Took }
        ensures run { MakesStep N.table held.old self.old.number (step.Consume group) Took held.new }
        ensures cpu { TakesFront result self.old self.new }
        ensures frame { result < N.table.frames }
    {
        tables.words.consume_held(held, self.number, group);
        freshen(&mut self.list, &mut self.fresh)
    }
}
