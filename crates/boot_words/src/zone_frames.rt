//! Steps under the lock on the words of frames, each by one access. The seat has the zone's past and that of the lock's
//! holder.
ghost use Rattle.std.specs.Prelude.{◌≡◌, ◌⊎◌, ◌-◌, ◌+◌, ◌%◌, ◌^◌, ◌<◌};
ghost use Rattle.step_rules.specs.declared.step.Action.TheVariants as step;
ghost use Rattle.step_rules.specs.declared.step.Answer.TheVariants.{Done};
ghost use Rattle.boot_words.specs.Pasts.{freeze_said, put_said, IsHeld, IsHolder, MakesStep, MayMake};
ghost use Rattle.boot_words.specs.Seats.{zone_of_boot, MayChange};
ghost use Rattle.boot_words.specs.declared.word.Word.TheVariants.{OfFrame};

use crate::raw::{BootWords, PastSeat, Postcondition};
use crate::word::Word;
use frame_word::{Frame, MARK_BASE, Put};
use std::marker::Brand;

impl BootWords {
    /// Takes a frame of which the zone has `count` references out of use, and says true, if there are no others. If
    /// there are, it says false, and the frame stays in use.
    pub fn freeze(&self, held: &mut PastSeat, frame: Frame, count: u64) -> bool
        requires held { IsHeld self.now held.old }
        requires legal { MayMake self.now held.old 0 (step.Freeze frame count) }
        ensures { MakesStep self.now held.old 0 (step.Freeze frame count) (freeze_said result) held.new }
    {
        self.exchange::<Brand>(held, Word::OfFrame(frame), count, 0) == count
    }

    /// Brings a frame in the zone's hand into use. The zone has all its `count` references.
    pub fn unfreeze(&self, held: &mut PastSeat, frame: Frame, count: u64)
        requires held { IsHeld self.now held.old }
        requires legal { MayMake self.now held.old 0 (step.Unfreeze frame count) }
        ensures { MakesStep self.now held.old 0 (step.Unfreeze frame count) Done held.new }
    {
        self.store::<Brand>(held, Word::OfFrame(frame), count);
    }

    // A put's subtraction. Whose reference it is, is in no word: the seat is there for the proof.
    fn take_one_by<P: Postcondition>(&self, held: &mut PastSeat, _seat: u32, frame: Frame) -> u64
        requires table { held.old.table ≡ self.now.table }
        requires frame { frame < self.now.frames }
        requires may { MayChange (zone_of_boot self.now) held.old.pasts (OfFrame frame)
            (λ n. (n + (2 ^ 64 - 1)) % 2 ^ 64) P.post }
        ensures table { held.new.table ≡ held.old.table }
        ensures post { P.post result held.new.pasts }
    {
        self.take_one::<P>(held, Word::OfFrame(frame))
    }

    /// The zone or the lock's holder drops one of its references.
    pub fn put_held(&self, held: &mut PastSeat, seat: u32, frame: Frame) -> Put
        requires held { IsHeld self.now held.old }
        requires seat { (seat ≡ 0) ⊎ IsHolder held.old seat }
        requires legal { MayMake self.now held.old seat (step.Put frame) }
        ensures { MakesStep self.now held.old seat (step.Put frame) (put_said result) held.new }
    {
        let found = self.take_one_by::<Brand>(held, seat, frame);
        if found == 1 {
            Put::Last
        } else {
            Put::Left(found - 1)
        }
    }

    /// The CPU that holds the lock passes back a frame, in its visit.
    pub fn pass_back(&self, held: &mut PastSeat, cpu: u32, frame: Frame)
        requires held { IsHeld self.now held.old }
        requires holder { IsHolder held.old cpu }
        requires legal { MayMake self.now held.old cpu (step.PassBack frame) }
        ensures { MakesStep self.now held.old cpu (step.PassBack frame) Done held.new }
    {
        let _few = self.cpus(); // At most 64, so a mark fits a word.
        self.store::<Brand>(held, Word::OfFrame(frame), MARK_BASE + u64::from(cpu));
    }

    /// The zone takes in a frame that is in transit from the CPU that holds the lock.
    pub fn collect(&self, held: &mut PastSeat, cpu: u32, frame: Frame)
        requires held { IsHeld self.now held.old }
        requires holder { IsHolder held.old cpu }
        requires legal { MayMake self.now held.old 0 (step.Collect frame cpu) }
        ensures { MakesStep self.now held.old 0 (step.Collect frame cpu) Done held.new }
    {
        self.store::<Brand>(held, Word::OfFrame(frame), 0);
    }

    /// Opens the visit of the CPU that holds the lock.
    pub fn open_visit(&self, held: &mut PastSeat, cpu: u32)
        requires held { IsHeld self.now held.old }
        requires holder { IsHolder held.old cpu }
        requires legal { MayMake self.now held.old 0 (step.OpenVisit cpu) }
        ensures { MakesStep self.now held.old 0 (step.OpenVisit cpu) Done held.new }
    {
        self.store::<Brand>(held, Word::VisitOf(cpu), 1);
    }

    /// Shuts the visit of the CPU that holds the lock.
    pub fn shut_visit(&self, held: &mut PastSeat, cpu: u32)
        requires held { IsHeld self.now held.old }
        requires holder { IsHolder held.old cpu }
        requires legal { MayMake self.now held.old 0 (step.ShutVisit cpu) }
        ensures { MakesStep self.now held.old 0 (step.ShutVisit cpu) Done held.new }
    {
        self.store::<Brand>(held, Word::VisitOf(cpu), 0);
    }
}
