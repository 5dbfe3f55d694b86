//! Lending a frame to the CPU that holds the lock: two steps of the run that one load makes.
ghost use Rattle.std.specs.Prelude.{◌≡◌};
ghost use Rattle.boot_words.specs.Composed.{lend_run, AreLegal, MakesInTurn};
ghost use Rattle.boot_words.specs.Pasts.{local_by_pasts, IsHeld, IsHolder};
ghost use Rattle.boot_words.specs.Seats.{zone_of_boot, MayChange};
ghost use Rattle.boot_words.specs.declared.word.Word.TheVariants.{AlwaysZero};

use crate::raw::{BootWords, PastSeat, Postcondition};
use crate::word::Word;
use frame_word::Frame;
use std::marker::Brand;

impl BootWords {
    // The load of steps on a frame, which the word doesn't say. Their words end as they began.
    pub(crate) fn load_for<P: Postcondition>(
        &self,
        held: &mut PastSeat,
        _cpu: u32,
        _frame: Frame,
    ) -> u64
        requires table { held.old.table ≡ self.now.table }
        requires may { MayChange (zone_of_boot self.now) held.old.pasts AlwaysZero (λ n. n) P.post }
        ensures table { held.new.table ≡ held.old.table }
        ensures post { P.post result held.new.pasts }
    {
        self.load::<P>(held, Word::AlwaysZero)
    }

    /// Lends a free frame to the CPU that holds the lock: the zone passes it out, and the CPU takes it in. The frame's word
    /// is 0 before the first step and after the last.
    pub fn lend(&self, held: &mut PastSeat, cpu: u32, frame: Frame)
        requires held { IsHeld self.now held.old }
        requires holder { IsHolder held.old cpu }
        requires legal { AreLegal (local_by_pasts self.now held.old) (lend_run cpu frame) }
        ensures { MakesInTurn self.now held.old (lend_run cpu frame) held.new }
    {
        self.load_for::<Brand>(held, cpu, frame);
    }
}
