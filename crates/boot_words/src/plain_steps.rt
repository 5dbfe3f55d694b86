//! Steps that change no word.
ghost use Rattle.std.specs.Prelude.{◌≡◌};
ghost use Rattle.step_rules.specs.Laws.{IsLocalStep};
ghost use Rattle.boot_words.specs.Pasts.{cpu_past, local_by_pasts, IsHeld, MakesStep};
ghost use Rattle.boot_words.specs.Seats.{zone_of_boot, MayChange};
ghost use Rattle.boot_words.specs.Steps.{IsPlain};
ghost use Rattle.boot_words.specs.declared.word.Word.TheVariants.{AlwaysZero};

use crate::raw::{BootWords, PastSeat, Postcondition};
use crate::word::Word;
use std::marker::Brand;
use step_rules::step::{Action, Answer};

impl BootWords {
    // One load. Which step it stands for is in no word: it is there for the proof.
    #[inline(always)]
    fn plain_as<P: Postcondition>(
        &self,
        held: &mut PastSeat,
        _seat: u32,
        _action: &Action,
        _answer: &Answer,
    ) -> u64
        requires table { held.old.table ≡ self.now.table }
        requires may { MayChange (zone_of_boot self.now) held.old.pasts AlwaysZero (λ n. n) P.post }
        ensures table { held.new.table ≡ held.old.table }
        ensures post { P.post result held.new.pasts }
    {
        self.load::<P>(held, Word::AlwaysZero)
    }

    /// Makes a step that changes no word, which is legal with this answer in the state that the lock's holder sees.
    #[inline(always)]
    pub fn make_plain(&self, held: &mut PastSeat, seat: u32, action: &Action, answer: &Answer)
        requires held { IsHeld self.now held.old }
        requires plain { IsPlain action.now }
        requires step { IsLocalStep (local_by_pasts self.now held.old) (cpu_past held.old).number seat action.now
            answer.now }
        ensures run { MakesStep self.now held.old seat action.now answer.now held.new }
    {
        self.plain_as::<Brand>(held, seat, action, answer);
    }
}
