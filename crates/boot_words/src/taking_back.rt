//! Taking a fresh frame and its page back: four steps of the run that one load makes.
ghost use Rattle.std.specs.Prelude.{◌≡◌};
ghost use Rattle.boot_words.specs.Composed.{AreLegal, MakesInTurn, take_back_run};
ghost use Rattle.boot_words.specs.Pasts.{local_by_pasts, IsHeld, IsHolder};

use crate::raw::{BootWords, PastSeat};
use frame_word::Frame;
use std::marker::Brand;

impl BootWords {
    /// Takes a fresh frame and its page back from the CPU that holds the lock: the CPU passes back the frame and reports
    /// the page, and the zone collects the one and absorbs the other. The frame's word and the report word are 0 before the
    /// first step and after the last.
    pub fn take_back(&self, held: &mut PastSeat, cpu: u32, frame: Frame)
        requires held { IsHeld self.now held.old }
        requires holder { IsHolder held.old cpu }
        requires absorbed { ((local_by_pasts self.now held.old).parts cpu).reported ≡ 0 }
        requires legal { AreLegal (local_by_pasts self.now held.old) (take_back_run cpu frame) }
        ensures { MakesInTurn self.now held.old (take_back_run cpu frame) held.new }
    {
        self.load_for::<Brand>(held, cpu, frame);
    }
}
