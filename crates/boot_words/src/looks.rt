//! Loads that are no step.
ghost use Rattle.std.specs.Prelude.{◌≡◌, ◌<◌, ◌≤◌, IfSome};
ghost use Rattle.group_tree.specs.Bounds.{most_groups};
ghost use Rattle.stock_word.specs.Stock.{HasWord, group_base};
ghost use Rattle.step_rules.specs.After.{state_of};
ghost use Rattle.step_rules.specs.State.{most_references};
ghost use Rattle.boot_words.specs.Locks.{LeavesFree};
ghost use Rattle.boot_words.specs.Pasts.{local_by_pasts, own_past, IsHeld, IsHolder, IsZonePast};
ghost use Rattle.boot_words.specs.Seats.{zone_of_boot};
ghost use Rattle.boot_words.specs.Words.{stock_in};
ghost use Rattle.boot_words.specs.Looking.{LoadsReferences};

use crate::raw::{BootWords, PastSeat};
use crate::word::Word;
use frame_word::Frame;
use std::marker::Brand;
use stock_word::Stock;

impl BootWords {
    /// The stock of the CPU that holds the lock, by one load of its word. Its book fits a stock word.
    pub fn look(&self, held: &mut PastSeat, cpu: u32) -> Stock
        requires held { IsHeld self.now held.old }
        requires holder { IsHolder held.old cpu }
        ensures stock { result ≡ stock_in ((local_by_pasts self.now held.old).parts cpu) }
        ensures has_word { HasWord result }
        ensures bounded { ((local_by_pasts self.now held.old).parts cpu).book < group_base }
        ensures same { held.new ≡ held.old }
    {
        let found = self.load::<Brand>(held, Word::StockOf(cpu));
        Stock::of_word(found)
    }

    /// The group of the last fill of a CPU's stock, by one load; `None` if it was never filled.
    pub fn group(&self, held: &mut PastSeat, cpu: u32) -> Option<u32>
        requires held { IsHeld self.now held.old }
        requires cpu { (1 ≤ cpu) × (cpu ≤ self.now.cpus) }
        ensures group { result ≡ ((local_by_pasts self.now held.old).parts cpu).stock.group }
        ensures fits { IfSome result (λ g. g < most_groups) }
        ensures same { held.new ≡ held.old }
    {
        Stock::of_word(self.load::<Brand>(held, Word::StockOf(cpu))).group()
    }

    /// The number of references on a frame of which the zone has one, while nobody holds the lock, by one load. It is the
    /// number at that load; CPUs may get and put before and after it.
    pub fn references(&self, zone: &mut PastSeat, frame: Frame) -> u64
        requires zone { IsZonePast self.now zone.old }
        requires free { LeavesFree (zone_of_boot self.now) (own_past zone.old) }
        requires frame { frame < self.now.frames }
        requires reference { 1 ≤ (state_of (zone_of_boot self.now) (own_past zone.old).seen).references 0 frame }
        ensures counted { LoadsReferences (zone_of_boot self.now) (own_past zone.old) frame result }
        ensures some { 1 ≤ result }
        ensures most { result ≤ most_references }
        ensures same { zone.new ≡ zone.old }
    {
        self.load::<Brand>(zone, Word::OfFrame(frame))
    }
}
