//! The atomic table, its words and the pasts of its seats. Each access to a word is here. A caller names by
//! `Postcondition` a fact that it wants to know afterwards, and proves by `MayChange` that the rule lets the access
//! bring it about.
ghost use Rattle.std.specs.Prelude.{◌≡◌, ◌≤◌, ◌+◌, ◌-◌, ◌%◌, ◌^◌, ◌<◌, ◌==◌, ◌++◌, [], IfOk, MatchOption};
ghost use Rattle.std.specs.Mem.Slots.{slots_items, slots_len};
ghost use prog.Atomic.{either};
ghost use Rattle.boot_words.specs.Rule.{run_rule};
ghost use Rattle.boot_words.specs.Seats.{zone_of_boot};
ghost use Rattle.boot_words.specs.Seats.{all_pasts, first_alone, word_place, rest_of, IsInTable, MayChange};
ghost use Rattle.boot_words.specs.Closed.{IsEndOfRun};

use crate::past::Past;
use crate::word::Word;
use atomic_table::{Closed, Join, Play, Seat, Split, Table, TableRule};
use frame_word::Frame;
use std::alloc::{AllocError, Global};
use std::collections::LinkedList;
use std::marker::{Brand, Model, PhantomData};
use std::mem;
use zone_blocks::choices::Choices;

/// The pasts of a seat: its own, or none while that is with the zone's seat.
pub(crate) type Pasts = LinkedList<Past>;

/// The sizes of the zone, for the table's whole life.
#[derive(Clone, Copy)]
pub struct TableKey {
    pub frames: u32,
    pub cpus: u32,
    pub groups: u32,
}

/// What holds of the table before and after each access.
pub struct OneRun;

impl TableRule<(), Pasts, TableKey> for OneRun {
    ghost holds = { λ key. run_rule (record { frames = key.frames; cpus = key.cpus; groups = key.groups }) };

    ghost first = { λ key. all_pasts key.cpus };
}

/// What holds after an access, of the word that it found and the pasts that the seat has then.
pub trait Postcondition {
    ghost use Rattle.std.specs.Prelude.{ℕ, List};
    ghost use Rattle.boot_words.specs.declared.past.Past.{Past};

    ghost post: { ℕ → List Past → Type 0 };
}

// A caller passes `Brand`, and its proof names the fact that this stands for.
impl Postcondition for Brand {
    ghost post = { λ found pasts. Unit {0} };
}

pub(crate) struct Ensures<P: Postcondition> {
    of: PhantomData<P>,
}

impl<P: Postcondition> Play<(), Pasts> for Ensures<P> {
    ghost then = { λ step before found later. (later.1 ≡ []) × P.post found later.0 };
}

// Parts the first past from the rest.
struct Others;

impl Split<Pasts> for Others {
    ghost left = { first_alone };

    ghost right = { rest_of };
}

// Parts nothing off: the new seat is empty.
struct Nothing;

impl Split<Pasts> for Nothing {
    ghost left = { λ pasts. pasts };

    ghost right = { λ pasts. [] };
}

// All pasts go to the first seat.
struct Both;

impl Join<Pasts> for Both {
    ghost both = { λ pasts taken. pasts ++ taken };

    ghost spent = { [] };
}

/// The atomic words of a boot: one of each frame, and two of each CPU, for its stock and its visit. CPUs share it by
/// `&`, and none waits in a call. A contract sees the table's identity, its numbers of frames and CPUs, and the choices
/// of the boot, which never change.
#[derive(Drop)]
pub struct BootWords {
    table: Table<(), Pasts, TableKey, OneRun, Global>,
    frames: u32,
    cpus: u32,
    choices: Choices,
}

impl Model for BootWords {
    ghost use Rattle.boot_words.specs.Tables.{KnownTable};

    ghost Value = { KnownTable };

    ghost use Rattle.boot_words.specs.Seats.{HasBootLayout};

    ghost view = { λ w. record {
      table = w.table.shared.table_id;
      frames = w.frames;
      cpus = w.cpus;
      choices = w.choices;
    } };

    ghost invariant = { λ w. HasBootLayout w.table.shared.table_id
        (record {
          frames = w.table.shared.key.frames;
          cpus = w.table.shared.key.cpus;
          groups = w.table.shared.key.groups;
        })
        (record { frames = w.frames; cpus = w.cpus; groups = w.choices.groups }) };
}

/// A seat of the table, which a contract sees as its pasts. The zone's seat has two while a CPU holds the lock: its own
/// and the CPU's.
#[derive(Drop)]
pub struct PastSeat {
    seat: Seat<(), Pasts>,
}

impl Model for PastSeat {
    ghost use Rattle.std.specs.Prelude.{◌≡◌, []};
    ghost use Rattle.boot_words.specs.Pasts.{KnownPasts};

    ghost Value = { KnownPasts };

    ghost view = { λ s. record { table = s.seat.table_id; pasts = s.seat.me.0 } };

    ghost invariant = { λ s. s.seat.me.1 ≡ [] };
}

impl BootWords {
    /// How many frames the zone has: at least one.
    pub fn frames(&self) -> u32
        ensures { (result ≡ self.now.frames) × (1 ≤ self.now.frames) }
    {
        self.frames
    }

    /// The number of CPUs, 1 to 64.
    pub fn cpus(&self) -> u32
        ensures cpus { result ≡ self.now.cpus }
        ensures few { (1 ≤ result) × (result ≤ 64) }
    {
        self.cpus
    }

    /// The choices of the boot.
    pub fn choices(&self) -> Choices
        ensures { result ≡ self.now.choices }
    {
        self.choices
    }

    /// The frame of this number, or `None` if the zone has none.
    pub fn frame(&self, number: u32) -> Option<Frame>
        ensures { MatchOption result (self.now.frames ≤ number) (λ f. (f ≡ number) × (f < self.now.frames)) }
    {
        if number < self.frames {
            Some(Frame::new(number))
        } else {
            None
        }
    }

    // Where the word is. Stock words are sixteen words apart, so each has a cache line to itself.
    #[inline(always)]
    fn index(&self, word: Word) -> usize
        requires { IsInTable (zone_of_boot self.now) word }
        ensures { result ≡ word_place (zone_of_boot self.now) word }
    {
        let base = 16 * (self.cpus as usize + 1);
        match word {
            Word::AlwaysZero => 0,
            Word::StockOf(cpu) => 16 * cpu as usize,
            Word::OfFrame(frame) => base + frame.number() as usize,
            Word::VisitOf(cpu) => base + (self.frames as usize + (cpu as usize - 1)),
        }
    }

    /// Reads a word.
    #[inline(always)]
    pub(crate) fn load<P: Postcondition>(&self, seat: &mut PastSeat, word: Word) -> u64
        requires table { seat.old.table ≡ self.now.table }
        requires place { IsInTable (zone_of_boot self.now) word }
        requires may { MayChange (zone_of_boot self.now) seat.old.pasts word (λ n. n) P.post }
        ensures table { seat.new.table ≡ seat.old.table }
        ensures post { P.post result seat.new.pasts }
    {
        let at = self.index(word);
        self.table.shared.load::<Ensures<P>>(&mut seat.seat, at)
    }

    /// Stores a word.
    #[inline(always)]
    pub(crate) fn store<P: Postcondition>(&self, seat: &mut PastSeat, word: Word, new: u64)
        requires table { seat.old.table ≡ self.now.table }
        requires place { IsInTable (zone_of_boot self.now) word }
        requires may { MayChange (zone_of_boot self.now) seat.old.pasts word (λ n. new) (λ found. P.post new) }
        ensures table { seat.new.table ≡ seat.old.table }
        ensures post { P.post new seat.new.pasts }
    {
        let at = self.index(word);
        self.table
            .shared
            .store::<Ensures<P>>(&mut seat.seat, at, new);
    }

    /// Stores a word, and returns the one that was there.
    #[inline(always)]
    pub(crate) fn swap<P: Postcondition>(&self, seat: &mut PastSeat, word: Word, new: u64) -> u64
        requires table { seat.old.table ≡ self.now.table }
        requires place { IsInTable (zone_of_boot self.now) word }
        requires may { MayChange (zone_of_boot self.now) seat.old.pasts word (λ n. new) P.post }
        ensures table { seat.new.table ≡ seat.old.table }
        ensures post { P.post result seat.new.pasts }
    {
        let at = self.index(word);
        self.table
            .shared
            .swap::<Ensures<P>>(&mut seat.seat, at, new)
    }

    /// Stores `new` if `old` is there. Either way it returns the word that was there.
    #[inline(always)]
    pub(crate) fn exchange<P: Postcondition>(
        &self,
        seat: &mut PastSeat,
        word: Word,
        old: u64,
        new: u64,
    ) -> u64
        requires table { seat.old.table ≡ self.now.table }
        requires place { IsInTable (zone_of_boot self.now) word }
        requires may { MayChange (zone_of_boot self.now) seat.old.pasts word (λ n. either (n == old) new n) P.post }
        ensures table { seat.new.table ≡ seat.old.table }
        ensures post { P.post result seat.new.pasts }
    {
        let at = self.index(word);
        self.table
            .shared
            .compare_exchange::<Ensures<P>>(&mut seat.seat, at, old, new)
    }

    /// Subtracts one, and returns the word that was there.
    #[inline(always)]
    pub(crate) fn take_one<P: Postcondition>(&self, seat: &mut PastSeat, word: Word) -> u64
        requires table { seat.old.table ≡ self.now.table }
        requires place { IsInTable (zone_of_boot self.now) word }
        requires may { MayChange (zone_of_boot self.now) seat.old.pasts word (λ n. (n + (2 ^ 64 - 1)) % 2 ^ 64) P.post }
        ensures table { seat.new.table ≡ seat.old.table }
        ensures post { P.post result seat.new.pasts }
    {
        let at = self.index(word);
        self.table
            .shared
            .fetch_sub::<Ensures<P>>(&mut seat.seat, at, 1)
    }

    /// Moves all pasts of `other` to `seat`.
    #[inline(always)]
    pub(crate) fn join(&self, seat: &mut PastSeat, other: &mut PastSeat)
        requires tables { (seat.old.table ≡ self.now.table) × (other.old.table ≡ self.now.table) }
        ensures seat { seat.new ≡ record { table = self.now.table; pasts = seat.old.pasts ++ other.old.pasts } }
        ensures other { other.new ≡ record { table = self.now.table; pasts = [] } }
    {
        let empty = PastSeat {
            seat: self.table.shared.split_seat::<Nothing>(&mut seat.seat),
        };
        let PastSeat { seat: taken } = mem::replace(other, empty);
        self.table.shared.join_seat::<Both>(&mut seat.seat, taken);
    }

    /// Moves all pasts of `seat` but the first to a new seat.
    #[inline(always)]
    pub(crate) fn split_others(&self, seat: &mut PastSeat) -> PastSeat
        requires table { seat.old.table ≡ self.now.table }
        ensures seat { seat.new ≡ record { table = self.now.table; pasts = first_alone seat.old.pasts } }
        ensures others { result ≡ record { table = self.now.table; pasts = rest_of seat.old.pasts } }
    {
        PastSeat {
            seat: self.table.shared.split_seat::<Others>(&mut seat.seat),
        }
    }

    /// A table of zeros, and one seat that has all pasts.
    pub(crate) fn start(
        alloc: Global,
        frames: u32,
        cpus: u32,
        choices: Choices,
    ) -> Result<(BootWords, PastSeat), AllocError>
        requires frames { 1 ≤ frames }
        requires cpus { (1 ≤ cpus) × (cpus ≤ 64) }
        ensures sizes { IfOk result (λ r. (r.0.frames ≡ frames) × (r.0.cpus ≡ cpus)) }
        ensures choices { IfOk result (λ r. r.0.choices ≡ choices) }
        ensures all { IfOk result (λ r. r.1 ≡ record { table = r.0.table; pasts = all_pasts cpus }) }
    {
        let rows = 16 * (cpus as usize + 1);
        let words = vec![in alloc; 0u64; rows + (frames as usize + cpus as usize)]?;
        let sizes = TableKey {
            frames,
            cpus,
            groups: choices.groups,
        };
        let (table, seat) = Table::of_words(alloc, words.as_slice(), &sizes)?;
        let words = BootWords {
            table,
            frames,
            cpus,
            choices,
        };
        Ok((words, PastSeat { seat }))
    }

    /// Ends the table, of which `seat` is one seat.
    pub(crate) fn end(self, seat: PastSeat) -> Closed<(), Global>
        requires { seat.table ≡ self.table }
        ensures counts { slots_len result.slots ≡ 0 }
        ensures end { IsEndOfRun (zone_of_boot self) (slots_items result.words) seat.pasts }
    {
        let BootWords {
            table,
            frames: _,
            cpus: _,
            choices: _,
        } = self;
        let PastSeat { seat } = seat;
        table.close_with(seat)
    }
}
