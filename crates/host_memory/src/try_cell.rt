//! A value behind a `&` that one caller at a time takes out. No call waits: `take` returns `None` while the value is
//! out.

ghost use Rattle.std.specs.Prelude.{◌≡◌, IfErr, IfSome, None, Some};
ghost use Rattle.host_memory.specs.Cells.{Gives, HasEmptied, IsGuarded, Takes};

use atomic_table::{Play, Refused, Seat, Table, TableRule};
use std::alloc::Global;
use std::marker::Model;

// What a seat knows: the value that it took out, and the one that it put back.
type Change<T> = (Option<T>, Option<T>);

/// The rule: the word is 0 exactly while the value is at home.
struct Guard;

impl<T> TableRule<Option<T>, Change<T>, ()> for Guard {
    ghost holds = { λ _ s. IsGuarded s };

    ghost first = { λ _. (None, None) };
}

struct Taking;

impl<T> Play<Option<T>, Change<T>> for Taking {
    ghost then = { λ _ _ found me. Takes found me };
}

struct Giving;

impl<T> Play<Option<T>, Change<T>> for Giving {
    ghost then = { λ _ from _ to. Gives from to };
}

/// A value, at home or out. `T` needn't be `Drop`: then the cell isn't either.
pub struct TryCell<T> {
    table: Table<Option<T>, Change<T>, (), Guard, Global>,
    ghost sized: { (table.shared.table_id.words ≡ 1) × (table.shared.table_id.slots ≡ 1) },
}

/// The right to put the value back. It can't be dropped, so a value that is taken out is put back.
pub struct Loan<T> {
    seat: Seat<Option<T>, Change<T>>,
    ghost emptied: { HasEmptied seat.me },
}

impl<T> Model for Loan<T> {
    ghost use Rattle.host_memory.specs.Cells.{KnownLoan};

    ghost Value = { KnownLoan T };

    ghost view = { λ l. record { table_id = l.seat.table_id; found = l.seat.me.0.0 } };
}

/// Shows which value was taken out, and which one was put back for it. Only `put_back` makes one.
#[derive(Drop)]
pub struct PutBack<T> {
    seat: Seat<Option<T>, Change<T>>,
}

impl<T> Model for PutBack<T> {
    ghost use Rattle.host_memory.specs.Cells.{KnownChange};

    ghost Value = { KnownChange T };

    ghost view = { λ p. record { found = p.seat.me.0.0; left = p.seat.me.0.1 } };
}

impl<T> TryCell<T> {
    /// A cell with this value at home. If memory runs out, the value is returned.
    pub fn new(alloc: Global, value: T) -> Result<TryCell<T>, T>
        ensures { IfErr result (λ returned. returned ≡ value) }
    {
        let mut slots = match Vec::with_capacity(alloc, 1) {
            Ok(slots) => slots,
            Err(_) => return Err(value),
        };
        slots.push_reserved(Some(value));
        match Table::new(alloc, &[0], slots, &()) {
            Ok((table, _seat)) => Ok(TryCell { table }),
            Err(Refused { mut slots }) => {
                let value = slots.pop().unwrap().unwrap();
                slots.destroy_empty();
                Err(value)
            }
        }
    }

    /// Takes the value out; `None` if it is out already.
    #[inline(always)]
    pub fn take(&self) -> Option<(T, Loan<T>)>
        ensures fits { IfSome result (λ taken. taken.1.table_id ≡ self.now.table.shared.table_id) }
        ensures found { IfSome result (λ taken. taken.1.found ≡ Some taken.0) }
    {
        let shared = &self.table.shared;
        // A read leaves the word's cache line to its holder, and an exchange takes it away.
        if shared.peek(0) != 0 {
            return None;
        }
        let (found, mut seat) = shared.swap_new_seat::<Taking>(0, 1);
        if found != 0 {
            return None;
        }
        let value = shared.exchange(&mut seat, 0, None).unwrap();
        Some((value, Loan { seat }))
    }

    /// Puts a value back, and shows it beside the one that was taken out.
    #[inline(always)]
    pub fn put_back(&self, value: T, loan: Loan<T>) -> PutBack<T>
        requires { loan.table_id ≡ self.now.table.shared.table_id }
        ensures found { result.found ≡ loan.found }
        ensures left { result.left ≡ Some value }
    {
        let Loan { mut seat } = loan;
        let shared = &self.table.shared;
        let left = shared.exchange(&mut seat, 0, Some(value));
        let None = left else { unreachable!() };
        shared.store::<Giving>(&mut seat, 0, 0);
        PutBack { seat }
    }

    /// The value, after all sharing ended; `None` if it is still out.
    pub fn into_inner(self) -> Option<T> {
        let TryCell { table } = self;
        let mut closed = table.close();
        let value = closed.take(0);
        closed.free();
        value
    }
}
