//! What a typed call gives its host.

ghost use Rattle.std.specs.Prelude.{◌≡◌};
ghost use Rattle.host_memory.specs.Kinds.{get_result, outcome_result, outcome_status, put_result, result_with};

use crate::kinds::{
    ACTIVE, CHARGED, CPU, FRAME, FREE, FULL, GROUP, HELD, LAST, LEFT, MARKED, OK, RACED, REFUSED,
    RETURNED, TEXT, ZERO,
};
use crate::status::{DONE, OVER_LIMIT};
use frame_word::{Get, Put};
use mem_system::Outcome;

/// What a typed call gives its host: a kind, and the number that goes with it.
#[repr(C)]
#[derive(Clone, Copy, Debug, PartialEq, Eq)]
pub struct TypedResult {
    /// The number that goes with the kind; 0 if none does.
    pub number: u64,
    /// The kind.
    pub kind: u8,
}

/// The status of a call, and its result.
#[derive(Clone, Copy, Debug, PartialEq, Eq)]
pub struct TypedAnswer {
    /// The status.
    pub status: u8,
    /// The result.
    pub typed: TypedResult,
}

/// An answer with this kind and this number.
#[inline(always)]
pub fn with_number(status: u8, kind: u8, number: u64) -> TypedAnswer
    ensures status { result.status ≡ status }
    ensures typed { result.typed ≡ result_with kind number }
{
    TypedAnswer {
        status,
        typed: TypedResult { number, kind },
    }
}

/// The result of a pin that was asked for.
#[inline(always)]
pub fn answer_of_get(got: &Get) -> TypedAnswer
    ensures status { result.status ≡ 0 }
    ensures typed { result.typed ≡ get_result got.now }
{
    match got {
        Get::Held => with_number(DONE, HELD, 0),
        Get::Zero => with_number(DONE, ZERO, 0),
        Get::Raced(_) => with_number(DONE, RACED, 0),
        Get::Full => with_number(DONE, FULL, 0),
    }
}

/// The result of a pin that was put.
#[inline(always)]
pub fn answer_of_put(put: &Put) -> TypedAnswer
    ensures status { result.status ≡ 0 }
    ensures typed { result.typed ≡ put_result put.now }
{
    match put {
        Put::Left(left) => with_number(DONE, LEFT, *left),
        Put::Last => with_number(DONE, LAST, 0),
    }
}

/// The result of an outcome. That of a text has no length: who writes the text gives it.
#[inline(always)]
#[tactic(auto, using(crate::proofs::Numbers::number_low))]
pub fn answer_of_outcome(outcome: &Outcome) -> TypedAnswer
    ensures status { result.status ≡ outcome_status outcome.now }
    ensures typed { result.typed ≡ outcome_result 0 outcome.now }
{
    match *outcome {
        Outcome::Group(group) => with_number(DONE, GROUP, u64::from(group.number())),
        Outcome::Frame(frame) => with_number(DONE, FRAME, u64::from(frame)),
        Outcome::Done => with_number(DONE, OK, 0),
        Outcome::Text(..) => with_number(DONE, TEXT, 0),
        Outcome::Stat(..) => with_number(DONE, TEXT, 0),
        Outcome::Free => with_number(DONE, FREE, 0),
        Outcome::Lent(cpu) => with_number(DONE, CPU, u64::from(cpu)),
        Outcome::Charged(group) => with_number(DONE, CHARGED, u64::from(group.number())),
        Outcome::Marked => with_number(DONE, MARKED, 0),
        Outcome::Active => with_number(DONE, ACTIVE, 0),
        Outcome::Left(left) => with_number(DONE, LEFT, left),
        Outcome::Returned => with_number(DONE, RETURNED, 0),
        Outcome::OverLimit(group) => with_number(OVER_LIMIT, REFUSED, u64::from(group.number())),
        Outcome::Refused(fault) => with_number(fault.number() as u8, REFUSED, 0),
    }
}
