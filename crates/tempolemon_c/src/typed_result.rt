//! What a typed call gives its host.

ghost use Rattle.std.specs.Prelude.{◌≡◌, List, ℕ};
ghost use Rattle.group_charge.specs.Charges.{Ledger};
ghost use Rattle.group_tree.specs.Faults.{number_of};
ghost use Rattle.reply_texts.specs.declared.line_answer.LineAnswer.TheVariants as answer;
ghost use Rattle.tempolemon_c.specs.Calls.{HasNoText, PutsAnswer};
ghost use Rattle.host_memory.specs.Kinds.{result_with};
ghost use Rattle.tempolemon_c.specs.Kinds.{fast_result, result_of, status_of};
ghost use Rattle.tempolemon_c.specs.Kinds.{unlocked_result};

use cpu_part::Fast;
use group_tree::fault::Fault;
use host_memory::kinds::{FRAME, LISTED, NOT_FAST, REFUSED, SETTLED};
use host_memory::status::DONE;
use host_memory::typed_result::{
    TypedAnswer, answer_of_get, answer_of_outcome, answer_of_put, with_number,
};
use reply_texts::{LineAnswer, UnlockedAnswer};

/// The result of an answer that isn't a text. It is inlined with what it calls, so that the answer isn't built in
/// memory.
#[inline(always)]
#[tactic(auto, using(crate::proofs::Plain::plain_typed, crate::proofs::Plain::plain_stays))]
pub(crate) fn typed_answer_of(value: &LineAnswer) -> TypedAnswer
    requires { HasNoText value.now }
    ensures status { result.status ≡ status_of value.now }
    ensures typed { (ledger : Ledger) → result.typed ≡ result_of ledger value.now }
    ensures no_text { (ledger : Ledger) (buffer : List ℕ) → PutsAnswer ledger value.now buffer buffer }
{
    match value {
        LineAnswer::Served(outcome) => answer_of_outcome(outcome),
        LineAnswer::Settled => with_number(DONE, SETTLED, 0),
        LineAnswer::Unlocked(said) => answer_of_unlocked(said),
    }
}

// The result of an answer that needed no lock.
#[inline(always)]
fn answer_of_unlocked(said: &UnlockedAnswer) -> TypedAnswer
    ensures status { result.status ≡ status_of (answer.Unlocked said.now) }
    ensures typed { result.typed ≡ unlocked_result said.now }
{
    match said {
        UnlockedAnswer::Fast(fast) => answer_of_fast(fast),
        UnlockedAnswer::Got(got) => answer_of_get(got),
        UnlockedAnswer::Put(put) => answer_of_put(put),
        UnlockedAnswer::Listed => with_number(DONE, LISTED, 0),
        UnlockedAnswer::Refused(fault) => refused(fault),
    }
}

// The result of a refusal.
#[inline(always)]
#[tactic(auto, using(host_memory::proofs::Numbers::number_low))]
fn refused(fault: &Fault) -> TypedAnswer
    ensures status { result.status ≡ number_of fault.now }
    ensures typed { result.typed ≡ result_with 20 0 }
{
    with_number(fault.number() as u8, REFUSED, 0)
}

// The result of a frame that was asked for without the lock.
#[inline(always)]
fn answer_of_fast(fast: &Fast) -> TypedAnswer
    ensures status { result.status ≡ 0 }
    ensures typed { result.typed ≡ fast_result fast.now }
{
    match *fast {
        Fast::Got(frame) => with_number(DONE, FRAME, u64::from(frame.number())),
        Fast::FreshFull => with_number(DONE, NOT_FAST, 0),
        Fast::ListEmpty => with_number(DONE, NOT_FAST, 0),
        Fast::OtherGroup => with_number(DONE, NOT_FAST, 0),
        Fast::Drained => with_number(DONE, NOT_FAST, 0),
        Fast::NoStock => with_number(DONE, NOT_FAST, 0),
    }
}
