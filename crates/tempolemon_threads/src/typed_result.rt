//! What a typed call gives its host.

ghost use Rattle.std.specs.Prelude.{◌≡◌};
ghost use Rattle.tempolemon_threads.specs.Kinds.{call_result_of, call_status_of};

use crate::status::BUSY;
use host_memory::kinds::{FRAME, LISTED, NO_LIMIT, NOTHING, PAGES, REFUSED, SETTLED};
use host_memory::status::{BAD_FRAME, BAD_GROUP, DONE};
use host_memory::typed_result::{
    TypedAnswer, answer_of_get, answer_of_outcome, answer_of_put, with_number,
};
use zone_threads::calls::CallAnswer;

/// The status and the result of an answer. It is inlined with what it calls, so that the answer isn't built in memory.
#[inline(always)]
#[tactic(auto, using(host_memory::proofs::Numbers::number_low))]
pub(crate) fn typed_answer_of(answer: CallAnswer) -> TypedAnswer
    ensures status { result.status ≡ call_status_of answer }
    ensures typed { result.typed ≡ call_result_of answer }
{
    match answer {
        CallAnswer::Busy => with_number(BUSY, NOTHING, 0),
        CallAnswer::NoFrame => with_number(BAD_FRAME, NOTHING, 0),
        CallAnswer::NoGroup => with_number(BAD_GROUP, NOTHING, 0),
        CallAnswer::Pages(pages) => with_number(DONE, PAGES, u64::from(pages)),
        CallAnswer::NoLimit => with_number(DONE, NO_LIMIT, 0),
        CallAnswer::Served(outcome) => answer_of_outcome(&outcome),
        CallAnswer::Taken(frame) => with_number(DONE, FRAME, u64::from(frame.number())),
        CallAnswer::Listed => with_number(DONE, LISTED, 0),
        CallAnswer::Got(got) => answer_of_get(&got),
        CallAnswer::Put(put) => answer_of_put(&put),
        CallAnswer::Settled => with_number(DONE, SETTLED, 0),
        CallAnswer::Refused(fault) => with_number(fault.number() as u8, REFUSED, 0),
    }
}
