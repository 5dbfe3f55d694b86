//! What is written for the calls that take no lock, and for a CPU that was settled.

ghost use Rattle.std.specs.Prelude.{◌≡◌, ◌++◌, IfOk};
ghost use Rattle.std.specs.String.{string_bytes};
ghost use Rattle.reply_texts.specs.Answers.{fast_text, get_text, put_text, settled_text, unlocked_text};

use crate::numbers::write_number;
use crate::refusals::write_refusal;
use cpu_part::Fast;
use frame_word::{Get, Put};
use group_tree::fault::Fault;
use std::alloc::AllocError;

/// What a command is answered that needs no lock.
#[derive(Clone, Copy, PartialEq, Eq)]
pub enum UnlockedAnswer {
    /// What became of a frame that was asked for.
    Fast(Fast),
    /// What became of a pin that was asked for.
    Got(Get),
    /// A pin was put.
    Put(Put),
    /// A fresh frame is at the end of the list again.
    Listed,
    /// The command is refused, for this reason.
    Refused(Fault),
}

/// Adds the line for a frame asked for without the lock. It fails only if memory runs out.
pub fn write_fast(fast: &Fast, text: &mut String) -> Result<(), AllocError>
    ensures { IfOk result (λ _. string_bytes text.new ≡ string_bytes text.old ++ fast_text fast.now) }
{
    match fast {
        Fast::Got(frame) => write_number("frame ", u64::from(frame.number()), text),
        Fast::FreshFull => text.push_str("fresh-full\n"),
        Fast::ListEmpty => text.push_str("list-empty\n"),
        Fast::OtherGroup => text.push_str("other-group\n"),
        Fast::Drained => text.push_str("drained\n"),
        Fast::NoStock => text.push_str("no-stock\n"),
    }
}

/// Adds the line for a pin asked for. It fails only if memory runs out.
pub fn write_get(get: &Get, text: &mut String) -> Result<(), AllocError>
    ensures { IfOk result (λ _. string_bytes text.new ≡ string_bytes text.old ++ get_text get.now) }
{
    match get {
        Get::Held => text.push_str("held\n"),
        Get::Zero => text.push_str("zero\n"),
        Get::Raced(_) => text.push_str("raced\n"),
        Get::Full => text.push_str("full\n"),
    }
}

/// Adds the line for a pin given up. It fails only if memory runs out.
pub fn write_put(put: &Put, text: &mut String) -> Result<(), AllocError>
    ensures { IfOk result (λ _. string_bytes text.new ≡ string_bytes text.old ++ put_text put.now) }
{
    match put {
        Put::Left(references) => write_number("left ", *references, text),
        Put::Last => text.push_str("last\n"),
    }
}

/// Adds what is written for an answer that needed no lock. It fails only if memory runs out.
pub fn write_unlocked(answer: &UnlockedAnswer, text: &mut String) -> Result<(), AllocError>
    ensures { IfOk result (λ _. string_bytes text.new ≡ string_bytes text.old ++ unlocked_text answer.now) }
{
    match answer {
        UnlockedAnswer::Fast(fast) => write_fast(fast, text),
        UnlockedAnswer::Got(get) => write_get(get, text),
        UnlockedAnswer::Put(put) => write_put(put, text),
        UnlockedAnswer::Listed => text.push_str("listed\n"),
        UnlockedAnswer::Refused(fault) => write_refusal(fault, text),
    }
}

/// Adds the line for a CPU that was settled, and nothing else. It fails only if memory runs out.
pub fn write_settled(text: &mut String) -> Result<(), AllocError>
    ensures { IfOk result (λ _. string_bytes text.new ≡ string_bytes text.old ++ settled_text) }
{
    text.push_str("settled\n")
}
