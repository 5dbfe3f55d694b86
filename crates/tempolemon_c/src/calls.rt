//! What a host asks of a live boot by a call, which borrows its texts, and the call's answer, which has none.

ghost use Rattle.std.specs.Prelude.{◌↔◌, ◌<◌, IfNone, IfSome, ℕ};
ghost use Rattle.script_replay.specs.Ranges.{CommandInRange};
ghost use Rattle.tempolemon_c.specs.HandleCalls.{IsTypedCall};
ghost use Rattle.tempolemon_c.specs.declared.calls.Call.TheVariants.{Script};

use reply_texts::LineAnswer;
use script_lines::line::Command;

/// What a host asks of a CPU.
#[derive(Clone, Copy)]
pub enum Call<'a> {
    /// A command of a script, which names no group by its number, and whose answer isn't a text of any length.
    Script(Command<'a>),
    /// Takes a block of 2^order frames, charged to the group of this number. A script names a group by its path.
    Alloc { group: u32, order: u32 },
}

/// What a call returns.
#[derive(Clone, Copy, PartialEq, Eq)]
pub enum CallAnswer {
    /// It was served with this answer.
    Served(LineAnswer),
    /// The zone has no such CPU, and nothing was done.
    NoCpu,
    /// The zone has no such frame, and nothing was done.
    NoFrame,
    /// No group has such a number, and nothing was done.
    NoGroup,
}

/// Whether a CPU may have one more pin, of a new block.
#[derive(Clone, Copy, Debug, PartialEq, Eq)]
pub enum PinCheck {
    /// It may.
    May,
    /// The zone has no such CPU.
    NoCpu,
    /// The CPU's pins and back frames are as many as it can have.
    PinsFull,
    /// The order isn't 1 to 10.
    BadOrder,
}

// The frame that the command names, if it names one: nothing else that it names can be missing. It is inlined, so that
// a caller that names the command asks nothing.
#[inline(always)]
pub(crate) fn frame_named(command: &Command<'_>) -> Option<u32>
    requires { IsTypedCall (Script command.now) }
    ensures named { IfSome result (λ frame. (frames : ℕ) → CommandInRange frames command.now ↔ (frame < frames)) }
    ensures none { IfNone result ((frames : ℕ) → CommandInRange frames command.now) }
{
    match *command {
        Command::Release { frame } | Command::Get { frame } | Command::Put { frame } => Some(frame),
        Command::OnFrame(_, frame) => Some(frame),
        _ => None,
    }
}
