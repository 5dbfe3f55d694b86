//! What a command of a script is under the lock, and what it names.

ghost use Rattle.std.specs.Prelude.{◌≡◌};
ghost use Rattle.script_replay.specs.Commands.{act_on, frame_path, head_named, is_tried, locked_command_of};
ghost use Rattle.script_replay.specs.Commands.{path_removed};

use mem_system::TextCommand;
use script_lines::line::{Command, FrameAct};

// The command that is served under the lock, as its texts give it. None if the command needs no lock, or only settles its CPU.
// It is inlined, so that a caller that names the command builds nothing for it.
#[inline(always)]
pub(crate) fn locked_command_of<'a>(command: &Command<'a>) -> Option<TextCommand<'a>>
    ensures { result ≡ locked_command_of command.now }
{
    match *command {
        Command::Mkdir { path } => Some(TextCommand::Mkdir { path }),
        Command::Rmdir { path } => Some(TextCommand::Rmdir { path }),
        Command::Write { path, file, value } => Some(TextCommand::Write { path, file, value }),
        Command::Read { path, file } => Some(TextCommand::Read { path, file }),
        Command::Alloc { path, order } => Some(TextCommand::Alloc { path, order }),
        Command::Release { frame } => Some(TextCommand::Release { frame }),
        Command::OnFrame(act, frame) => Some(act_on(act, frame)),
        _ => None,
    }
}

// The command that is this act on this frame.
#[inline(always)]
fn act_on<'a>(act: FrameAct, frame: u32) -> TextCommand<'a>
    ensures { result ≡ act_on act frame }
{
    match act {
        FrameAct::Touch => TextCommand::Touch { frame },
        FrameAct::Dirty => TextCommand::Dirty { frame },
        FrameAct::Clean => TextCommand::Clean { frame },
        FrameAct::Owner => TextCommand::Owner { frame },
    }
}

// Whether the command is tried without the lock, whatever lies behind the lock. It is inlined, so that a caller that
// names the command asks nothing.
#[inline(always)]
pub(crate) fn is_tried(command: &Command<'_>) -> bool
    ensures { result ≡ is_tried command.now }
{
    match *command {
        Command::Fast { .. } | Command::Release { .. } => true,
        Command::Get { .. } | Command::Put { .. } => true,
        _ => false,
    }
}

// The path of the group, if the command allocates a single frame.
#[inline(always)]
pub(crate) fn frame_path<'a>(command: &Command<'a>) -> Option<&'a [u8]>
    ensures { result ≡ frame_path command.now }
{
    match *command {
        Command::Alloc { path, order: 0 } => Some(path),
        Command::Alloc { path: _, order: _ } => None,
        _ => None,
    }
}

// The frame that has to be the head of a kept unit for the command, if there is one.
pub(crate) fn head_named(command: &Command<'_>) -> Option<u32>
    ensures { result ≡ head_named command.now }
{
    match *command {
        Command::Release { frame } => Some(frame),
        Command::OnFrame(FrameAct::Owner, _) => None,
        Command::OnFrame(_, frame) => Some(frame),
        _ => None,
    }
}

// The path of the group that the command removes, if it is to remove one.
pub(crate) fn path_removed<'a>(command: &Command<'a>) -> &'a [u8]
    ensures { result.now ≡ path_removed command.now }
{
    match *command {
        Command::Rmdir { path } => path,
        _ => &[],
    }
}
