//! The calls that make and remove groups, and write and read their files. None of them takes memory.

ghost use Rattle.script_lines.specs.declared.line.Command.TheVariants.{Mkdir, Rmdir, Write};
ghost use Rattle.tempolemon_c.specs.Behind.{behind};
ghost use Rattle.tempolemon_c.specs.Calls.{CallsBehind, ReadsIntoBuffer};
ghost use Rattle.tempolemon_c.specs.declared.calls.Call.TheVariants.{Script};

use crate::calling::{serve_call, serve_into};
use crate::calls::Call;
use crate::handle::Handle;
use control_files::text::MAX_TEXT;
use host_memory::kinds::NOTHING;
use host_memory::status::SMALL_BUFFER;
use host_memory::typed_result::TypedResult;
use script_lines::line::Command;
use std::alloc::Global;

/// Makes the group of this path.
#[unsafe(no_mangle)]
pub extern "C" fn tempolemon_mkdir(
    alloc: Global,
    handle: &mut Handle,
    cpu: u32,
    path: &[u8],
    out: &mut TypedResult,
) -> u8
    ensures { CallsBehind cpu (Script (Mkdir path.entry)) (behind handle.old) (behind handle.new) result out.new }
{
    let call = Call::Script(Command::Mkdir { path });
    serve_call(alloc, handle, cpu, &call, out)
}

/// Removes the group of this path.
#[unsafe(no_mangle)]
pub extern "C" fn tempolemon_rmdir(
    alloc: Global,
    handle: &mut Handle,
    cpu: u32,
    path: &[u8],
    out: &mut TypedResult,
) -> u8
    ensures { CallsBehind cpu (Script (Rmdir path.entry)) (behind handle.old) (behind handle.new) result out.new }
{
    let call = Call::Script(Command::Rmdir { path });
    serve_call(alloc, handle, cpu, &call, out)
}

/// Writes a value to a file of the group of this path.
#[unsafe(no_mangle)]
pub extern "C" fn tempolemon_write(
    alloc: Global,
    handle: &mut Handle,
    cpu: u32,
    path: &[u8],
    file: &[u8],
    value: &[u8],
    out: &mut TypedResult,
) -> u8
    ensures { CallsBehind cpu (Script (Write path.entry file.entry value.entry))
        (behind handle.old) (behind handle.new) result out.new }
{
    let call = Call::Script(Command::Write { path, file, value });
    serve_call(alloc, handle, cpu, &call, out)
}

/// Reads a file of the group of this path, and writes its text at the start of the buffer, which has room for at least
/// 256 bytes.
#[unsafe(no_mangle)]
pub extern "C" fn tempolemon_read(
    alloc: Global,
    handle: &mut Handle,
    cpu: u32,
    path: &[u8],
    file: &[u8],
    text: &mut [u8],
    out: &mut TypedResult,
) -> u8
    ensures { ReadsIntoBuffer path.entry file.entry cpu (behind handle.old) (behind handle.new)
        result out.new text.old text.new }
{
    if text.len() < MAX_TEXT {
        *out = TypedResult {
            number: 0,
            kind: NOTHING,
        };
        return SMALL_BUFFER;
    }
    let call = Call::Script(Command::Read { path, file });
    serve_into(alloc, handle, cpu, &call, text, out)
}
