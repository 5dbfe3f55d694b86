//! The calls that make and remove groups, and write and read their files. None of them takes memory, and each tries the
//! lock.

ghost use Rattle.tempolemon_threads.specs.Behind.{part_behind};
ghost use Rattle.tempolemon_threads.specs.Calls.{IsMkdirCommand, IsRmdirCommand, IsWriteCommand};
ghost use Rattle.tempolemon_threads.specs.Calls.{GivesCommand, ReadsInto};

use crate::calling::serve_call;
use crate::handles::CpuPart;
use crate::status::BUSY;
use control_files::text::MAX_TEXT;
use host_memory::buffers::copy_answers;
use host_memory::kinds::{NOTHING, REFUSED, TEXT};
use host_memory::status::{DONE, NOT_LIVE, SMALL_BUFFER};
use host_memory::typed_result::TypedResult;
use mem_system::TextCommand;
use std::alloc::Global;
use zone_threads::calls::{Call, ReadAnswer, ReadCall};

/// Makes the group of this path.
#[unsafe(no_mangle)]
pub extern "C" fn tempolemon_try_mkdir(
    alloc: Global,
    part: &mut CpuPart,
    path: &[u8],
    out: &mut TypedResult,
) -> u8
    ensures { GivesCommand (IsMkdirCommand path.now) (part_behind part.old) (part_behind part.new) result out.new }
{
    let cmd = TextCommand::Mkdir { path };
    serve_call(alloc, part, &Call::Visit(cmd), out)
}

/// Removes the group of this path.
#[unsafe(no_mangle)]
pub extern "C" fn tempolemon_try_rmdir(
    alloc: Global,
    part: &mut CpuPart,
    path: &[u8],
    out: &mut TypedResult,
) -> u8
    ensures { GivesCommand (IsRmdirCommand path.now) (part_behind part.old) (part_behind part.new) result out.new }
{
    let cmd = TextCommand::Rmdir { path };
    serve_call(alloc, part, &Call::Visit(cmd), out)
}

/// Writes a value to a file of the group of this path.
#[unsafe(no_mangle)]
pub extern "C" fn tempolemon_try_write(
    alloc: Global,
    part: &mut CpuPart,
    path: &[u8],
    file: &[u8],
    value: &[u8],
    out: &mut TypedResult,
) -> u8
    ensures { GivesCommand (IsWriteCommand path.now file.now value.now)
        (part_behind part.old) (part_behind part.new) result out.new }
{
    let cmd = TextCommand::Write { path, file, value };
    serve_call(alloc, part, &Call::Visit(cmd), out)
}

/// Reads a file of the group of this path, and writes its text at the start of the buffer, which has room for at least
/// 256 bytes.
#[tactic(auto, using(host_memory::proofs::Numbers::number_low))]
#[unsafe(no_mangle)]
pub extern "C" fn tempolemon_try_read(
    alloc: Global,
    part: &mut CpuPart,
    path: &[u8],
    file: &[u8],
    text: &mut [u8],
    out: &mut TypedResult,
) -> u8
    ensures { ReadsInto path.now file.now (part_behind part.old) (part_behind part.new)
        result out.new text.old text.new }
{
    *out = TypedResult {
        number: 0,
        kind: NOTHING,
    };
    if text.len() < MAX_TEXT {
        return SMALL_BUFFER;
    }
    if !part.is_live() {
        return NOT_LIVE;
    }
    match part.read(alloc, &ReadCall { path, file }) {
        ReadAnswer::Busy => BUSY,
        ReadAnswer::Text(shown) => {
            let shown = shown.as_bytes();
            let _fits = copy_answers(shown, text);
            *out = TypedResult {
                number: shown.len() as u64,
                kind: TEXT,
            };
            DONE
        }
        ReadAnswer::Refused(fault) => {
            out.kind = REFUSED;
            fault.number() as u8
        }
    }
}
