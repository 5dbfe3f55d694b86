//! The texts of the zone. Each call settles its CPU, tries the lock, and takes memory for the text.

ghost use Rattle.zone_threads.specs.declared.texts.TextCall.TheVariants.{Blocks, Show, Stock};
ghost use Rattle.tempolemon_threads.specs.Behind.{part_behind};
ghost use Rattle.tempolemon_threads.specs.Calls.{ShowsInto, ShowsUnits};

use crate::handles::CpuPart;
use crate::status::BUSY;
use group_tree::fault::Fault;
use host_memory::buffers::copy_answers;
use host_memory::status::{DONE, NO_MEMORY, NOT_LIVE, SMALL_BUFFER};
use std::alloc::Global;
use zone_threads::texts::{TextAnswer, TextCall};

/// The place of each frame, and the usage of each group.
#[unsafe(no_mangle)]
pub extern "C" fn tempolemon_try_show(
    alloc: Global,
    part: &mut CpuPart,
    text: &mut [u8],
    written: &mut usize,
) -> u8
    ensures { ShowsInto Show (part_behind part.old) (part_behind part.new) result text.old text.new written.new }
{
    give(alloc, part, TextCall::Show, text, written)
}

/// The free blocks.
#[unsafe(no_mangle)]
pub extern "C" fn tempolemon_try_blocks(
    alloc: Global,
    part: &mut CpuPart,
    text: &mut [u8],
    written: &mut usize,
) -> u8
    ensures { ShowsInto Blocks (part_behind part.old) (part_behind part.new) result text.old text.new written.new }
{
    give(alloc, part, TextCall::Blocks, text, written)
}

/// The CPU's stock, and how many frames and pins it has.
#[unsafe(no_mangle)]
pub extern "C" fn tempolemon_try_stock(
    alloc: Global,
    part: &mut CpuPart,
    text: &mut [u8],
    written: &mut usize,
) -> u8
    ensures { ShowsInto Stock (part_behind part.old) (part_behind part.new) result text.old text.new written.new }
{
    give(alloc, part, TextCall::Stock, text, written)
}

/// The kept units of the group of this path.
#[unsafe(no_mangle)]
pub extern "C" fn tempolemon_try_units(
    alloc: Global,
    part: &mut CpuPart,
    path: &[u8],
    text: &mut [u8],
    written: &mut usize,
) -> u8
    ensures { ShowsUnits path.now (part_behind part.old) (part_behind part.new)
        result text.old text.new written.new }
{
    *written = 0;
    let Ok(path) = Vec::from_slice(alloc, path) else {
        return NO_MEMORY;
    };
    give(alloc, part, TextCall::Units { path }, text, written)
}

// Asks for a text, and writes it at the start of the buffer, if that has room for it.
fn give(
    alloc: Global,
    part: &mut CpuPart,
    asked: TextCall,
    buffer: &mut [u8],
    written: &mut usize,
) -> u8
    ensures { ShowsInto asked (part_behind part.old) (part_behind part.new)
        result buffer.old buffer.new written.new }
{
    *written = 0;
    if !part.is_live() {
        return NOT_LIVE;
    }
    match part.text(alloc, asked) {
        None => BUSY,
        Some(TextAnswer::NoGroup) => Fault::NoGroup.number() as u8,
        Some(TextAnswer::NoMemory) => NO_MEMORY,
        Some(TextAnswer::Text(shown)) => {
            *written = shown.len();
            if copy_answers(&shown, buffer) {
                DONE
            } else {
                SMALL_BUFFER
            }
        }
    }
}
