//! The controller for hosts in C, and in languages that call C. `include/tempolemon.h` declares each call.
//!
//! A boot lives behind a handle. Its parts carry the name of its table (`BootName`), and a struct that crosses to C
//! can't have such a name. So `RawBoot` is a pointer to the parts in a box, and remembers which table they are of. Each
//! of `serve_raw`, `call_raw` and `show_raw` picks a name that has that table, and calls plain code over the box. Proved
//! by hand are only the moves between that pointer, a pointer under a name (`LivePointer`), and the box.
//!
//! A call gets memory through pointers that the host promises to be good: never null, to as many bytes as it says, and
//! no two of them to the same bytes. Everything else is tested, and each refusal has a status of its own.
#![tactic(auto)]

ghost use Rattle.std.specs.Prelude.{◌≡◌, ◌≢◌, ◌↔◌};
ghost use Rattle.script_lines.specs.Script.{IsFirstBadLine};
ghost use Rattle.host_memory.specs.{FillsBuffer, AreSizes, ExceedsBuffer, config_of, bad_config, bad_version, done};
ghost use Rattle.host_memory.specs.{header_version};
ghost use Rattle.host_memory.specs.{small_buffer};
ghost use Rattle.tempolemon_c.specs.Replays.{IsReplayAnswer};
ghost use Rattle.tempolemon_c.specs.Statuses.{IsReplayStatus, bad_line};

mod boots;
mod calling;
pub mod calls;
mod fault;
mod frames;
mod groups;
mod handle;
mod handle_calls;
pub mod laws;
pub mod live;
pub mod live_pointer;
pub mod raw;
mod replaying;
pub mod requests;
pub mod serving;
mod status;
mod typed_result;

use crate::fault::ReplayFault;
use crate::replaying::answer_script;
use crate::status::BAD_LINE;
use host_memory::buffers::copy_answers;
use host_memory::sizes::Sizes;
use host_memory::status::{BAD_CONFIG, BAD_VERSION, DONE, NO_MEMORY, SMALL_BUFFER};
use host_memory::version::HEADER_VERSION;
use std::alloc::Global;

/// Boots a zone of these sizes, replays the script on it, and ends the boot. The answers are those of the program's
/// `replay`, byte for byte.
///
/// The version of the host's header is judged first, then the sizes, then the script. A buffer that is too small gets nothing: `written` is the length that
/// it needs, and the call can be made again. Nothing of the boot stays, whatever the status.
#[unsafe(no_mangle)]
pub extern "C" fn tempolemon_replay_as(
    alloc: Global,
    version: u32,
    sizes: &Sizes,
    is_explained: bool,
    is_audited: bool,
    script: &[u8],
    answers: &mut [u8],
    written: &mut usize,
    first_bad: &mut usize,
) -> u8
    ensures statuses { IsReplayStatus result }
    ensures bad_version { (result ≡ bad_version) ↔ (version ≢ header_version) }
    ensures bad_sizes { (result ≡ bad_config)
        ↔ ((version ≡ header_version) × (¬ AreSizes sizes.now)) }
    ensures first_bad_line { result ≡ bad_line → IsFirstBadLine (config_of sizes.now) script.now first_bad.new }
    ensures answered { result ≡ done → FillsBuffer
        (IsReplayAnswer (config_of sizes.now) is_explained is_audited script.now) answers.old answers.new written.new }
    ensures too_small { result ≡ small_buffer → ExceedsBuffer
        (IsReplayAnswer (config_of sizes.now) is_explained is_audited script.now) answers.old written.new }
    ensures buffer_stays { result ≢ done → answers.new ≡ answers.old }
    ensures no_length { version ≡ header_version → result ≢ done → result ≢ small_buffer → written.new ≡ 0 }
    ensures no_bad_line { version ≡ header_version → result ≢ bad_line → first_bad.new ≡ 0 }
    ensures length_stays { result ≡ bad_version → written.new ≡ written.old }
    ensures line_stays { result ≡ bad_version → first_bad.new ≡ first_bad.old }
{
    // (nothing before this: what another version's pointers lead to may have another form)
    if version != HEADER_VERSION {
        return BAD_VERSION;
    }
    *written = 0;
    *first_bad = 0;
    let Some(config) = sizes.config(version) else {
        return BAD_CONFIG;
    };
    match answer_script(alloc, config, script, is_explained, is_audited) {
        Ok(text) => {
            *written = text.len();
            if copy_answers(&text, answers) {
                DONE
            } else {
                SMALL_BUFFER
            }
        }
        Err(ReplayFault::BadConfig) => BAD_CONFIG,
        Err(ReplayFault::BadLine(number)) => {
            *first_bad = number;
            BAD_LINE
        }
        Err(ReplayFault::NoMemory) => NO_MEMORY,
    }
}

/// The version of the headers that the library was made for.
#[unsafe(no_mangle)]
pub extern "C" fn tempolemon_version() -> u32
    ensures { result ≡ header_version }
{
    HEADER_VERSION
}
