//! The calls that start a boot, give it lines of a script, and end it.

ghost use Rattle.std.specs.Prelude.{◌≡◌, ◌≢◌, ◌↔◌, None};
ghost use Rattle.tempolemon_c.specs.Behind.{behind};
ghost use Rattle.host_memory.specs.{AreSizes, ExceedsBuffer, FillsBuffer, config_of, bad_config, bad_version, done, header_version};
ghost use Rattle.host_memory.specs.{is_live, no_memory, not_live, small_buffer};
ghost use Rattle.tempolemon_c.specs.Handles.{AnswersAndStoresUnread, AnswersLines, BootsNew, EndsBoot, HasUnread};
ghost use Rattle.tempolemon_c.specs.Handles.{LinesRunOut, RefusesLines, TakesUnread};
ghost use Rattle.tempolemon_c.specs.Statuses.{IsAnswerStatus, IsBootStatus, IsEndStatus, IsLinesStatus, bad_line};

use crate::handle::Handle;
use crate::requests::{Request, RequestAnswer};
use crate::status::BAD_LINE;
use host_memory::buffers::copy_answers;
use host_memory::report::Report;
use host_memory::sizes::Sizes;
use host_memory::status::{
    BAD_CONFIG, BAD_VERSION, DONE, IS_LIVE, NO_MEMORY, NOT_LIVE, SMALL_BUFFER,
};
use host_memory::version::HEADER_VERSION;
use mem_system::{BootFault, boot};
use std::alloc::Global;

/// Boots a zone of these sizes behind a handle that has none, for a host that was compiled with the headers of this
/// version. Unless the status is 0, nothing of the boot stays.
#[unsafe(no_mangle)]
pub extern "C" fn tempolemon_boot_as(
    alloc: Global,
    version: u32,
    sizes: &Sizes,
    handle: &mut Handle,
) -> u8
    ensures statuses { IsBootStatus result }
    ensures bad_version { (result ≡ bad_version) ↔ (version ≢ header_version) }
    ensures refused_live { (result ≡ is_live) ↔ ((version ≡ header_version) × (behind handle.old ≢ None)) }
    ensures bad_sizes { (result ≡ bad_config)
        ↔ ((version ≡ header_version) × (behind handle.old ≡ None) × (¬ AreSizes sizes.now)) }
    ensures booted { result ≡ done → BootsNew (config_of sizes.now) (behind handle.new) }
    ensures stays { result ≢ done → behind handle.new ≡ behind handle.old }
{
    // (nothing before this: the sizes and the handle of another version may have another form)
    if version != HEADER_VERSION {
        return BAD_VERSION;
    }
    if handle.is_live() {
        return IS_LIVE;
    }
    let Some(config) = sizes.config(version) else {
        return BAD_CONFIG;
    };
    match boot(alloc, config) {
        Ok(boot) => {
            if handle.start(alloc, boot, config) {
                DONE
            } else {
                NO_MEMORY
            }
        }
        Err(BootFault::BadConfig) => BAD_CONFIG,
        Err(BootFault::NoMemory) => NO_MEMORY,
    }
}

/// Ends the boot, and reports what it counted. Pins that are still held are put first.
#[unsafe(no_mangle)]
pub extern "C" fn tempolemon_end(alloc: Global, handle: &mut Handle, report: &mut Report) -> u8
    ensures statuses { IsEndStatus result }
    ensures none_live { (result ≡ not_live) ↔ (behind handle.old ≡ None) }
    ensures ended { result ≡ done → EndsBoot (behind handle.old) (behind handle.new) report.new }
    ensures none_left { behind handle.new ≡ None }
    ensures report_stays { result ≢ done → report.new ≡ report.old }
{
    if !handle.is_live() {
        return NOT_LIVE;
    }
    *report = handle.finish(alloc);
    DONE
}

/// Serves lines of a script, in order, and writes the answers that the program's `replay` gives them. A bad line is
/// found before the first line is served.
///
/// How long an answer is shows only once its line was served, and then it can't be undone. So if the buffer is too
/// small for the answers, the boot stores them, and `written` is the length that they need: `tempolemon_answer` fetches
/// them. They take the place of answers that were unread before.
#[unsafe(no_mangle)]
pub extern "C" fn tempolemon_command(
    alloc: Global,
    handle: &mut Handle,
    is_explained: bool,
    script: &[u8],
    answers: &mut [u8],
    written: &mut usize,
    first_bad: &mut usize,
) -> u8
    ensures statuses { IsLinesStatus result }
    ensures none_live { (result ≡ not_live) ↔ (behind handle.old ≡ None) }
    ensures answered { result ≡ done → FillsBuffer
        (AnswersLines script.now is_explained (behind handle.old) (behind handle.new))
        answers.old answers.new written.new }
    ensures too_small { result ≡ small_buffer → ExceedsBuffer
        (AnswersAndStoresUnread script.now is_explained (behind handle.old) (behind handle.new))
        answers.old written.new }
    ensures first_bad_line { result ≡ bad_line
        → RefusesLines script.now first_bad.new (behind handle.old) (behind handle.new) }
    ensures ran_out { result ≡ no_memory
        → LinesRunOut script.now is_explained (behind handle.old) (behind handle.new) }
    ensures stays { result ≡ not_live → behind handle.new ≡ behind handle.old }
    ensures buffer_stays { result ≢ done → answers.new ≡ answers.old }
    ensures no_length { result ≢ done → result ≢ small_buffer → written.new ≡ 0 }
    ensures no_bad_line { result ≢ bad_line → first_bad.new ≡ 0 }
{
    *written = 0;
    *first_bad = 0;
    if !handle.is_live() {
        return NOT_LIVE;
    }
    let Ok(text) = Vec::from_slice(alloc, script) else {
        return NO_MEMORY;
    };
    match handle.ask(
        alloc,
        Request::Lines {
            alloc,
            text,
            is_explained,
        },
    ) {
        RequestAnswer::Text(told) => {
            *written = told.len();
            if copy_answers(&told, answers) {
                return DONE;
            }
            let _stored = handle.ask(alloc, Request::StoreUnread { text: told });
            SMALL_BUFFER
        }
        RequestAnswer::BadLine(number) => {
            *first_bad = number;
            BAD_LINE
        }
        RequestAnswer::NoMemory => NO_MEMORY,
        _ => unreachable!(),
    }
}

/// Fetches the unread answers, which the boot stores because a buffer was too small for them. If this buffer is too
/// small as well, they stay unread. If none are unread, it gives an empty text.
#[unsafe(no_mangle)]
pub extern "C" fn tempolemon_answer(
    alloc: Global,
    handle: &mut Handle,
    answers: &mut [u8],
    written: &mut usize,
) -> u8
    ensures statuses { IsAnswerStatus result }
    ensures none_live { (result ≡ not_live) ↔ (behind handle.old ≡ None) }
    ensures fetched { result ≡ done → FillsBuffer
        (TakesUnread (behind handle.old) (behind handle.new)) answers.old answers.new written.new }
    ensures too_small { result ≡ small_buffer
        → ExceedsBuffer (HasUnread (behind handle.old)) answers.old written.new }
    ensures no_length { result ≡ not_live → written.new ≡ 0 }
    ensures stays { result ≢ done → behind handle.new ≡ behind handle.old }
    ensures buffer_stays { result ≢ done → answers.new ≡ answers.old }
{
    if !handle.is_live() {
        *written = 0;
        return NOT_LIVE;
    }
    match handle.ask(alloc, Request::TakeUnread { alloc }) {
        RequestAnswer::Text(told) => {
            *written = told.len();
            if copy_answers(&told, answers) {
                return DONE;
            }
            let _still = handle.ask(alloc, Request::StoreUnread { text: told });
            SMALL_BUFFER
        }
        _ => unreachable!(),
    }
}
