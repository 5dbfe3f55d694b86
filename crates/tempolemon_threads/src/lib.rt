//! The controller for hosts in C with threads: one zone, and a CPU for each thread. `include/tempolemon_threads.h`
//! declares each call.
//!
//! A call gets memory through pointers that the host promises to be good: never null, to as many bytes as it says, and
//! no two of them to the same bytes. A handle is used by one call at a time. Everything else is tested, and each refusal
//! has a status of its own. No call waits.
//!
//! A handle has a home of `zone_threads`, which carries the name of its boot's table (`BootName`). A struct that crosses
//! to C can't have such a name. So `RawHome` is a pointer to a home in a box, and remembers which table it is of. Each
//! of `serve_raw`, `call_raw`, `read_raw` and `fork_raw` picks a name that has that table, and calls plain code. Proved
//! by hand are only the moves between that pointer, a pointer under a name (`HomePointer`), and the box.
#![tactic(auto)]

mod calling;
mod frames;
mod group_pages;
mod groups;
mod handle_calls;
mod handles;
pub mod home_pointer;
pub mod raw;
pub mod requests;
pub mod serving;
mod status;
mod texts;
mod typed_result;
mod zones;
