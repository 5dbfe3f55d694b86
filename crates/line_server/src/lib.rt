//! A session with a boot: each line is answered before the next one is read. An answer is what `replay` writes for the
//! line, with an empty line after it; or it is the line's part of a log. A bad line is answered with the reason, and
//! changes nothing.
//!
//! Lines are read one at a time, and nothing behind a line feed, so an answer can be written before the next line is
//! asked for. No more than a line of 1,024 bytes is kept.
#![tactic(auto)]

mod answering;
mod comments;
pub mod fault;
pub mod form;
mod input_line;
pub mod laws;
mod logging;
pub mod reading;
mod refusing;
pub mod server;
pub mod writing;

pub use comments::add_answer;
pub use fault::ServeFault;
pub use form::SessionForm;
pub use logging::{add_steps, log_line};
pub use reading::{Found, ReadFault, read_line};
pub use server::Server;
pub use writing::{write_and_flush, write_whole};
