//! The program `memcg` without its process: from the words of the command line and the bytes of an input to an output
//! and a status. It answers a script by one boot (`replay`) or by threads (`run`), writes the steps and the
//! answers of a replay as a log (`--steps`), answers the lines of a session one by one, or with their parts of a log
//! (`serve`), checks a log (`check`), lints a script (`lint`), or writes its version.
//!
//! With status 0 the output got the whole result, and nothing was found against the log or the script. Status 3 is the
//! same with `--strict`, if some answer is a refusal. With status 1 the log isn't legal, the lint found something, or
//! the work failed; with 2 the words, the script, the log or the sizes are refused. The fault writer gets the cause of
//! a failure or a refusal, as far as it takes it. Over streams of unknown bytes the status alone is promised.
#![tactic(auto)]

pub mod boot_end;
pub mod checked_replaying;
pub mod checking;
pub mod fault;
pub mod fault_lines;
pub mod laws;
pub mod linting;
pub mod logging;
pub mod program;
pub mod reading;
mod refusals;
pub mod replaying;
pub mod serving;
mod survey;
pub mod thread_running;
pub mod versions;

pub use load_options::command_line::options;
pub use load_options::fault::WordsFault;
pub use load_options::task::{Options, Task};
pub use script_lines::fault::ScriptFault;
pub use script_lines::line::Line;
pub use script_lines::script::parse_script;
pub use script_replay::{Form, Gate, NoGate, replay_by_visits, run_lines};
