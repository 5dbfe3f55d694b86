//! Why the lines of a script are bad: every bad line, the byte from which on no good line goes on, and the cause there.
//! And which good lines are refused, whatever groups there are.
#![tactic(auto)]

mod beginning;
mod cause;
pub mod finding;
mod form;
mod line;
mod near;
mod past;
pub mod refusal;
pub mod refused;
mod script;
mod text;

pub use refused::{refused_lines, write_refused};
pub use script::{lint_script, lint_text};
pub use text::{write_cause, write_findings, write_sizes};
