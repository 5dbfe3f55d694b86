//! The lines of a log.

use step_rules::step::{Answer, Step};

/// One line of a log.
#[derive(Clone, Copy)]
pub enum LogLine {
    /// An empty line, or a comment.
    Skipped,
    /// The sizes of the zone, given once, before the first step: its frames and CPUs, and how many groups it has room
    /// for.
    Zone { frames: u32, cpus: u32, groups: u32 },
    /// A step and its answer.
    Step { step: Step, answer: Answer },
}
