//! What a check says of a log, and why it may fail.

use crate::line_fault::LineFault;
use crate::reason::Reason;
use step_rules::step::Answer;
use thiserror::Error;

/// What a legal log leaves at its end.
#[derive(Clone, Copy)]
pub struct LogEnd {
    /// How many units have no reference.
    pub units: u32,
    /// How many pages are pending, for all groups together.
    pub pending: u128,
    /// The CPU that holds the lock.
    pub holder: Option<u32>,
}

/// A step whose answer the rules don't allow. Lines and steps are counted from 1.
#[derive(Clone, Copy)]
pub struct IllegalStep {
    /// Its line.
    pub line: u64,
    /// Its number among the steps.
    pub step: u64,
    /// An answer that the rules allow there: `Illegal` if the step may not be made at all.
    pub expected: Answer,
    /// Why.
    pub reason: Reason,
}

/// What a check says of the text of a log.
#[derive(Drop)]
pub enum LogVerdict {
    /// The log is a legal run.
    Legal {
        /// How many steps it has.
        steps: u64,
        /// After how many of them the lock was free.
        free: u64,
        /// What it leaves at its end.
        end: LogEnd,
    },
    /// The rules don't allow the answer of some step. This is the first one.
    NotLegal(IllegalStep),
    /// The rules don't allow the answers of some steps, each judged in the state that the legal steps before it made.
    LeftOut {
        /// How many steps the log has.
        steps: u64,
        /// How many of them aren't legal.
        count: u64,
        /// The first 1,000 of these.
        first: Vec<IllegalStep>,
    },
    /// The text is not the text of a log.
    BadLine {
        /// The first line that no log continues with, counted from 1.
        line: u64,
        /// Why.
        fault: LineFault,
    },
}

/// Why a check fails.
#[derive(Clone, Copy, Debug, PartialEq, Eq, Error)]
pub enum LogFault {
    /// The reader failed, with any error.
    #[error("input failed")]
    Input,
    /// Memory ran out.
    #[error("no memory")]
    NoMemory,
}
