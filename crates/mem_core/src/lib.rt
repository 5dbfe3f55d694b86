//! The core that is written to be read: it makes the steps of CPUs one by one on plain lists, and answers each as the
//! rules of `step_rules` allow. Of the program only the checks run on it, of a log (`check`) and of a replay's own
//! steps (`replay --check`).
//!
//! Its state is `Rows`, plain lists and numbers. `legal` has the conditions of each action. Each action has a function
//! that answers it and one that makes it; some of these use a parameter, such as the seat, in their contract alone.
#![tactic(auto)]

pub mod account;
mod accounts;
pub mod blocks;
pub mod boot;
pub mod check;
pub mod checker;
pub mod claims;
pub mod conditions;
pub mod due;
mod free_areas;
pub mod groups;
pub mod hand_over;
pub mod holds;
pub mod legal;
pub mod lock;
pub mod meeting;
pub mod phase_table;
pub mod phases;
pub mod quantity;
pub mod reading_core;
pub mod reference_counts;
pub mod references;
pub mod rows;
pub mod run;
pub mod seat;
pub mod serve;
pub mod stocks;
pub mod sums;
pub mod tally;
pub mod verdict;

pub use step_rules::step::{Action, Answer, Step};
pub use zone_blocks::config::Config;
