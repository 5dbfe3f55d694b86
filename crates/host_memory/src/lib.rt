//! What both libraries for C share: the sizes, statuses, results and report that cross to C, the version of its headers, a
//! box behind a raw pointer, and a text for a host's buffer. And a cell whose value is taken and put back.
#![tactic(auto)]

pub mod box_parts;
pub mod buffers;
pub mod groups;
pub mod kinds;
pub mod report;
pub mod sizes;
pub mod status;
pub mod try_cell;
pub mod typed_result;
pub mod version;
