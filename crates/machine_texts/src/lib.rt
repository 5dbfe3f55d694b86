//! The texts that show the machine: the places of the frames, what each group uses, the free blocks, the kept units of
//! a group, and a CPU's stock; and what memory.stat shows. And those that explain an answer: why a command is refused,
//! what was tried, which units were reclaimed, and who was killed.
#![tactic(auto)]

mod blocks;
mod characters;
mod explanation;
mod lines;
mod parts;
mod places;
mod refused;
mod show;
mod stat;
mod stock;
mod units;

pub use blocks::write_blocks;
pub use characters::push_characters;
pub use explanation::write_explanation;
pub use refused::write_refused;
pub use show::write_show;
pub use stat::memory_stat;
pub use stock::write_stock;
pub use units::write_units;
