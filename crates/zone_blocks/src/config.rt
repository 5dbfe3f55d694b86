//! How large the zone and its parts are.

ghost use Rattle.std.specs.Prelude.{◌↔◌, IsTrue};

use crate::choices::Choices;

/// The sizes that a zone is booted with. A value may be out of range until `is_valid` was asked.
#[derive(Clone, Copy, Debug, PartialEq, Eq)]
pub struct Config {
    /// Frames of the zone, numbered from 0: 1 to 1,048,576.
    pub frames: u32,
    /// CPUs, numbered from 1: 1 to 64.
    pub cpus: u32,
    /// Frames by which a CPU's list is refilled or cut: 1 to 64.
    pub batch: u32,
    /// Frames at which a CPU's list is cut: `batch` to 256.
    pub high: u32,
    /// Pages that a CPU prepays at once: 1 to 64.
    pub stock: u32,
    /// How the zone reclaims, and whether it kills.
    pub choices: Choices,
}

impl Config {
    ghost use Rattle.zone_blocks.specs.Config.{IsValidConfig};

    /// The most frames of a zone.
    pub const MAX_FRAMES: u32 = 1_048_576;

    /// The most CPUs.
    pub const MAX_CPUS: u32 = 64;

    /// The most frames of a refill or cut.
    pub const MAX_BATCH: u32 = 64;

    /// The greatest length at which a list is cut.
    pub const MAX_HIGH: u32 = 256;

    /// The most pages of a prepayment.
    pub const MAX_STOCK: u32 = 64;

    /// Whether every value is in its range.
    pub fn is_valid(&self) -> bool
        ensures { IsTrue result ↔ IsValidConfig self.now }
    {
        let frames = 1 <= self.frames && self.frames <= Config::MAX_FRAMES;
        let cpus = 1 <= self.cpus && self.cpus <= Config::MAX_CPUS;
        let batch = 1 <= self.batch && self.batch <= Config::MAX_BATCH;
        let high = self.batch <= self.high && self.high <= Config::MAX_HIGH;
        let stock = 1 <= self.stock && self.stock <= Config::MAX_STOCK;
        frames && cpus && batch && high && stock && self.choices.is_valid()
    }
}
