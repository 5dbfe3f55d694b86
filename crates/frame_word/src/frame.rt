//! The number of a frame.
use std::marker::Model;

/// A frame's number, from 0 up. `BootWords::frame` (`boot_words`) makes it.
#[derive(Clone, Copy, PartialEq, Eq, Debug)]
pub struct Frame {
    number: u32,
}

impl Model for Frame {
    ghost use Rattle.std.specs.Prelude.{ℕ};

    ghost Value = { ℕ };

    ghost view = { λ f. f.number };

    ghost inverse = { λ n. record { number = n } };
}

impl Frame {
    ghost use Rattle.std.specs.Prelude.{◌≡◌};

    /// The frame of this number. The caller sees to it that the zone has it.
    pub fn new(number: u32) -> Frame
        ensures { result ≡ number }
    {
        Frame { number }
    }

    /// The frame's number.
    pub fn number(self) -> u32
        ensures { result ≡ self }
    {
        self.number
    }
}
