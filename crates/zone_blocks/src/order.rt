//! The order of a block: the exponent of its number of frames.

ghost use Rattle.std.specs.Prelude.{◌≡◌, ◌^◌, ◌≤◌, ◌<◌, MatchOption};

use std::marker::Model;

/// The order of a block, 0 to 10: a block of order k has 2^k frames. A contract sees the number. It takes one byte,
/// since the record of a frame may hold one.
#[derive(Clone, Copy, Debug, PartialEq, Eq, PartialOrd, Ord)]
pub struct Order {
    exponent: u8,
}

impl Model for Order {
    ghost use Rattle.std.specs.Prelude.{ℕ, ◌≤◌};

    ghost Value = { ℕ };

    ghost view = { λ order. order.exponent };

    ghost invariant = { λ order. order.exponent ≤ 10 };

    ghost inverse = { λ n. record { exponent = n } };
}

impl Order {
    /// The greatest order: a block of order 10 has 1,024 frames.
    pub const GREATEST: u32 = 10;

    /// How many orders there are.
    pub const COUNT: u32 = Order::GREATEST + 1;

    /// The order with this exponent. None exactly if it is above 10.
    pub fn of(exponent: u32) -> Option<Order>
        ensures { MatchOption result (10 < exponent) (λ order. (order ≡ exponent) × (exponent ≤ 10)) }
    {
        if exponent <= Order::GREATEST {
            Some(Order {
                exponent: exponent as u8,
            })
        } else {
            None
        }
    }

    /// The exponent, 0 to 10.
    pub fn exponent(self) -> u32
        ensures exponent { result ≡ self }
        ensures at_most { result ≤ 10 }
    {
        u32::from(self.exponent)
    }

    /// How many frames a block of this order has.
    pub fn frames(self) -> u32
        ensures frames { result ≡ 2 ^ self }
        ensures at_most { result ≤ 1024 }
        ensures order { self ≤ 10 }
    {
        1 << self.exponent
    }
}
