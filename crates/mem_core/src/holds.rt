//! Tests on who holds the lock, exactly as the rules have them.

ghost use Rattle.std.specs.Prelude.{◌≡◌};
ghost use Rattle.step_rules.specs.State.{is_unheld, is_held_by, visits, may_zone_act};

use step_rules::phase::Hold;

/// The zone's own seat, which acts while a CPU holds the lock.
pub const ZONE_SEAT: u32 = 0;

/// The lock is free.
pub fn is_unheld(hold: Hold) -> bool
    ensures { result ≡ is_unheld hold }
{
    match hold {
        Hold::Unheld => true,
        Hold::HeldBy(_) => false,
        Hold::Visiting(_) => false,
    }
}

/// The CPU holds the lock, and its visit isn't open.
pub fn is_held_by(hold: Hold, cpu: u32) -> bool
    ensures { result ≡ is_held_by cpu hold }
{
    match hold {
        Hold::Unheld => false,
        Hold::HeldBy(holder) => holder == cpu,
        Hold::Visiting(_) => false,
    }
}

/// The CPU holds the lock, and its visit is open.
pub fn visits(hold: Hold, cpu: u32) -> bool
    ensures { result ≡ visits cpu hold }
{
    match hold {
        Hold::Unheld => false,
        Hold::HeldBy(_) => false,
        Hold::Visiting(holder) => holder == cpu,
    }
}

/// The seat is the zone's own, and a CPU holds the lock.
pub fn may_zone_act(hold: Hold, seat: u32) -> bool
    ensures { result ≡ may_zone_act hold seat }
{
    seat == ZONE_SEAT && !is_unheld(hold)
}
