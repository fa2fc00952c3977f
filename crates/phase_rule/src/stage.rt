//! The weight of a pin.

ghost use Rattle.std.specs.Prelude.{◌≡◌};
ghost use Rattle.phase_rule.specs.Stages.{weight_of};

/// The least gap in epochs from a driver of the phase `driver` to a user of the phase `user`: 0 or 1.
pub fn weight(user: u32, driver: u32) -> u32
    ensures { result ≡ weight_of user driver }
{
    if driver < user { 0 } else { 1 }
}
