//! Entries of gates, found by their drivers.

ghost use Rattle.std.specs.Prelude.{◌≡◌};
ghost use Rattle.gate_net.specs.Entries.{entry_of};

use crate::Driver;

/// The entry of a driver, where there is one for each gate: 0 of an input, and of a gate past the last, which a
/// well-formed netlist has not. Levels, phases, epochs and stages are such entries.
pub fn entry(entries: &[u32], driver: Driver) -> u32
    ensures { result ≡ entry_of entries.now driver }
{
    match driver {
        Driver::Input(_) => 0,
        Driver::Gate(k) => entries.get(k as usize).copied().unwrap_or(0),
    }
}
