//! The taps of all drivers, in a table of inputs and then gates.

ghost use Rattle.std.specs.Prelude.{◌≡◌, ◌+◌, ◌^◌, ◌<◌, [], All, IfOk, length, replicate, slice_index};
ghost use Rattle.gate_net.specs.Net.{IsThere};
ghost use Rattle.splitters.specs.Table.{HasTaps, slot};

use crate::taps::Taps;
use gate_net::Driver;
use net_base::NoMemory;
use std::alloc::Global;

/// The place of a driver in the table.
pub(crate) fn slot(inputs: u32, driver: Driver) -> usize
    requires { IsThere inputs (2 ^ 31) driver }
    ensures { result ≡ slot inputs driver }
{
    match driver {
        Driver::Input(i) => i as usize,
        Driver::Gate(k) => inputs as usize + k as usize,
    }
}

// A table without pins.
fn empty_table(alloc: Global, slots: usize) -> Result<Vec<Taps>, NoMemory>
    ensures { IfOk result (λ table. table.items ≡ replicate slots []) }
{
    let mut table = Vec::with_capacity(alloc, slots)?;
    for _ in 0..slots {
        table.push(Taps::new(alloc))?;
    }
    Ok(table)
}

/// The need of a pin.
pub(crate) fn need(needs: &[u32], pin: usize) -> u32
    ensures { result ≡ slice_index needs.now pin }
{
    needs.get(pin).copied().unwrap_or(0)
}

/// The taps of each driver, from the driver and the need of each pin.
pub(crate) fn gather(
    alloc: Global,
    inputs: u32,
    gates: usize,
    drivers: &[Driver],
    needs: &[u32],
) -> Result<Vec<Taps>, NoMemory>
    requires there { All (IsThere inputs gates) drivers.now }
    requires few_gates { gates < 2 ^ 31 }
    requires few_pins { length drivers.now < 2 ^ 31 }
    ensures count { IfOk result (λ table. length table.items ≡ inputs + gates) }
    ensures taps { IfOk result (λ table. HasTaps inputs gates needs.now drivers.now table.items) }
{
    let mut table = empty_table(alloc, inputs as usize + gates)?;
    for (pin, driver) in drivers.iter().enumerate() {
        table[slot(inputs, *driver)].add(alloc, need(needs, pin), pin as u32)?;
    }
    Ok(table)
}
