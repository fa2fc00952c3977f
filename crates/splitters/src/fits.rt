//! Whether gates with shared chains can be laid out.

ghost use Rattle.std.specs.Prelude.{◌≡◌, ◌<◌, ◌+◌, ◌*◌, ◌^◌, ◌↔◌, All, IsTrue, IfOk, length, sum};
ghost use Rattle.gate_net.specs.Net.{IsGateNet, IsThere, pin_drivers};
ghost use Rattle.splitters.specs.Taps.{CanSplit, FewWires, StagesFit};
ghost use Rattle.splitters.specs.Table.{HasLengths};

use crate::table::{need, slot};
use dro_chains::Chained;
use gate_net::{Driver, entry, pin_drivers};
use net_base::NoMemory;
use std::alloc::Global;

// Whether the stage of a DRO fits, `need` times n behind a driver.
fn dro_fits(stage: u32, n: u32, need: u32) -> bool
    ensures { IsTrue result ↔ (stage + n * need < 2 ^ 32) }
{
    match n.checked_mul(need) {
        Some(gap) => stage.checked_add(gap).is_some(),
        None => false,
    }
}

// Whether the stages fit that the pins take from.
fn stages_fit(chained: &Chained, drivers: &[Driver]) -> bool
    requires { drivers.now ≡ pin_drivers chained.now.gates }
    ensures { IsTrue result ↔ StagesFit chained.now }
{
    for (pin, driver) in drivers.iter().enumerate() {
        let need = need(chained.needs.as_slice(), pin);
        let stage = entry(chained.stages.as_slice(), *driver);
        if !dro_fits(stage, chained.n, need) {
            return false;
        }
    }
    true
}

// The length of each driver's chain, the largest need of its pins, in a table of inputs and then gates.
fn chain_lengths(
    alloc: Global,
    inputs: u32,
    gates: usize,
    drivers: &[Driver],
    needs: &[u32],
) -> Result<Vec<u32>, NoMemory>
    requires there { All (IsThere inputs gates) drivers.now }
    requires few_gates { gates < 2 ^ 31 }
    ensures count { IfOk result (λ lengths. length lengths.items ≡ inputs + gates) }
    ensures each { IfOk result (λ lengths. HasLengths inputs gates needs.now drivers.now lengths.items) }
{
    let mut lengths = vec![in alloc; 0u32; inputs as usize + gates]?;
    for (pin, driver) in drivers.iter().enumerate() {
        let place = slot(inputs, *driver);
        lengths[place] = lengths[place].max(need(needs, pin));
    }
    Ok(lengths)
}

// Whether the sum of some numbers is below a limit. The sum itself may not fit.
fn is_sum_below(numbers: &[u32], limit: u64) -> bool
    ensures { IsTrue result ↔ (sum numbers.now < limit) }
{
    let mut left = limit;
    for number in numbers {
        let number = u64::from(*number);
        if number >= left {
            return false;
        }
        left -= number;
    }
    left > 0
}

// Whether there are few wires.
fn wires_fit(alloc: Global, chained: &Chained, drivers: &[Driver]) -> Result<bool, NoMemory>
    requires formed { IsGateNet chained.now.gates }
    requires drivers { drivers.now ≡ pin_drivers chained.now.gates }
    requires few_pins { length drivers.now < 2 ^ 31 }
    ensures { IfOk result (λ fit. IsTrue fit ↔ FewWires chained.now) }
{
    let gates = chained.gates.gates.len();
    let inputs = chained.gates.inputs;
    let lengths = chain_lengths(alloc, inputs, gates, drivers, chained.needs.as_slice())?;
    let others = 2 * drivers.len() as u64 + gates as u64 + 2;
    let left = (1u64 << 32).saturating_sub(others);
    Ok(is_sum_below(lengths.as_slice(), left))
}

/// Whether gates with shared chains can be laid out: they have fewer than 2 ^ 31 pins, the stage of each DRO fits, and so
/// do the numbers of wires, by their count of DROs, pins and gates.
/// What `chains` answers always can, where it means a netlist (`chains_can_be_split`); this is for a caller with other
/// chains. `NoMemory` is the only error.
pub fn can_split(alloc: Global, chained: &Chained) -> Result<bool, NoMemory>
    requires { IsGateNet chained.now.gates }
    ensures exact { IfOk result (λ can. IsTrue can ↔ CanSplit chained.now) }
{
    let drivers = pin_drivers(alloc, &chained.gates)?;
    if drivers.len() >= 1 << 31 || !stages_fit(chained, drivers.as_slice()) {
        return Ok(false);
    }
    wires_fit(alloc, chained, drivers.as_slice())
}
