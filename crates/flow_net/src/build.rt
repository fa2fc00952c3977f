//! The network of a gate netlist.

ghost use Rattle.std.specs.Prelude.{◌≡◌, ◌+◌, ◌^◌, ◌<◌, ◌≤◌, All, IfOk, length, map, slice_index};
ghost use Rattle.std.specs.List.{flat_map};
ghost use Rattle.gate_net.specs.Net.{IsThere, IsGateNet, AreGates, end_drivers};
ghost use Rattle.flow_net.specs.Uses.{number_by, gate_uses, uses_of};
ghost use Rattle.flow_net.specs.Network.{vertex_of, vertex_phase, pin_by, network_of, HasNetwork};

use crate::numbers::input_numbers;
use crate::uses::{Use, all_uses};
use crate::{Net, Pin};
use gate_net::{Driver, End, GateNet, GateRow, entry};
use net_base::{List, NoMemory};
use phase_rule::weight;
use std::alloc::Global;

// The number of a driver, from how many used inputs there are below each input.
fn number(numbers: &[u32], inputs: u32, driver: Driver) -> u32
    requires each { length numbers.now ≡ inputs + 1 }
    requires there { IsThere inputs (2 ^ 31) driver }
    requires few { slice_index numbers.now inputs ≤ 2 ^ 30 }
    ensures { result ≡ number_by numbers.now inputs driver }
{
    match driver {
        Driver::Input(i) => numbers[i as usize],
        Driver::Gate(k) => numbers[inputs as usize] + k,
    }
}

// The sink is behind the last gate and has phase 0, as the source.
fn phase_at_user(phases: &[u32], user: u32) -> u32
    ensures { result ≡ vertex_phase phases.now user }
{
    match user.checked_sub(1) {
        Some(k) => phases.get(k as usize).copied().unwrap_or(0),
        None => 0,
    }
}

fn vertex(driver: Driver) -> u32
    requires { IsThere (2 ^ 32) (2 ^ 31) driver }
    ensures { result ≡ vertex_of driver }
{
    match driver {
        Driver::Input(_) => 0,
        Driver::Gate(k) => k + 1,
    }
}

fn pin(numbers: &[u32], inputs: u32, phases: &[u32], one: Use) -> Pin
    requires each { length numbers.now ≡ inputs + 1 }
    requires there { IsThere inputs (2 ^ 31) one.driver }
    requires few { slice_index numbers.now inputs ≤ 2 ^ 30 }
    ensures { result ≡ pin_by numbers.now inputs phases.now one }
{
    Pin {
        driver: number(numbers, inputs, one.driver),
        from: vertex(one.driver),
        to: one.user,
        weight: weight(phase_at_user(phases, one.user), entry(phases, one.driver)),
    }
}

fn pins(
    alloc: Global,
    numbers: &[u32],
    inputs: u32,
    phases: &[u32],
    uses: &[Use],
) -> Result<Vec<Pin>, NoMemory>
    requires each { length numbers.now ≡ inputs + 1 }
    requires there { All (λ one. IsThere inputs (2 ^ 31) one.driver) uses.now }
    requires few { slice_index numbers.now inputs ≤ 2 ^ 30 }
    ensures { IfOk result (λ pins. pins.items ≡ map (pin_by numbers.now inputs phases.now) uses.now) }
{
    let mut pins = Vec::with_capacity(alloc, uses.len())?;
    for one in uses {
        pins.push(pin(numbers, inputs, phases, *one))?;
    }
    Ok(pins)
}

/// The pins of a netlist are to be fewer than this, so that the numbers of vertices and drivers fit.
pub const MAX_PINS: u64 = 1 << 30;

/// How many pins a netlist has: those of its gates, and its outputs that are no constants.
pub fn pin_count(net: &GateNet) -> u64
    requires { IsGateNet net.now }
    ensures { result ≡ length (uses_of net.now) }
{
    gate_pins(net.inputs, net.gates.as_slice()) + output_pins(net.outputs.as_slice())
}

fn gate_pins(inputs: u32, rows: &[GateRow]) -> u64
    requires gates { AreGates inputs rows.now }
    requires few { length rows.now < 2 ^ 31 }
    ensures count { result ≡ length (gate_uses 1 rows.now) }
    ensures bound { result < 2 ^ 33 }
{
    let mut count = 0;
    for row in rows {
        count += row.pins.len() as u64;
    }
    count
}

fn output_pins(outputs: &[End]) -> u64
    requires { length outputs.now < 2 ^ 31 }
    ensures count { result ≡ length (flat_map end_drivers outputs.now) }
    ensures bound { result < 2 ^ 31 }
{
    let mut count = 0;
    for end in outputs {
        count += match end {
            End::From(_) => 1,
            End::Zero | End::One => 0,
        };
    }
    count
}

/// The network of a gate netlist whose gates have these phases.
pub fn net_of(alloc: Global, net: &GateNet, phases: &List<u32>) -> Result<Net, NoMemory>
    requires { HasNetwork net.now phases.now }
    ensures value { IfOk result (λ network. network ≡ network_of net.now phases.now) }
    ensures few { IfOk result (λ network. network.gates + 2 + network.drivers < 2 ^ 32) }
{
    let uses = all_uses(alloc, net)?;
    let numbers = input_numbers(alloc, net.inputs, uses.as_slice())?;
    let pins = pins(
        alloc,
        numbers.as_slice(),
        net.inputs,
        phases.as_slice(),
        uses.as_slice(),
    )?;
    let gates = net.gates.len() as u32;
    Ok(Net {
        gates,
        drivers: numbers[net.inputs as usize] + gates,
        pins: List::from_vec(pins),
    })
}
