//! The elements and wires of gates with shared chains.

ghost use Rattle.std.specs.Prelude.{◌≡◌, ◌<◌, ◌+◌, ◌-◌, ◌^◌, ◌++◌, ◌∷◌, [], cond, IfOk, OnOk, length};
ghost use Rattle.gate_net.specs.Net.{IsGateNet, pin_drivers};
ghost use Rattle.pulse_net.specs.Validity.{IsValid};
ghost use Rattle.flow_net.specs.Uses.{is_used, uses_of};
ghost use Rattle.splitters.specs.Taps.{CanSplit, StagesFit};
ghost use Rattle.splitters.specs.Table.{IsTapped};
ghost use Rattle.splitters.specs.Elements.{inputs_of, wire_count, gate_pins, outlets, layout_of, elements_of};
ghost use Rattle.splitters.specs.Laws.{HasNames, KeepsTime, UnfoldsBack};

use crate::drivers::{lay_gates, lay_inputs};
use crate::layout::Layout;
use crate::table::gather;
use crate::taps::Taps;
use dro_chains::Chained;
use gate_net::{Driver, End, GateRow, pin_drivers};
use net_base::{List, NoMemory};
use pulse_net::{Element, Names, Outlet, PulseNet};
use std::alloc::Global;

// Whether an input is used: it has a tap.
fn is_used(chained: &Chained, table: &[Taps], i: u32) -> bool
    requires tapped { IsTapped chained.now table.now }
    requires there { i < chained.now.gates.inputs }
    ensures { result ≡ is_used i (uses_of chained.now.gates) }
{
    !table[i as usize].is_empty()
}

// Adds the wire of an input, the next one if it is used, and answers the next wire then.
fn push_wire(wires: &mut Vec<Option<u32>>, next: u32, used: bool) -> Result<u32, NoMemory>
    requires { next < 2 ^ 32 - 1 }
    ensures wires { OnOk result (wires.new.items ≡ wires.old.items ++ cond used (Some next) None ∷ []) }
    ensures next { IfOk result (λ after. after ≡ next + cond used 1 0) }
{
    if used {
        wires.push(Some(next))?;
        return Ok(next + 1);
    }
    wires.push(None)?;
    Ok(next)
}

// The wires of the inputs: the used ones get the first wires, in order.
fn input_wires(
    alloc: Global,
    chained: &Chained,
    table: &[Taps],
) -> Result<Vec<Option<u32>>, NoMemory>
    requires { IsTapped chained.now table.now }
    ensures wires { IfOk result (λ wires. wires.items ≡ inputs_of chained.now) }
    ensures each { IfOk result (λ wires. length wires.items ≡ chained.now.gates.inputs) }
{
    let inputs = chained.gates.inputs;
    let mut wires = Vec::with_capacity(alloc, inputs as usize)?;
    let mut next = 0;
    for i in 0..inputs {
        let used = is_used(chained, table, i);
        next = push_wire(&mut wires, next, used)?;
    }
    Ok(wires)
}

// How many inputs have a wire.
fn wire_count(wires: &[Option<u32>]) -> u32
    requires { length wires.now < 2 ^ 32 }
    ensures { result ≡ wire_count wires.now }
{
    let mut count = 0;
    for wire in wires {
        if wire.is_some() {
            count += 1;
        }
    }
    count
}

// How many pins gates have.
fn gate_pins(rows: &[GateRow]) -> usize
    requires { gate_pins rows.now < 2 ^ 31 }
    ensures { result ≡ gate_pins rows.now }
{
    let mut count = 0;
    for row in rows {
        count += row.pins.len();
    }
    count
}

// What stands at each output, of which the first that is no constant is this pin.
fn outlets(
    alloc: Global,
    taken: &[u32],
    mut pin: usize,
    ends: &[End],
) -> Result<Vec<Outlet>, NoMemory>
    requires few { pin < 2 ^ 31 }
    requires few_ends { length ends.now < 2 ^ 31 }
    ensures { IfOk result (λ found. found.items ≡ outlets taken.now pin ends.now) }
{
    let mut found = Vec::with_capacity(alloc, ends.len())?;
    for end in ends {
        match end {
            End::Zero => found.push(Outlet::Zero)?,
            End::One => found.push(Outlet::One)?,
            End::From(_) => {
                found.push(Outlet::Wire(taken.get(pin).copied().unwrap_or(0)))?;
                pin += 1;
            }
        }
    }
    Ok(found)
}

// The table of the taps of all drivers.
fn tap_table(alloc: Global, chained: &Chained, drivers: &[Driver]) -> Result<Vec<Taps>, NoMemory>
    requires formed { IsGateNet chained.now.gates }
    requires few_pins { length (pin_drivers chained.now.gates) < 2 ^ 31 }
    requires stages { StagesFit chained.now }
    requires drivers { drivers.now ≡ pin_drivers chained.now.gates }
    ensures { IfOk result (λ table. IsTapped chained.now table.items) }
{
    gather(
        alloc,
        chained.gates.inputs,
        chained.gates.gates.len(),
        drivers,
        chained.needs.as_slice(),
    )
}

// All drivers laid out, the used inputs and then the gates.
fn lay_out(
    alloc: Global,
    chained: &Chained,
    table: &[Taps],
    inputs: &[Option<u32>],
    pins: usize,
) -> Result<Layout, NoMemory>
    requires tapped { IsTapped chained.now table.now }
    requires inputs { inputs.now ≡ inputs_of chained.now }
    requires each { length inputs.now ≡ chained.now.gates.inputs }
    requires pins { pins ≡ length (pin_drivers chained.now.gates) }
    requires room { (layout_of chained.now).next + 2 < 2 ^ 32 }
    ensures { IfOk result (λ layout. layout ≡ layout_of chained.now) }
{
    // Read for the proof alone: as a `u32` it bounds the number of inputs, so that each place fits one.
    let _inputs = chained.gates.inputs;
    let mut layout = Layout::new(alloc, wire_count(inputs), pins)?;
    lay_inputs(alloc, &mut layout, chained, table, inputs)?;
    lay_gates(alloc, &mut layout, chained, table)?;
    Ok(layout)
}

// What stands at the outputs, whose pins come behind those of the gates.
fn output_wires(alloc: Global, chained: &Chained, taken: &[u32]) -> Result<Vec<Outlet>, NoMemory>
    requires formed { IsGateNet chained.now.gates }
    requires few_pins { length (pin_drivers chained.now.gates) < 2 ^ 31 }
    ensures { IfOk result (λ found. found.items ≡ outlets taken.now (gate_pins chained.now.gates.gates) chained.now.gates.outputs) }
{
    let first = gate_pins(chained.gates.gates.as_slice());
    outlets(alloc, taken, first, chained.gates.outputs.as_slice())
}

// What a netlist has beside its names, phases and latency: the wires of inputs, the elements, and what stands at outputs.
#[derive(Drop)]
struct NetParts {
    inputs: List<Option<u32>>,
    elements: List<Element>,
    outputs: List<Outlet>,
}

// The parts, by the table of the taps.
fn tapped_parts(
    alloc: Global,
    chained: &Chained,
    table: &[Taps],
    pins: usize,
) -> Result<NetParts, NoMemory>
    requires fits { CanSplit chained.now }
    requires tapped { IsTapped chained.now table.now }
    requires pins { pins ≡ length (pin_drivers chained.now.gates) }
    ensures inputs { IfOk result (λ parts. parts.inputs ≡ inputs_of chained.now) }
    ensures elements { IfOk result (λ parts. parts.elements ≡ (layout_of chained.now).elements) }
    ensures outputs { IfOk result (λ parts. parts.outputs ≡ outlets (layout_of chained.now).taken (gate_pins chained.now.gates.gates) chained.now.gates.outputs) }
{
    let inputs = input_wires(alloc, chained, table)?;
    let layout = lay_out(alloc, chained, table, inputs.as_slice(), pins)?;
    let outputs = output_wires(alloc, chained, layout.taken())?;
    Ok(NetParts {
        inputs: List::from_vec(inputs),
        elements: layout.into_elements(),
        outputs: List::from_vec(outputs),
    })
}

// The parts of the netlist of gates with shared chains.
fn net_parts(alloc: Global, chained: &Chained) -> Result<NetParts, NoMemory>
    requires fits { CanSplit chained.now }
    ensures inputs { IfOk result (λ parts. parts.inputs ≡ inputs_of chained.now) }
    ensures elements { IfOk result (λ parts. parts.elements ≡ (layout_of chained.now).elements) }
    ensures outputs { IfOk result (λ parts. parts.outputs ≡ outlets (layout_of chained.now).taken (gate_pins chained.now.gates.gates) chained.now.gates.outputs) }
{
    let drivers = pin_drivers(alloc, &chained.gates)?;
    let table = tap_table(alloc, chained, drivers.as_slice())?;
    tapped_parts(alloc, chained, table.as_slice(), drivers.len())
}

/// The netlist of gates with shared chains: splitter trees, DROs and wires. There is a name for each input and each
/// output. It is valid where the chains keep time, and chains that mean a netlist give back the gates, phases and epochs
/// that they were made for. `NoMemory` is the only error: the numbers of wires always fit.
pub fn split(alloc: Global, chained: Chained, names: Names) -> Result<PulseNet, NoMemory>
    requires fits { CanSplit chained }
    requires names { HasNames chained names }
    ensures elements { IfOk result (λ net. net ≡ elements_of chained names) }
    ensures valid { KeepsTime chained → IfOk result IsValid }
    ensures unfolds { IfOk result (UnfoldsBack chained) }
{
    let parts = net_parts(alloc, &chained)?;
    Ok(PulseNet {
        names,
        phases: chained.n,
        latency: chained.latency,
        inputs: parts.inputs,
        elements: parts.elements,
        outputs: parts.outputs,
    })
}
