//! The gates that a netlist unfolds to.

ghost use Rattle.std.specs.Prelude.{◌≡◌, ◌<◌, ◌^◌, ◌≤◌, ◌+◌, [], length, map, OnOk, IfOk};
ghost use Rattle.flow_net.specs.Epochs.{IsBalanced, dro_count};
ghost use Rattle.flow_net.specs.Levels.{ArePhases, phases_of};
ghost use Rattle.flow_net.specs.TheConstants.{MAX_PHASES};
ghost use Rattle.flow_net.specs.Uses.{uses_of};
ghost use Rattle.gate_net.specs.Net.{EachGateIsUsed, IsGateNet};
ghost use Rattle.pulse_net.specs.Balance.{unfolded_network};
ghost use Rattle.pulse_net.specs.Validity.{IsValid};
ghost use Rattle.pulse_net.specs.GatePulses.{PulsesAreGateValues};
ghost use Rattle.pulse_net.specs.Unfolding.{unfolded, unfolded_from, unfolding_of, unfold_inputs, unfold_elements, epochs_of, end_of};

use crate::net::{Element, PulseNet};
use crate::trace::Trace;
use flow_net::{Epochs, phases};
use gate_net::{Driver, End, GateNet};
use net_base::{List, NoMemory};
use std::alloc::Global;

/// A netlist unfolded.
#[derive(Debug, Drop)]
pub struct Unfolded {
    /// The clocked elements that are no DROs, in order, each a gate of its own even where two are equal; each pin is traced
    /// back through DROs and splitters to its driver.
    pub gates: GateNet,
    /// The phase of each gate: its stage modulo the number of phases.
    pub phases: List<u32>,
    /// The epoch of each gate: its stage divided by the number of phases; and the latency, as the sink's.
    pub epochs: Epochs,
    /// How many DROs the netlist has.
    pub dros: u64,
}

/// The gates of a netlist, with their phases and epochs, and the number of its DROs. Each gate has a use, the epochs are
/// balanced, and there are at least as many DROs as they cost. The netlist is valid, with fewer than 2^31 inputs, elements
/// and outputs, so that a `u32` numbers the drivers. `NoMemory` is the only error.
pub fn unfold(alloc: Global, net: &PulseNet) -> Result<Unfolded, NoMemory>
    requires valid { IsValid net.now }
    requires few_inputs { length net.now.inputs < 2 ^ 31 }
    requires few_elements { length net.now.elements < 2 ^ 31 }
    requires few_outputs { length net.now.outputs < 2 ^ 31 }
    ensures value { IfOk result (λ u. u ≡ unfolded net.now) }
    ensures net { IfOk result (λ u. IsGateNet u.gates) }
    ensures pulses { IfOk result (λ u. PulsesAreGateValues net.now u) }
    ensures used { IfOk result (λ u. EachGateIsUsed u.gates) }
    ensures phased { IfOk result (λ u. ArePhases net.now.phases u.gates u.phases) }
    ensures balanced { IfOk result (λ u. IsBalanced (unfolded_network u) u.epochs) }
    ensures at_least { IfOk result (λ u. dro_count (unfolded_network u) u.epochs ≤ u.dros) }
    ensures unused { IfOk result (λ u. uses_of u.gates ≡ [] → u.epochs.sink ≡ 1) }
{
    let trace = trace_of(alloc, net)?;
    unfolded_from(alloc, net, trace)
}

/// All inputs and elements, traced in order.
fn trace_of(alloc: Global, net: &PulseNet) -> Result<Trace, NoMemory>
    requires few_inputs { length net.now.inputs < 2 ^ 31 }
    requires few_elements { length net.now.elements < 2 ^ 31 }
    ensures { IfOk result (λ trace. trace ≡ unfolding_of net.now) }
{
    let mut trace = Trace::with_room(alloc, net.most_wires())?;
    pass_inputs(&mut trace, net.inputs.as_slice())?;
    pass_elements(alloc, &mut trace, net.elements.as_slice())?;
    Ok(trace)
}

/// What was traced, as gates with phases and epochs.
fn unfolded_from(alloc: Global, net: &PulseNet, trace: Trace) -> Result<Unfolded, NoMemory>
    requires some_phases { 1 ≤ net.now.phases }
    requires few_phases { net.now.phases ≤ MAX_PHASES }
    requires few_inputs { length net.now.inputs < 2 ^ 31 }
    ensures { IfOk result (λ u. u ≡ unfolded_from net.now trace) }
{
    let read = outputs_and_clocks_of(alloc, net, &trace)?;
    let dros = trace.dro_count();
    Ok(Unfolded {
        gates: GateNet {
            inputs: net.inputs.len() as u32,
            gates: trace.into_gates(),
            outputs: read.outputs,
        },
        phases: read.phases,
        epochs: read.epochs,
        dros,
    })
}

/// What is read off a trace before its gates are taken out.
#[derive(Drop)]
struct OutputsAndClocks {
    outputs: List<End>,
    phases: List<u32>,
    epochs: Epochs,
}

/// The outputs of a trace, and the phases and epochs of its stages, with the latency as the sink's epoch. The trace is
/// borrowed, so no exit has it to drop.
fn outputs_and_clocks_of(
    alloc: Global,
    net: &PulseNet,
    trace: &Trace,
) -> Result<OutputsAndClocks, NoMemory>
    requires some_phases { 1 ≤ net.now.phases }
    requires few_phases { net.now.phases ≤ MAX_PHASES }
    ensures outputs { IfOk result (λ read. read.outputs ≡ map (end_of trace.now.wires) net.now.outputs) }
    ensures phases { IfOk result (λ read. read.phases ≡ phases_of net.now.phases trace.now.stages) }
    ensures epochs { IfOk result (λ read. read.epochs ≡ record { gates = epochs_of net.now.phases trace.now.stages; sink = net.now.latency }) }
{
    let outputs = trace.ends_of(alloc, net.outputs.as_slice())?;
    let phases = phases(alloc, trace.stages(), net.phases)?;
    let gates = epochs_of(alloc, trace.stages().as_slice(), net.phases)?;
    let epochs = Epochs {
        gates,
        sink: net.latency,
    };
    Ok(OutputsAndClocks {
        outputs,
        phases,
        epochs,
    })
}

/// Each used input drives its wire.
fn pass_inputs(trace: &mut Trace, inputs: &[Option<u32>]) -> Result<(), NoMemory>
    requires { length inputs.now < 2 ^ 31 }
    ensures { OnOk result (trace.new ≡ unfold_inputs 0 inputs.now trace.old) }
{
    for (place, input) in inputs.iter().enumerate() {
        if let Some(wire) = input {
            trace.make(*wire, Driver::Input(place as u32))?;
        }
    }
    Ok(())
}

/// The elements in order.
fn pass_elements(alloc: Global, trace: &mut Trace, elements: &[Element]) -> Result<(), NoMemory>
    requires { length trace.old.gates + length elements.now < 2 ^ 31 }
    ensures { OnOk result (trace.new ≡ unfold_elements elements.now trace.old) }
{
    for element in elements {
        trace.pass_element(alloc, element)?;
    }
    Ok(())
}

/// The epoch at each stage.
fn epochs_of(alloc: Global, stages: &[u32], phases: u32) -> Result<List<u32>, NoMemory>
    requires { 0 < phases }
    ensures { IfOk result (λ r. r ≡ epochs_of phases stages.now) }
{
    let at = stages.iter().map(|stage| *stage / phases).collect(alloc)?;
    Ok(List::from_vec(at))
}
