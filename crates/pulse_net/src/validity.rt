//! Whether a netlist is valid, and else the first rule that it breaks.

ghost use Rattle.std.specs.Prelude.{◌≡◌, ◌<◌, ◌^◌, ◌*◌, ◌||◌, ◌==◌, Ok, IfOk, IfErr, length};
ghost use Rattle.std.specs.List.{list_any};
ghost use Rattle.pulse_net.specs.Formed.{IsFormed};
ghost use Rattle.pulse_net.specs.Validity.{IsValid, unwired, wiring_of, wire_inputs, wire_elements, wire_outputs, close_wires, has_wire};
ghost use Rattle.net_base.specs.Answers.{Tells};
ghost use Rattle.pulse_net.specs.Refusals.{ObeysRules, told_by, placed};

use crate::fault::{Invalid, Place, Stop, ValidFault, Wrong};
use crate::net::{Element, Outlet, PulseNet};
use crate::wires::Wires;
use std::alloc::Global;

/// Finds a formed netlist valid, or names the first rule that it breaks: in inputs, elements and outputs in order, then in
/// the latency, and then at the close. There are fewer than 2^31 of each, since a place is a `u32`. The only other error
/// is `NoMemory`, which says nothing of the netlist.
pub fn valid(alloc: Global, net: &PulseNet) -> Result<(), ValidFault>
    requires formed { IsFormed net.now }
    requires few_inputs { length net.now.inputs < 2 ^ 31 }
    requires few_elements { length net.now.elements < 2 ^ 31 }
    requires few_outputs { length net.now.outputs < 2 ^ 31 }
    ensures valid { IfOk result (λ _. IsValid net.now) }
    ensures broken { IfErr result (λ fault. Tells (told_by fault) (wiring_of net.now)) }
{
    let mut wires = Wires::with_room(alloc, net.most_wires())?;
    pass(&mut wires, net)
}

/// All rules in order, where no wire is made or used yet. The wires are borrowed, so no exit has them to drop.
fn pass(wires: &mut Wires, net: &PulseNet) -> Result<(), ValidFault>
    requires unwired { wires.old ≡ unwired }
    requires formed { IsFormed net.now }
    requires few_inputs { length net.now.inputs < 2 ^ 31 }
    requires few_elements { length net.now.elements < 2 ^ 31 }
    requires few_outputs { length net.now.outputs < 2 ^ 31 }
    ensures valid { IfOk result (λ _. IsValid net.now) }
    ensures broken { IfErr result (λ fault. Tells (told_by fault) (wiring_of net.now)) }
{
    pass_inputs(wires, net.inputs.as_slice())?;
    pass_elements(wires, net.phases, net.elements.as_slice())?;
    pass_outputs(wires, net.phases, net.latency, net.outputs.as_slice())?;
    if !keeps_latency(net.latency, net.outputs.as_slice()) {
        return Err(broken(Place::Latency, Wrong::NoWires(net.latency)));
    }
    close(wires)
}

/// Each used input makes its wire.
fn pass_inputs(wires: &mut Wires, inputs: &[Option<u32>]) -> Result<(), ValidFault>
    requires { length inputs.now < 2 ^ 31 }
    ensures { ObeysRules result (wire_inputs 0 inputs.now wires.old) wires.new }
{
    for (place, input) in inputs.iter().enumerate() {
        if let Some(wire) = input {
            at_place(Place::Input(place as u32), wires.make(*wire, 0))?;
        }
    }
    Ok(())
}

/// Each element uses its sources and makes its wires.
fn pass_elements(wires: &mut Wires, phases: u32, elements: &[Element]) -> Result<(), ValidFault>
    requires { length elements.now < 2 ^ 31 }
    ensures { ObeysRules result (wire_elements phases 0 elements.now wires.old) wires.new }
{
    for (place, element) in elements.iter().enumerate() {
        at_place(
            Place::Element(place as u32),
            wires.pass_element(phases, element),
        )?;
    }
    Ok(())
}

/// Each output that isn't constant uses its wire.
fn pass_outputs(
    wires: &mut Wires,
    phases: u32,
    latency: u32,
    outputs: &[Outlet],
) -> Result<(), ValidFault>
    requires few { length outputs.now < 2 ^ 31 }
    requires phases { phases < 256 }
    ensures { ObeysRules result (wire_outputs phases latency 0 outputs.now wires.old) wires.new }
{
    for (place, outlet) in outputs.iter().enumerate() {
        at_place(
            Place::Output(place as u32),
            wires.pass_output(phases, latency, *outlet),
        )?;
    }
    Ok(())
}

/// Where no output has a wire, the latency is to be 1.
fn keeps_latency(latency: u32, outputs: &[Outlet]) -> bool
    ensures { result ≡ (latency == 1 || list_any has_wire outputs.now) }
{
    latency == 1 || has_some_wire(outputs)
}

/// Whether one of the outputs has a wire.
fn has_some_wire(outputs: &[Outlet]) -> bool
    ensures { result ≡ list_any has_wire outputs.now }
{
    outputs.iter().any(|outlet| has_wire(*outlet))
}

/// At the end each wire is used.
fn close(wires: &Wires) -> Result<(), ValidFault>
    ensures { ObeysRules result (close_wires wires.now) wires.now }
{
    match wires.least_unused() {
        None => Ok(()),
        Some(wire) => Err(broken(Place::Close, Wrong::Unused(wire))),
    }
}

/// Whether an output has a wire.
fn has_wire(outlet: Outlet) -> bool
    ensures { result ≡ has_wire outlet }
{
    matches!(outlet, Outlet::Wire(_))
}

/// The fault of a rule that is broken at a place.
fn broken(place: Place, cause: Wrong) -> ValidFault
    ensures { result ≡ ValidFault.Invalid (record { place = place; cause = cause }) }
{
    ValidFault::Invalid(Invalid { place, cause })
}

/// A step at a place.
fn at_place(place: Place, step: Result<(), Stop>) -> Result<(), ValidFault>
    ensures { result ≡ placed place step }
{
    match step {
        Ok(()) => Ok(()),
        Err(Stop::Wrong(cause)) => Err(broken(place, cause)),
        Err(Stop::NoMemory) => Err(ValidFault::NoMemory),
    }
}
