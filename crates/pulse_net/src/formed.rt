//! Whether a netlist is formed: what the rules on its wires take for granted.

ghost use Rattle.std.specs.Prelude.{◌↔◌, IsTrue, All};
ghost use Rattle.pulse_net.specs.Formed.{HasItsPins, IsFormed};

use crate::net::{Element, PulseNet};
use cell_lib::arity;
use flow_net::MAX_PHASES;

/// Whether a netlist is formed: 1 to 16 phases, a latency of at least 1, as many pins on each clocked element as its cell
/// has, and as many input wires and outlets as names.
pub fn is_formed(net: &PulseNet) -> bool
    ensures { IsTrue result ↔ IsFormed net.now }
{
    net.phases >= 1
        && net.phases <= MAX_PHASES
        && net.latency >= 1
        && have_their_pins(net.elements.as_slice())
        && net.inputs.len() == net.names.inputs.len()
        && net.outputs.len() == net.names.outputs.len()
}

fn have_their_pins(elements: &[Element]) -> bool
    ensures { IsTrue result ↔ All HasItsPins elements.now }
{
    elements.iter().all(|element| has_its_pins(element))
}

fn has_its_pins(element: &Element) -> bool
    ensures { IsTrue result ↔ HasItsPins element.now }
{
    match element {
        Element::Clocked { cell, pins, .. } => pins.len() == arity(*cell) as usize,
        Element::Split { .. } => true,
    }
}
