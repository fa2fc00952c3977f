//! Netlists of pulse elements made by hand, looked through and unfolded where they are not too long.

ghost use Rattle.std.specs.Prelude.{◌<◌, ◌^◌, length, IsTrue};

use cell_lib::Cell;
use net_base::{List, Name};
use pulse_net::{Element, Names, Outlet, PulseNet, Unfolded, ValidFault, is_formed, unfold, valid};
use std::alloc::Global;

/// An element.
#[derive(Clone, Copy)]
pub(crate) enum Part {
    /// A clocked cell: its stage, the wires of its pins, and the wire that it makes.
    Cell(Cell, u32, &'static [u32], u32),
    /// A splitter: the wire that it reads, and the two that it makes.
    Split(u32, u32, u32),
}

/// A netlist: phases, latency, the wires of its inputs, elements and outlets.
#[derive(Clone, Copy)]
pub(crate) struct Drawing {
    pub(crate) phases: u32,
    pub(crate) latency: u32,
    pub(crate) inputs: &'static [Option<u32>],
    pub(crate) parts: &'static [Part],
    pub(crate) outputs: &'static [Outlet],
}

fn element(alloc: Global, part: &Part) -> Option<Element> {
    match *part {
        Part::Cell(cell, stage, pins, out) => Some(Element::Clocked {
            cell,
            stage,
            pins: List::from_slice(alloc, pins).ok()?,
            out,
        }),
        Part::Split(from, left, right) => Some(Element::Split { from, left, right }),
    }
}

fn push_elements(alloc: Global, elements: &mut List<Element>, parts: &[Part]) -> Option<()> {
    for part in parts {
        elements.push(element(alloc, part)?).ok()?;
    }
    Some(())
}

fn elements_of(alloc: Global, parts: &[Part]) -> Option<List<Element>> {
    let mut elements = List::new(alloc);
    push_elements(alloc, &mut elements, parts)?;
    Some(elements)
}

fn push_names(alloc: Global, names: &mut List<Name>, count: usize) -> Option<()> {
    for _ in 0..count {
        names.push(Name::of(alloc, b"x").ok()?).ok()?;
    }
    Some(())
}

fn push_all_names(alloc: Global, names: &mut Names, inputs: usize, outputs: usize) -> Option<()> {
    push_names(alloc, &mut names.inputs, inputs)?;
    push_names(alloc, &mut names.outputs, outputs)
}

/// Names for n inputs and m outputs.
pub(crate) fn names(alloc: Global, inputs: usize, outputs: usize) -> Option<Names> {
    let mut names = Names {
        model: Name::of(alloc, b"m").ok()?,
        inputs: List::new(alloc),
        outputs: List::new(alloc),
    };
    push_all_names(alloc, &mut names, inputs, outputs)?;
    Some(names)
}

/// The netlist of a drawing.
pub(crate) fn drawn(alloc: Global, drawing: &Drawing) -> Option<PulseNet> {
    let inputs = List::from_slice(alloc, drawing.inputs).ok()?;
    let outputs = List::from_slice(alloc, drawing.outputs).ok()?;
    let elements = elements_of(alloc, drawing.parts)?;
    let names = names(alloc, drawing.inputs.len(), drawing.outputs.len())?;
    Some(PulseNet {
        names,
        phases: drawing.phases,
        latency: drawing.latency,
        inputs,
        elements,
        outputs,
    })
}

fn are_few(net: &PulseNet) -> bool
    ensures inputs { IsTrue result → length net.now.inputs < 2 ^ 31 }
    ensures elements { IsTrue result → length net.now.elements < 2 ^ 31 }
    ensures outputs { IsTrue result → length net.now.outputs < 2 ^ 31 }
{
    net.inputs.len() < 1_000_000 && net.elements.len() < 1_000_000 && net.outputs.len() < 1_000_000
}

/// What is found of a netlist that is formed.
pub(crate) fn found(alloc: Global, net: &PulseNet) -> Option<Result<(), ValidFault>> {
    if !is_formed(net) || !are_few(net) {
        return None;
    }
    Some(valid(alloc, net))
}

/// The gates of a netlist, if it is formed and valid.
pub(crate) fn unfolded(alloc: Global, net: &PulseNet) -> Option<Unfolded> {
    if !is_formed(net) || !are_few(net) {
        return None;
    }
    valid(alloc, net).ok()?;
    unfold(alloc, net).ok()
}
