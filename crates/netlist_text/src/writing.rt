//! The writer.
//!
//! Each function adds its lines at the end of the text, as the definition of its name in `specs/Spelling.antt` spells
//! them. The whole is linear in the bytes.

ghost use Rattle.std.specs.Prelude.{◌≡◌, ◌++◌, IfOk, OnOk, codes, decimal};
ghost use Rattle.std.specs.List.{flat_map, list_any};
ghost use Rattle.netlist_text.specs.Spelling as text;
ghost use Rattle.netlist_text.specs.Laws.{IsTyped};

use crate::typed::read_typed;
use cell_lib::Cell;
use flow_net::{Flow, Units};
use itoa::Buffer;
use net_base::{List, Name, NoMemory};
use pulse_net::{Element, Outlet, PulseNet};
use std::alloc::Global;

// A space and the number in decimal.
fn push_field(out: &mut Vec<u8>, number: u32) -> Result<(), NoMemory>
    ensures { OnOk result (out.new.items ≡ out.old.items ++ (codes " " ++ decimal number)) }
{
    out.extend_from_slice(b" ")?;
    out.extend_from_slice(Buffer::new().format(number).as_bytes())
}

fn push_fields(out: &mut Vec<u8>, numbers: &[u32]) -> Result<(), NoMemory>
    ensures { OnOk result (out.new.items ≡ out.old.items ++ text.fields numbers.now) }
{
    for number in numbers {
        push_field(out, *number)?;
    }
    Ok(())
}

#[tactic(auto, unfolding(crate::specs::Spelling::line))]
fn push_line(out: &mut Vec<u8>, word: &[u8], numbers: &[u32]) -> Result<(), NoMemory>
    ensures { OnOk result (out.new.items ≡ out.old.items ++ text.line word.now numbers.now) }
{
    out.extend_from_slice(word)?;
    push_fields(out, numbers)?;
    out.extend_from_slice(b"\n")
}

pub(crate) fn cell_word(cell: Cell) -> &'static [u8]
    ensures { result.now ≡ text.cell_word cell }
{
    match cell {
        Cell::Dro => b"dro",
        Cell::Not => b"not",
        Cell::And => b"and",
        Cell::Or => b"or",
        Cell::Xor => b"xor",
        Cell::Maj => b"maj",
    }
}

#[tactic(auto, unfolding(crate::specs::Spelling::line))]
fn push_element(out: &mut Vec<u8>, element: &Element) -> Result<(), NoMemory>
    ensures { OnOk result (out.new.items ≡ out.old.items ++ text.element_line element.now) }
{
    match element {
        Element::Clocked {
            cell,
            stage,
            pins,
            out: made,
        } => {
            out.extend_from_slice(cell_word(*cell))?;
            push_field(out, *stage)?;
            push_fields(out, pins.as_slice())?;
            push_field(out, *made)?;
            out.extend_from_slice(b"\n")
        }
        Element::Split { from, left, right } => push_line(out, b"split", &[*from, *left, *right]),
    }
}

fn push_wire(out: &mut Vec<u8>, wire: Option<u32>) -> Result<(), NoMemory>
    ensures { OnOk result (out.new.items ≡ out.old.items ++ text.wire_word wire) }
{
    match wire {
        None => out.extend_from_slice(b" -"),
        Some(wire) => push_field(out, wire),
    }
}

fn push_outlet(out: &mut Vec<u8>, outlet: Outlet) -> Result<(), NoMemory>
    ensures { OnOk result (out.new.items ≡ out.old.items ++ text.outlet_word outlet) }
{
    match outlet {
        Outlet::Zero => out.extend_from_slice(b" zero"),
        Outlet::One => out.extend_from_slice(b" one"),
        Outlet::Wire(wire) => push_field(out, wire),
    }
}

// The front of a line: a word, a space and a name.
fn push_name(out: &mut Vec<u8>, word: &[u8], name: &Name) -> Result<(), NoMemory>
    ensures { OnOk result (out.new.items ≡ out.old.items ++ (word.now ++ codes " " ++ name.now)) }
{
    out.extend_from_slice(word)?;
    out.extend_from_slice(b" ")?;
    out.extend_from_slice(name.bytes())
}

fn push_input(out: &mut Vec<u8>, name: &Name, wire: Option<u32>) -> Result<(), NoMemory>
    ensures { OnOk result (out.new.items ≡ out.old.items ++ text.name_line (codes "input") name.now (text.wire_word wire)) }
{
    push_name(out, b"input", name)?;
    push_wire(out, wire)?;
    out.extend_from_slice(b"\n")
}

fn push_output(out: &mut Vec<u8>, name: &Name, outlet: Outlet) -> Result<(), NoMemory>
    ensures { OnOk result (out.new.items ≡ out.old.items ++ text.name_line (codes "output") name.now (text.outlet_word outlet)) }
{
    push_name(out, b"output", name)?;
    push_outlet(out, outlet)?;
    out.extend_from_slice(b"\n")
}

fn push_inputs(
    out: &mut Vec<u8>,
    names: &List<Name>,
    wires: &List<Option<u32>>,
) -> Result<(), NoMemory>
    ensures { OnOk result (out.new.items ≡ out.old.items ++ text.input_lines names.now wires.now) }
{
    for i in 0..names.len().min(wires.len()) {
        let name = names.get(i);
        let wire = wires.get(i);
        push_input(out, name, *wire)?;
    }
    Ok(())
}

fn push_elements(out: &mut Vec<u8>, elements: &[Element]) -> Result<(), NoMemory>
    ensures { OnOk result (out.new.items ≡ out.old.items ++ flat_map text.element_line elements.now) }
{
    for element in elements {
        push_element(out, element)?;
    }
    Ok(())
}

fn push_outputs(
    out: &mut Vec<u8>,
    names: &List<Name>,
    outlets: &List<Outlet>,
) -> Result<(), NoMemory>
    ensures { OnOk result (out.new.items ≡ out.old.items ++ text.output_lines names.now outlets.now) }
{
    for i in 0..names.len().min(outlets.len()) {
        let name = names.get(i);
        let outlet = outlets.get(i);
        push_output(out, name, *outlet)?;
    }
    Ok(())
}

fn push_flow(out: &mut Vec<u8>, units: &[Units]) -> Result<(), NoMemory>
    ensures { OnOk result (out.new.items ≡ out.old.items ++ flat_map text.flow_line units.now) }
{
    for one in units {
        push_line(out, b"flow", &[one.forward, one.back])?;
    }
    Ok(())
}

fn is_majority(element: &Element) -> bool
    ensures { result ≡ text.is_majority element.now }
{
    matches!(
        element,
        Element::Clocked {
            cell: Cell::Maj,
            ..
        }
    )
}

fn has_majority(elements: &[Element]) -> bool
    ensures { result ≡ list_any text.is_majority elements.now }
{
    elements.iter().any(|element| is_majority(element))
}

/// The number of the format that elements need.
pub(crate) fn format_of(elements: &[Element]) -> u32
    ensures { result ≡ text.format_of elements.now }
{
    if has_majority(elements) { 2 } else { 1 }
}

#[tactic(auto, unfolding(crate::specs::Spelling::model_line))]
fn push_model(out: &mut Vec<u8>, model: &Name) -> Result<(), NoMemory>
    ensures { OnOk result (out.new.items ≡ out.old.items ++ text.model_line model.now) }
{
    push_name(out, b"model", model)?;
    out.extend_from_slice(b"\n")
}

// The four header lines.
#[tactic(auto, unfolding(crate::specs::Spelling::header_lines))]
fn push_header(out: &mut Vec<u8>, net: &PulseNet) -> Result<(), NoMemory>
    ensures { OnOk result (out.new.items ≡ out.old.items ++ text.header_lines net.now) }
{
    push_line(out, b"rsfq", &[format_of(net.elements.as_slice())])?;
    push_model(out, &net.names.model)?;
    push_line(out, b"phases", &[net.phases])?;
    push_line(out, b"latency", &[net.latency])?;
    Ok(())
}

/// The netlist text of a netlist and a flow: in format 2 where the netlist has a majority cell, and else in format 1.
pub fn write(alloc: Global, net: &PulseNet, flow: &Flow) -> Result<Vec<u8>, NoMemory>
    ensures spelling { IfOk result (λ bytes. bytes.items ≡ text.spelling_of net.now flow.now) }
    ensures typed { IfOk result (λ _. IsTyped net.now flow.now) }
{
    read_typed(net, flow);
    let mut out = Vec::new(alloc);
    push_header(&mut out, net)?;
    push_inputs(&mut out, &net.names.inputs, &net.inputs)?;
    push_elements(&mut out, net.elements.as_slice())?;
    push_outputs(&mut out, &net.names.outputs, &net.outputs)?;
    push_flow(&mut out, flow.pins.as_slice())?;
    out.extend_from_slice(b"end\n")?;
    Ok(out)
}
