//! That a netlist and a flow are as their types have them.
//!
//! A contract knows the range of a number, and what a name is made of, once it has been read. Here each is read, and nothing is
//! made of it.

ghost use Rattle.std.specs.Prelude.{All};
ghost use Rattle.net_base.specs.Name.{IsName};
ghost use Rattle.netlist_text.specs.Laws.{AreSmallUnits, IsTyped};
ghost use Rattle.netlist_text.specs.Lines.{IsSmall, IsSmallWire, IsSmallOutlet, numbers_of};

use flow_net::{Flow, Units};
use net_base::Name;
use pulse_net::{Element, Outlet, PulseNet};

fn read_names(names: &[Name])
    ensures { All IsName names.now }
{
    for name in names {
        let _bytes = name.bytes();
    }
}

fn read_numbers(numbers: &[u32])
    ensures { All IsSmall numbers.now }
{}

fn read_number(number: u32)
    ensures { IsSmall number }
{}

fn read_wire(wire: Option<u32>)
    ensures { IsSmallWire wire }
{
    if let Some(wire) = wire {
        read_number(wire);
    }
}

fn read_wires(wires: &[Option<u32>])
    ensures { All IsSmallWire wires.now }
{
    for wire in wires {
        read_wire(*wire);
    }
}

fn read_element(element: &Element)
    ensures { All IsSmall (numbers_of element.now) }
{
    match element {
        Element::Clocked {
            stage,
            pins,
            out,
            ..
        } => {
            read_numbers(&[*stage]);
            read_numbers(pins.as_slice());
            read_numbers(&[*out]);
        }
        Element::Split { from, left, right } => read_numbers(&[*from, *left, *right]),
    }
}

fn read_elements(elements: &[Element])
    ensures { All (λ element. All IsSmall (numbers_of element)) elements.now }
{
    for element in elements {
        read_element(element);
    }
}

fn read_outlet(outlet: Outlet)
    ensures { IsSmallOutlet outlet }
{
    if let Outlet::Wire(wire) = outlet {
        read_number(wire);
    }
}

fn read_outlets(outlets: &[Outlet])
    ensures { All IsSmallOutlet outlets.now }
{
    for outlet in outlets {
        read_outlet(*outlet);
    }
}

fn read_units(units: &[Units])
    ensures { All AreSmallUnits units.now }
{
    for one in units {
        read_number(one.forward);
        read_number(one.back);
    }
}

/// Reads all names and numbers of a netlist and of a flow, so that contracts know what their types say.
pub fn read_typed(net: &PulseNet, flow: &Flow)
    ensures { IsTyped net.now flow.now }
{
    let _model = net.names.model.bytes();
    let _latency = net.latency;
    read_names(net.names.inputs.as_slice());
    read_names(net.names.outputs.as_slice());
    read_wires(net.inputs.as_slice());
    read_elements(net.elements.as_slice());
    read_outlets(net.outputs.as_slice());
    read_units(flow.pins.as_slice());
}
