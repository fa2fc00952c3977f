//! Gate netlists made by hand: a gate or an output is added where it may be, and else there is none.

ghost use Rattle.std.specs.Prelude.{◌↔◌, IsTrue, All};
ghost use Rattle.gate_net.specs.Net.{IsGateNet, IsThere, IsEndThere};

use cell_lib::{Cell, arity, is_dro};
use gate_net::{Driver, End, GateNet};
use net_base::List;
use std::alloc::Global;

/// A gate: its cell, and the drivers of its pins.
pub(crate) type Row = (Cell, &'static [Driver]);

fn is_there(inputs: u32, gates: usize, driver: Driver) -> bool
    ensures { IsTrue result ↔ IsThere inputs gates driver }
{
    match driver {
        Driver::Input(i) => i < inputs,
        Driver::Gate(k) => (k as usize) < gates,
    }
}

fn are_there(inputs: u32, gates: usize, drivers: &[Driver]) -> bool
    ensures { IsTrue result ↔ All (IsThere inputs gates) drivers.now }
{
    drivers
        .iter()
        .all(|driver| is_there(inputs, gates, *driver))
}

/// Adds a gate. Its number, or that of the first equal one.
pub(crate) fn add(alloc: Global, net: &mut GateNet, cell: Cell, pins: &[Driver]) -> Option<u32>
    requires { IsGateNet net.old }
    ensures { IsGateNet net.new }
{
    let may_be = !is_dro(cell)
        && pins.len() == arity(cell) as usize
        && are_there(net.inputs, net.gates.len(), pins)
        && net.gates.len() < 1 << 30;
    if !may_be {
        return None;
    }
    let pins = List::from_slice(alloc, pins).ok()?;
    net.gate(cell, pins).ok()
}

/// Adds gates in order.
pub(crate) fn add_all(alloc: Global, net: &mut GateNet, rows: &[Row]) -> Option<()>
    requires { IsGateNet net.old }
    ensures { IsGateNet net.new }
{
    for (cell, pins) in rows {
        add(alloc, net, *cell, pins)?;
    }
    Some(())
}

fn is_end_there(inputs: u32, gates: usize, end: End) -> bool
    ensures { IsTrue result ↔ IsEndThere inputs gates end }
{
    match end {
        End::Zero | End::One => true,
        End::From(driver) => is_there(inputs, gates, driver),
    }
}

/// Adds an output.
pub(crate) fn give(net: &mut GateNet, end: End) -> Option<()>
    requires { IsGateNet net.old }
    ensures { IsGateNet net.new }
{
    if !is_end_there(net.inputs, net.gates.len(), end) || net.outputs.len() >= 1 << 30 {
        return None;
    }
    net.output(end).ok()
}

/// Adds outputs in order.
pub(crate) fn give_all(net: &mut GateNet, ends: &[End]) -> Option<()>
    requires { IsGateNet net.old }
    ensures { IsGateNet net.new }
{
    for end in ends {
        give(net, *end)?;
    }
    Some(())
}
