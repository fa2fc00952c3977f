//! The walk of a chosen formula: its cells become gates, parts from the left before the cell over them.

ghost use Rattle.std.specs.Prelude.{◌≡◌, ◌<◌, ◌+◌, ◌^◌, All, length, IfOk, OnOk};
ghost use Rattle.cell_lib.specs.Cell.{arity_of};
ghost use Rattle.gate_net.specs.Net.{IsThere, IsGateNet};
ghost use Rattle.gate_net.specs.Order.{ascending as spec_ascending};
ghost use Rattle.balance_map.specs.Cover as spec;
ghost use Rattle.balance_map.specs.Walks.{most_gates, IsReady};

use crate::parts::{leaf_place, part_tables};
use cell_lib::{Cell, arity, is_dro};
use gate_net::{Driver, GateNet, GateRow, ascending};
use net_base::{List, NoMemory};
use pattern_table::Patterns;
use std::alloc::Global;

// The gate of a cell over these drivers: its pins are in ascending order, so that gates which differ in it alone become one.
fn row_of(cell: Cell, pins: List<Driver>) -> GateRow
    ensures { result ≡ record { cell = cell; pins = spec_ascending pins } }
{
    GateRow {
        cell,
        pins: ascending(pins),
    }
}

// What drives a cell over these drivers: for a DRO it is what drives that. Any other cell is a gate, the first equal one, or a
// new one at the end.
fn with_cell(net: &mut GateNet, cell: Cell, pins: List<Driver>) -> Result<Driver, NoMemory>
    requires net { IsGateNet net.old }
    requires count { length pins ≡ arity_of cell }
    requires pins { All (IsThere net.old.inputs (length net.old.gates)) pins }
    requires room { length net.old.gates + 1 < 2 ^ 31 }
    ensures by { IfOk result (λ by. by ≡ (spec.with_cell cell (record { gates = net.old.gates; by = pins })).by) }
    ensures ok { OnOk result (net.new ≡ record net.old { gates = (spec.with_cell cell (record { gates = net.old.gates; by = pins })).gates }) }
    ensures net { IsGateNet net.new }
{
    if is_dro(cell) {
        return Ok(*pins.get(0));
    }
    let GateRow { cell, pins } = row_of(cell, pins);
    let gate = net.gate(cell, pins)?;
    Ok(Driver::Gate(gate))
}

/// Adds the gates of the least formula of a table, so deep, over leaves with these drivers, and answers what drives it.
pub(crate) fn walk(
    alloc: Global,
    net: &mut GateNet,
    p: &Patterns,
    leaves: &[Driver],
    table: u8,
    depth: u32,
) -> Result<Driver, NoMemory>
    requires net { IsGateNet net.old }
    requires ready { IsReady net.old.inputs (length net.old.gates) leaves.now depth table }
    requires room { length net.old.gates + most_gates depth < 2 ^ 31 }
    ensures by { IfOk result (λ by. by ≡ (spec.walked leaves.now depth net.old.gates table).by) }
    ensures ok { OnOk result (net.new ≡ record net.old { gates = (spec.walked leaves.now depth net.old.gates table).gates }) }
    ensures net { OnOk result (IsGateNet net.new) }
{
    if depth == 0 {
        return Ok(leaves[leaf_place(leaves.len(), table)]);
    }
    let Some(head) = p.least(leaves.len() as u32, table, depth) else {
        unreachable!()
    };
    let parts = part_tables(head);
    let mut pins = List::new(alloc);
    for part in &parts[..arity(head.cell) as usize] {
        let pin = walk(alloc, net, p, leaves, *part, depth - 1)?;
        pins.push(pin)?;
    }
    with_cell(net, head.cell, pins)
}
