//! The drivers in order: the used inputs, then the gates.

ghost use Rattle.std.specs.Prelude.{◌≡◌, ◌<◌, ◌≤◌, ◌+◌, ◌*◌, ◌-◌, ◌^◌, OnOk, length};
ghost use Rattle.gate_net.specs.Net.{IsThere, pin_drivers};
ghost use Rattle.gate_net.specs.Entries.{entry_of};
ghost use Rattle.splitters.specs.Taps.{taps_of};
ghost use Rattle.splitters.specs.Table.{IsTapped};
ghost use Rattle.splitters.specs.Elements.{with_chain, with_gate, with_gates, with_inputs};

use crate::layout::Layout;
use crate::table::slot;
use crate::taps::Taps;
use dro_chains::Chained;
use gate_net::{Driver, GateRow, entry};
use net_base::NoMemory;
use std::alloc::Global;

// The chain of a driver, from the driver's wire.
fn lay_chain(
    alloc: Global,
    layout: &mut Layout,
    chained: &Chained,
    table: &[Taps],
    driver: Driver,
    wire: u32,
) -> Result<(), NoMemory>
    requires tapped { IsTapped chained.now table.now }
    requires there { IsThere chained.now.gates.inputs (length chained.now.gates.gates) driver }
    requires pins { length layout.old.taken ≡ length (pin_drivers chained.now.gates) }
    requires room { (with_chain chained.now.n (entry_of chained.now.stages driver) wire (taps_of chained.now driver) layout.old).next + 2 < 2 ^ 32 }
    ensures ok { OnOk result (layout.new ≡ with_chain chained.now.n (entry_of chained.now.stages driver) wire (taps_of chained.now driver) layout.old) }
    ensures pins { OnOk result (length layout.new.taken ≡ length layout.old.taken) }
{
    let taps = &table[slot(chained.gates.inputs, driver)];
    layout.lay_chain(
        alloc,
        chained.n,
        entry(chained.stages.as_slice(), driver),
        wire,
        taps.as_slice(),
    )
}

/// The chains of the used inputs.
pub(crate) fn lay_inputs(
    alloc: Global,
    layout: &mut Layout,
    chained: &Chained,
    table: &[Taps],
    wires: &[Option<u32>],
) -> Result<(), NoMemory>
    requires tapped { IsTapped chained.now table.now }
    requires inputs { length wires.now ≡ chained.now.gates.inputs }
    requires few { length wires.now < 2 ^ 32 }
    requires pins { length layout.old.taken ≡ length (pin_drivers chained.now.gates) }
    requires room { (with_inputs chained.now 0 wires.now layout.old).next + 2 < 2 ^ 32 }
    ensures ok { OnOk result (layout.new ≡ with_inputs chained.now 0 wires.now layout.old) }
    ensures pins { OnOk result (length layout.new.taken ≡ length layout.old.taken) }
{
    for (i, wire) in wires.iter().enumerate() {
        if let Some(wire) = *wire {
            lay_chain(alloc, layout, chained, table, Driver::Input(i as u32), wire)?;
        }
    }
    Ok(())
}

// A gate on the wires of its pins, and its chain.
fn lay_gate(
    alloc: Global,
    layout: &mut Layout,
    chained: &Chained,
    table: &[Taps],
    gate: u32,
    pin: usize,
    row: &GateRow,
) -> Result<(), NoMemory>
    requires tapped { IsTapped chained.now table.now }
    requires gate { gate < length chained.now.gates.gates }
    requires pin { pin + length row.now.pins ≤ length layout.old.taken }
    requires pins { length layout.old.taken ≡ length (pin_drivers chained.now.gates) }
    requires room { (with_gate chained.now gate pin row.now layout.old).next + 2 < 2 ^ 32 }
    ensures ok { OnOk result (layout.new ≡ with_gate chained.now gate pin row.now layout.old) }
    ensures pins { OnOk result (length layout.new.taken ≡ length layout.old.taken) }
{
    let driver = Driver::Gate(gate);
    let pins = layout.wires(alloc, pin, row.pins.len())?;
    let wire = layout.cell(row.cell, entry(chained.stages.as_slice(), driver), pins)?;
    lay_chain(alloc, layout, chained, table, driver, wire)
}

/// The gates in order, each on the wires of its pins, with their chains.
pub(crate) fn lay_gates(
    alloc: Global,
    layout: &mut Layout,
    chained: &Chained,
    table: &[Taps],
) -> Result<(), NoMemory>
    requires tapped { IsTapped chained.now table.now }
    requires pins { length layout.old.taken ≡ length (pin_drivers chained.now.gates) }
    requires room { (with_gates chained.now 0 0 chained.now.gates.gates layout.old).next + 2 < 2 ^ 32 }
    ensures ok { OnOk result (layout.new ≡ with_gates chained.now 0 0 chained.now.gates.gates layout.old) }
    ensures pins { OnOk result (length layout.new.taken ≡ length layout.old.taken) }
{
    let mut pin = 0;
    for (gate, row) in chained.gates.gates.as_slice().iter().enumerate() {
        lay_gate(alloc, layout, chained, table, gate as u32, pin, row)?;
        pin += row.pins.len();
    }
    Ok(())
}
