//! The drivers of all pins.

ghost use Rattle.std.specs.Prelude.{◌≡◌, ◌++◌, IfOk, OnOk};
ghost use Rattle.std.specs.List.{flat_map};
ghost use Rattle.gate_net.specs.Net.{end_drivers, pin_drivers};

use crate::{Driver, End, GateNet, GateRow};
use net_base::{List, NoMemory};
use std::alloc::Global;

// Adds the drivers of the pins of gates.
fn push_gate_pins(drivers: &mut Vec<Driver>, rows: &[GateRow]) -> Result<(), NoMemory>
    ensures { OnOk result (drivers.new.items ≡ drivers.old.items ++ flat_map (λ row. row.pins) rows.now) }
{
    for row in rows {
        drivers.extend_from_slice(row.pins.as_slice())?;
    }
    Ok(())
}

// Adds the drivers of outputs.
fn push_ends(drivers: &mut Vec<Driver>, ends: &[End]) -> Result<(), NoMemory>
    ensures { OnOk result (drivers.new.items ≡ drivers.old.items ++ flat_map end_drivers ends.now) }
{
    for end in ends {
        push_end(drivers, *end)?;
    }
    Ok(())
}

fn push_end(drivers: &mut Vec<Driver>, end: End) -> Result<(), NoMemory>
    ensures { OnOk result (drivers.new.items ≡ drivers.old.items ++ end_drivers end) }
{
    if let End::From(driver) = end {
        drivers.push(driver)?;
    }
    Ok(())
}

/// The driver of each pin, in the order of pins: by gate and place in the gate, then the outputs that are no constants.
pub fn pin_drivers(alloc: Global, net: &GateNet) -> Result<List<Driver>, NoMemory>
    ensures { IfOk result (λ drivers. drivers ≡ pin_drivers net.now) }
{
    let mut drivers = Vec::new(alloc);
    push_gate_pins(&mut drivers, net.gates.as_slice())?;
    push_ends(&mut drivers, net.outputs.as_slice())?;
    Ok(List::from_vec(drivers))
}
