//! Whether each gate has a use, by a mark for each gate, in linear time.

ghost use Rattle.std.specs.Prelude.{◌≡◌, ◌<◌, ◌||◌, ◌↔◌, ℕ, All, IfOk, IsTrue, false, true, length, slice_index_or};
ghost use Rattle.std.specs.List.{list_any};
ghost use Rattle.gate_net.specs.declared.row.Driver.TheVariants.{Gate};
ghost use Rattle.gate_net.specs.Rows.{same_driver};
ghost use Rattle.gate_net.specs.Net.{EachGateIsUsed};

use crate::{Driver, GateNet, pin_drivers};
use net_base::NoMemory;
use std::alloc::Global;

// Marks the driver, if it is one of the gates.
fn mark(marks: &mut [bool], driver: Driver)
    ensures { (k : ℕ) → k < length marks.old → slice_index_or marks.new k false ≡ (same_driver (Gate k) driver || slice_index_or marks.old k false) }
{
    if let Driver::Gate(k) = driver
        && (k as usize) < marks.len()
    {
        marks[k as usize] = true;
    }
}

// For each of `gates` gates, whether it is among the drivers.
fn used_marks(alloc: Global, gates: usize, drivers: &[Driver]) -> Result<Vec<bool>, NoMemory>
    ensures each { IfOk result (λ marks. length marks.items ≡ gates) }
    ensures value { IfOk result (λ marks. (k : ℕ) → k < gates → slice_index_or marks.items k false ≡ list_any (same_driver (Gate k)) drivers.now) }
{
    let mut marks = vec![in alloc; false; gates]?;
    for driver in drivers {
        mark(marks.as_mut_slice(), *driver);
    }
    Ok(marks)
}

fn are_set(marks: &[bool]) -> bool
    ensures { IsTrue result ↔ All (λ mark. mark ≡ true) marks.now }
{
    marks.iter().all(|mark| *mark)
}

/// Whether each gate drives a pin of a gate, or an output.
pub fn is_each_gate_used(alloc: Global, net: &GateNet) -> Result<bool, NoMemory>
    ensures { IfOk result (λ used. IsTrue used ↔ EachGateIsUsed net.now) }
{
    let drivers = pin_drivers(alloc, net)?;
    let marks = used_marks(alloc, net.gates.len(), drivers.as_slice())?;
    Ok(are_set(marks.as_slice()))
}
