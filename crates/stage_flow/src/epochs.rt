//! Epochs, from the lengths of longest walks.

ghost use Rattle.std.specs.Prelude.{◌≡◌, ◌+◌, ◌<◌, ◌^◌, ℕ, pos, IfOk, replicate};
ghost use Rattle.stage_flow.specs.Given.{at_vertex};
ghost use Rattle.stage_flow.specs.LawsOfEpochs.{rise_to, epochs_by};

use flow_net::{Epochs, Net};
use net_base::{List, NoMemory};
use std::alloc::Global;

// The epoch of a vertex: how far it is from the source.
fn epoch(far: &[i64], vertex: usize) -> u32
    requires source { at_vertex far.now 0 ≡ pos 0 }
    requires low { rise_to (at_vertex far.now) vertex < 2 ^ 32 }
    ensures { result ≡ rise_to (at_vertex far.now) vertex }
{
    match far.get(vertex) {
        Some(length) if *length > 0 => *length as u32,
        _ => 0,
    }
}

/// The epochs of gates and sink by their lengths from the source.
pub(crate) fn epochs_from(alloc: Global, net: &Net, far: &[i64]) -> Result<Epochs, NoMemory>
    requires source { at_vertex far.now 0 ≡ pos 0 }
    requires low { (vertex : ℕ) → vertex < net.now.gates + 2 → rise_to (at_vertex far.now) vertex < 2 ^ 32 }
    ensures { IfOk result (λ epochs. epochs ≡ epochs_by net.now (at_vertex far.now)) }
{
    let mut gates: Vec<u32> = Vec::with_capacity(alloc, net.gates as usize)?;
    for gate in 0..net.gates as usize {
        gates.push(epoch(far, gate + 1))?;
    }
    Ok(Epochs {
        gates: List::from_vec(gates),
        sink: epoch(far, net.gates as usize + 1),
    })
}

/// Without a pin no gate waits, and the sink has epoch 1.
pub(crate) fn epochs_without_pins(alloc: Global, net: &Net) -> Result<Epochs, NoMemory>
    ensures { IfOk result (λ epochs. epochs ≡ record { gates = replicate net.now.gates 0; sink = 1 }) }
{
    let gates = vec![in alloc; 0u32; net.gates as usize]?;
    Ok(Epochs {
        gates: List::from_vec(gates),
        sink: 1,
    })
}
