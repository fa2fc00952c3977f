//! The earliest epochs.

ghost use Rattle.std.specs.Prelude.{◌≡◌, ◌≤◌, ◌/◌, IfOk, map};
ghost use Rattle.std.specs.List.{flat_map};
ghost use Rattle.gate_net.specs.Net.{IsGateNet, end_drivers};
ghost use Rattle.gate_net.specs.Entries.{entry_of};
ghost use Rattle.phase_rule.specs.Levels.{largest, levels_of};
ghost use Rattle.flow_net.specs.Epochs.{earliest_epochs as earliest_of};

use crate::Epochs;
use gate_net::{End, GateNet, entry};
use net_base::{List, NoMemory};
use std::alloc::Global;

// The epoch of each gate: how many whole rounds of phases its level is.
fn gate_epochs(alloc: Global, levels: &[u32], n: u32) -> Result<List<u32>, NoMemory>
    requires { 1 ≤ n }
    ensures { IfOk result (λ epochs. epochs ≡ map (λ level. level / n) levels.now) }
{
    let epochs = levels.iter().map(|level| *level / n).collect(alloc)?;
    Ok(List::from_vec(epochs))
}

// The latest epoch of the drivers of outputs, 0 where there are none. A constant has no driver.
fn last_epoch(gates: &[u32], outputs: &[End]) -> u32
    ensures { result ≡ largest (map (entry_of gates.now) (flat_map end_drivers outputs.now)) }
{
    let mut last = 0;
    for end in outputs {
        last = match end {
            End::From(driver) => last.max(entry(gates, *driver)),
            End::Zero | End::One => last,
        };
    }
    last
}

/// The earliest epochs with n phases: each gate's level over n, and the sink 1 behind the last driver of an output.
pub fn earliest_epochs(
    alloc: Global,
    net: &GateNet,
    levels: &List<u32>,
    n: u32,
) -> Result<Epochs, NoMemory>
    requires some { 1 ≤ n }
    requires formed { IsGateNet net.now }
    requires levels { levels.now ≡ levels_of net.now }
    ensures { IfOk result (λ epochs. epochs ≡ earliest_of n net.now) }
{
    let gates = gate_epochs(alloc, levels.as_slice(), n)?;
    let sink = 1 + last_epoch(gates.as_slice(), net.outputs.as_slice());
    Ok(Epochs { gates, sink })
}
