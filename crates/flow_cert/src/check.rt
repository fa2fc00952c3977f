//! The verdict.

ghost use Rattle.std.specs.Prelude.{◌≡◌, ◌<◌, ◌^◌, length, IfOk};
ghost use Rattle.flow_net.specs.Epochs.{dro_count as count_of};
ghost use Rattle.flow_cert.specs.Verdicts.{verdict_of, cause_of as cause_found};
ghost use Rattle.flow_cert.specs.Meaning.{IsNetwork, Means};
ghost use Rattle.flow_cert.specs.Sums.{IsBounded};

use crate::pins::{length_cause, pin_cause};
use crate::value::{cost, flow_value, value_cause};
use crate::vertices::vertex_cause;
use crate::{Cause, Verdict};
use flow_net::{Epochs, Flow, Net};
use net_base::NoMemory;
use std::alloc::Global;

// The first cause why a flow shows nothing of epochs that cost this many DROs.
fn cause_of(
    alloc: Global,
    net: &Net,
    epochs: &Epochs,
    flow: &Flow,
    count: u64,
) -> Result<Option<Cause>, NoMemory>
    requires bounded { IsBounded net.now }
    requires count { count ≡ count_of net.now epochs.now }
    requires few { count < 2 ^ 63 }
    ensures { IfOk result (λ cause. cause ≡ cause_found net.now epochs.now flow.now) }
{
    if let Some(cause) = length_cause(net, flow) {
        return Ok(Some(cause));
    }
    if let Some(cause) = pin_cause(epochs, net.pins.as_slice()) {
        return Ok(Some(cause));
    }
    if let Some(cause) = vertex_cause(alloc, net, flow)? {
        return Ok(Some(cause));
    }
    Ok(value_cause(flow_value(net, flow), count))
}

/// Whether a flow shows that these epochs need the fewest DROs: `Fewest` with their DRO count, or the first cause why not.
/// The network is that of a gate netlist, with one epoch per gate.
pub fn verify(alloc: Global, net: &Net, epochs: &Epochs, flow: &Flow) -> Result<Verdict, NoMemory>
    requires network { IsNetwork net.now }
    requires each { length epochs.now.gates ≡ net.now.gates }
    ensures value { IfOk result (λ verdict. verdict ≡ verdict_of net.now epochs.now flow.now) }
    ensures fewest { IfOk result (λ verdict. Means net.now epochs.now verdict) }
{
    let count = cost(alloc, net, epochs)?;
    Ok(match cause_of(alloc, net, epochs, flow, count)? {
        Some(cause) => Verdict::Bad(cause),
        None => Verdict::Fewest(count),
    })
}
