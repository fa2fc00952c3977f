//! Which mirrors want a unit: those whose drivers have no unit on any back arc.

ghost use Rattle.std.specs.Prelude.{◌≡◌, length, IfOk};
ghost use Rattle.stage_flow.specs.Residual.{vertex_count};
ghost use Rattle.stage_flow.specs.Given.{IsNetwork};
ghost use Rattle.stage_flow.specs.LawsOfSending.{IsPartFlow};
ghost use Rattle.stage_flow.specs.Search.{SayWhoReceived, is_wanting_by};
ghost use Rattle.stage_flow.specs.Passes.{SayWhoWants};

use crate::incidence::vertices;
use flow_net::{Flow, Net};
use net_base::NoMemory;
use std::alloc::Global;

// The drivers whose mirrors have received units.
fn received_of(alloc: Global, net: &Net, flow: &Flow) -> Result<Vec<bool>, NoMemory>
    requires each { length flow.now.pins ≡ length net.now.pins }
    ensures { IfOk result (λ marks. SayWhoReceived net.now flow.now (length net.now.pins) marks.items) }
{
    let mut marks = vec![in alloc; false; net.drivers as usize]?;
    let units = flow.pins.as_slice();
    for (place, pin) in net.pins.as_slice().iter().enumerate() {
        let driver = pin.driver as usize;
        if units[place].back != 0 && driver < marks.len() {
            marks[driver] = true;
        }
    }
    Ok(marks)
}

// Whether a vertex is a mirror that wants a unit.
fn is_wanting(gates: u32, received: &[bool], vertex: usize) -> bool
    ensures { result ≡ is_wanting_by gates received.now vertex }
{
    let mirrors = gates as usize + 2;
    if vertex < mirrors {
        return false;
    }
    let driver = vertex - mirrors;
    if driver < received.len() {
        !received[driver]
    } else {
        true
    }
}

/// Marks of the mirrors that want.
pub(crate) fn wanting_of(alloc: Global, net: &Net, flow: &Flow) -> Result<Vec<bool>, NoMemory>
    requires net { IsNetwork net.now }
    requires flow { IsPartFlow net.now flow.now }
    ensures each { IfOk result (λ marks. length marks.items ≡ vertex_count net.now) }
    ensures wants { IfOk result (λ marks. SayWhoWants net.now flow.now marks.items) }
{
    let received = received_of(alloc, net, flow)?;
    let received = received.as_slice();
    let mut marks = vec![in alloc; false; vertices(net)]?;
    for vertex in 0..vertices(net) {
        marks[vertex] = is_wanting(net.gates, received, vertex);
    }
    Ok(marks)
}
