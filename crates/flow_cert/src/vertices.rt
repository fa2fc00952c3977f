//! Causes at vertices: units out less units in, against what is wanted.

ghost use Rattle.std.specs.Prelude.{◌≡◌, ◌<◌, ◌^◌, ◌+ℤ◌, ◌-ℤ◌, ◌≤ℤ◌, ◌<ℤ◌, ◌==◌, ℕ, pos, cond, IfOk, length, slice_index_or, slice_set};
ghost use Rattle.flow_net.specs.Flows.{wants as wants_of};
ghost use Rattle.flow_cert.specs.Verdicts.{vertices as vertices_of, vertex_cause as vertex_cause_of};
ghost use Rattle.flow_cert.specs.Sums.{IsBounded, AreBalances, HasRoom, IsNear, balance_cause as balance_cause_of};

use crate::Cause;
use flow_net::{Flow, Net};
use net_base::NoMemory;
use std::alloc::Global;

// What units out less units in are to be: the used inputs at the source, 1 at a gate, 0 at the sink, -1 at a mirror.
fn wants(net: &Net, vertex: u32) -> i64
    ensures { result ≡ wants_of net.now vertex }
{
    match vertex.checked_sub(1) {
        None => i64::from(net.drivers.saturating_sub(net.gates)),
        Some(k) if k < net.gates => 1,
        Some(k) if k == net.gates => 0,
        Some(k) if k - net.gates - 1 < net.drivers => -1,
        Some(_) => 0,
    }
}

// Changes the balance of a vertex.
fn add(balances: &mut [i64], vertex: usize, change: i64)
    requires there { vertex < length balances.old }
    requires low { (pos 0 -ℤ pos (2 ^ 63)) ≤ℤ (slice_index_or balances.old vertex (pos 0) +ℤ change) }
    requires high { (slice_index_or balances.old vertex (pos 0) +ℤ change) <ℤ pos (2 ^ 63) }
    ensures { balances.new ≡ slice_set balances.old vertex (slice_index_or balances.old vertex (pos 0) +ℤ change) }
{
    balances[vertex] += change;
}

// Sends units from one vertex to another.
fn send(balances: &mut [i64], tail: usize, head: usize, units: u32)
    requires tail { tail < length balances.old }
    requires head { head < length balances.old }
    requires room { (v : ℕ) → v < length balances.old → HasRoom (slice_index_or balances.old v (pos 0)) }
    ensures near { (v : ℕ) → v < length balances.old → IsNear (slice_index_or balances.old v (pos 0)) (slice_index_or balances.new v (pos 0)) }
    ensures sent { (v : ℕ) → v < length balances.old → slice_index_or balances.new v (pos 0) ≡ (slice_index_or balances.old v (pos 0) +ℤ cond (tail == v) (pos units) (pos 0)) -ℤ cond (head == v) (pos units) (pos 0) }
{
    add(balances, tail, i64::from(units));
    add(balances, head, -i64::from(units));
}

// Sends the units of each pin, along its forward arc to the user and along its back arc to the mirror of the driver.
fn send_all(balances: &mut [i64], net: &Net, flow: &Flow)
    requires bounded { IsBounded net.now }
    requires each { length flow.now.pins ≡ length net.now.pins }
    requires wide { length balances.old ≡ vertices_of net.now }
    requires empty { (v : ℕ) → v < vertices_of net.now → slice_index_or balances.old v (pos 0) ≡ pos 0 }
    ensures { AreBalances net.now flow.now balances.new }
{
    let pins = net.pins.as_slice();
    let units = flow.pins.as_slice();
    let first_mirror = net.gates as usize + 2;
    for i in 0..pins.len() {
        let pin = pins[i];
        let on = units[i];
        let (user, mirror) = (pin.to as usize, first_mirror + pin.driver as usize);
        send(balances, pin.from as usize, user, on.forward);
        send(balances, user, mirror, on.back);
    }
}

// Units out less units in of each vertex.
fn balances(alloc: Global, net: &Net, flow: &Flow) -> Result<Vec<i64>, NoMemory>
    requires bounded { IsBounded net.now }
    requires each { length flow.now.pins ≡ length net.now.pins }
    ensures { IfOk result (λ balances. AreBalances net.now flow.now balances.items) }
{
    let vertices = net.gates as usize + 2 + net.drivers as usize;
    let mut balances = vec![in alloc; 0i64; vertices]?;
    send_all(balances.as_mut_slice(), net, flow);
    Ok(balances)
}

// The cause at the first vertex whose balance isn't what it wants.
fn balance_cause(net: &Net, balances: &[i64]) -> Option<Cause>
    requires { length balances.now < 2 ^ 32 }
    ensures { result ≡ balance_cause_of net.now 0 balances.now }
{
    for (place, has) in balances.iter().enumerate() {
        let vertex = place as u32;
        let wants = wants(net, vertex);
        if *has != wants {
            return Some(Cause::Balance {
                vertex,
                has: *has,
                wants,
            });
        }
    }
    None
}

/// The cause at the first vertex whose units out less units in aren't what it wants.
pub(crate) fn vertex_cause(alloc: Global, net: &Net, flow: &Flow) -> Result<Option<Cause>, NoMemory>
    requires bounded { IsBounded net.now }
    requires each { length flow.now.pins ≡ length net.now.pins }
    ensures { IfOk result (λ cause. cause ≡ vertex_cause_of net.now flow.now 0 (vertices_of net.now)) }
{
    let balances = balances(alloc, net, flow)?;
    Ok(balance_cause(net, balances.as_slice()))
}
