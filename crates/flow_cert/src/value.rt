//! What a flow is worth, what epochs cost, and the cause where these differ.

ghost use Rattle.std.specs.Prelude.{◌≡◌, ◌<◌, ◌≤◌, ◌^◌, ◌*ℤ◌, ◌-ℤ◌, ◌≤ℤ◌, pos, IfOk, length, sum};
ghost use Rattle.flow_net.specs.Flows.{flow_value as flow_value_of};
ghost use Rattle.flow_net.specs.Epochs.{dro_count as count_of};
ghost use Rattle.flow_cert.specs.Verdicts.{value_cause as value_cause_of};
ghost use Rattle.flow_cert.specs.Sums.{IsBounded};

use crate::Cause;
use flow_net::{Epochs, Flow, Net, Pin, Units, chain_lengths};
use net_base::NoMemory;
use std::alloc::Global;

// What the units of a pin are worth: length times units on its two arcs.
fn pin_value(pin: &Pin, units: &Units) -> i64
    requires { pin.now.weight ≤ 1 }
    ensures value { result ≡ pos pin.now.weight *ℤ (pos units.now.forward -ℤ pos units.now.back) }
    ensures low { (pos 0 -ℤ pos (2 ^ 32)) ≤ℤ result }
    ensures high { result ≤ℤ pos (2 ^ 32) }
{
    i64::from(pin.weight) * (i64::from(units.forward) - i64::from(units.back))
}

/// The value of a flow: the sum of length times units.
pub(crate) fn flow_value(net: &Net, flow: &Flow) -> i64
    requires bounded { IsBounded net.now }
    requires each { length flow.now.pins ≡ length net.now.pins }
    ensures { result ≡ flow_value_of net.now flow.now }
{
    let pins = net.pins.as_slice();
    let units = flow.pins.as_slice();
    let mut value = 0;
    for i in 0..pins.len() {
        value += pin_value(&pins[i], &units[i]);
    }
    value
}

// The sum of the chain lengths of few drivers, which fits a signed number too.
fn total(lengths: &[u32]) -> u64
    requires { length lengths.now < 2 ^ 31 }
    ensures value { result ≡ sum lengths.now }
    ensures few { result < 2 ^ 63 }
{
    let mut total = 0;
    for length in lengths {
        total += u64::from(*length);
    }
    total
}

/// The DRO count of epochs.
pub(crate) fn cost(alloc: Global, net: &Net, epochs: &Epochs) -> Result<u64, NoMemory>
    requires { net.now.drivers < 2 ^ 31 }
    ensures value { IfOk result (λ count. count ≡ count_of net.now epochs.now) }
    ensures few { IfOk result (λ count. count < 2 ^ 63) }
{
    let lengths = chain_lengths(alloc, net, epochs)?;
    Ok(total(lengths.as_slice()))
}

/// The cause where a flow of this value isn't worth this many DROs.
pub(crate) fn value_cause(value: i64, count: u64) -> Option<Cause>
    requires { count < 2 ^ 63 }
    ensures { result ≡ value_cause_of value count }
{
    let count = count as i64;
    if value == count {
        None
    } else {
        Some(Cause::Value { value, count })
    }
}
