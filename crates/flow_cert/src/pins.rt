//! Causes at pins: too few lines, and epochs too near.

ghost use Rattle.std.specs.Prelude.{◌≡◌, ◌<◌, ◌^◌, length};
ghost use Rattle.flow_cert.specs.Verdicts.{length_cause as length_cause_of, gap_of, pin_cause as pin_cause_of};

use crate::Cause;
use flow_net::{Epochs, Flow, Net, Pin, epoch_at};

/// The cause where the flow hasn't a line for each pin.
pub(crate) fn length_cause(net: &Net, flow: &Flow) -> Option<Cause>
    ensures { result ≡ length_cause_of net.now flow.now }
{
    let lines = flow.pins.len() as u64;
    let pins = net.pins.len() as u64;
    if lines == pins {
        None
    } else {
        Some(Cause::Length { lines, pins })
    }
}

// The epoch of the user less that of the driver.
fn gap(epochs: &Epochs, pin: &Pin) -> i64
    ensures { result ≡ gap_of epochs.now pin.now }
{
    i64::from(epoch_at(epochs, pin.to)) - i64::from(epoch_at(epochs, pin.from))
}

/// The cause at the first pin whose gap is below its weight.
pub(crate) fn pin_cause(epochs: &Epochs, pins: &[Pin]) -> Option<Cause>
    requires { length pins.now < 2 ^ 30 }
    ensures { result ≡ pin_cause_of epochs.now 0 pins.now }
{
    for (place, pin) in pins.iter().enumerate() {
        let gap = gap(epochs, pin);
        if gap < i64::from(pin.weight) {
            return Some(Cause::Unbalanced {
                pin: place as u32,
                gap,
                weight: pin.weight,
            });
        }
    }
    None
}
