//! Balanced epochs, and what a pin needs.

ghost use Rattle.std.specs.Prelude.{◌≡◌, ◌↔◌, All, IsTrue};
ghost use Rattle.flow_net.specs.Epochs.{epoch_at as epoch_of, need_of, IsPinBalanced, IsBalanced};

use crate::{Epochs, Net, Pin};

/// The epoch of a vertex: 0 of the source, a gate's own, and the sink's behind the gates.
pub fn epoch_at(epochs: &Epochs, vertex: u32) -> u32
    ensures { result ≡ epoch_of epochs.now vertex }
{
    match vertex.checked_sub(1) {
        Some(k) => match epochs.gates.as_slice().get(k as usize) {
            Some(epoch) => *epoch,
            None => epochs.sink,
        },
        None => 0,
    }
}

/// The DROs that a pin needs: the gap in epochs less the weight.
pub fn need(epochs: &Epochs, pin: &Pin) -> u32
    ensures { result ≡ need_of epochs.now pin.now }
{
    epoch_at(epochs, pin.to)
        .saturating_sub(epoch_at(epochs, pin.from))
        .saturating_sub(pin.weight)
}

fn is_pin_balanced(epochs: &Epochs, pin: &Pin) -> bool
    ensures { IsTrue result ↔ IsPinBalanced epochs.now pin.now }
{
    u64::from(epoch_at(epochs, pin.from)) + u64::from(pin.weight)
        <= u64::from(epoch_at(epochs, pin.to))
}

/// Whether there is an epoch per gate, and every pin's user is its weight or more epochs behind the driver.
pub fn is_balanced(net: &Net, epochs: &Epochs) -> bool
    ensures { IsTrue result ↔ IsBalanced net.now epochs.now }
{
    epochs.gates.len() == net.gates as usize && are_pins_balanced(epochs, net.pins.as_slice())
}

fn are_pins_balanced(epochs: &Epochs, pins: &[Pin]) -> bool
    ensures { IsTrue result ↔ All (IsPinBalanced epochs.now) pins.now }
{
    pins.iter().all(|pin| is_pin_balanced(epochs, pin))
}
