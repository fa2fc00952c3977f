//! The network, epochs and flows, as plain data.

use net_base::List;

/// A pin of the network: one use of a driver.
#[derive(Clone, Copy, Debug, PartialEq, Eq)]
pub struct Pin {
    /// The driver's number: used inputs in order, then gates in order.
    pub driver: u32,
    /// The driver's vertex: 0, the source, for an input, and k + 1 for gate k.
    pub from: u32,
    /// The user's vertex: a gate's, or the sink's, one behind the last gate's.
    pub to: u32,
    /// The least gap in epochs from the driver to the user: 0 or 1.
    pub weight: u32,
}

/// The network of a gate netlist.
#[derive(Clone, Debug, PartialEq, Eq, Drop)]
pub struct Net {
    /// How many gates there are.
    pub gates: u32,
    /// How many drivers there are: used inputs and gates.
    pub drivers: u32,
    /// The pins, by gate and place in the gate, then those of the outputs.
    pub pins: List<Pin>,
}

/// One epoch per gate, and the sink's. The source has epoch 0.
#[derive(Clone, Debug, PartialEq, Eq, Drop)]
pub struct Epochs {
    /// The epochs of the gates, in order.
    pub gates: List<u32>,
    /// The epoch of the sink: the latency.
    pub sink: u32,
}

/// The units on the two arcs of a pin.
#[derive(Clone, Copy, Debug, PartialEq, Eq)]
pub struct Units {
    /// On the arc from the driver to the user.
    pub forward: u32,
    /// On the arc from the user to the driver's mirror.
    pub back: u32,
}

/// A flow: units for each pin, in order.
#[derive(Clone, Debug, PartialEq, Eq, Drop)]
pub struct Flow {
    /// The units, in the order of pins.
    pub pins: List<Units>,
}
