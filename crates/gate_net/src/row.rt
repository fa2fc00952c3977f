//! Drivers, the ends of outputs, and the rows of gates.

use cell_lib::Cell;
use net_base::List;

/// What drives a pin or an output. Inputs come first in the order.
#[derive(Clone, Copy, Debug, PartialEq, Eq, PartialOrd, Ord, Hash)]
pub enum Driver {
    /// The input of this number.
    Input(u32),
    /// The gate of this number.
    Gate(u32),
}

/// What an output gives.
#[derive(Clone, Copy, Debug, PartialEq, Eq, Hash)]
pub enum End {
    /// The constant false.
    Zero,
    /// The constant true.
    One,
    /// The value of a driver.
    From(Driver),
}

/// A gate: a cell, and the driver of each of its pins in order.
#[derive(Clone, Debug, PartialEq, Eq, Hash, Drop)]
pub struct GateRow {
    /// The cell.
    pub cell: Cell,
    /// The drivers of its pins.
    pub pins: List<Driver>,
}
