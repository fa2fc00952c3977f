//! Designs by numbered names.

use crate::NameTable;
use net_base::{List, Name};

/// The inputs of a design at most. The four limits are this project's own choice: they bound what a design takes, and keep
/// all counts far below 2^31, up to which lists may be numbered by u32.
pub const MAX_INPUTS: u32 = 4_096;

/// The outputs of a design at most, as many as inputs.
pub const MAX_OUTPUTS: u32 = 4_096;

/// The tables of a design at most. With `MAX_PINS` they have at most 2^24 pins together.
pub const MAX_TABLES: u32 = 65_536;

/// The pins of a table at most, and so the bits of a row.
pub const MAX_PINS: u32 = 256;

/// What a row of a table asks of a pin.
#[derive(Clone, Copy, Debug, PartialEq, Eq, Hash)]
pub enum Bit {
    /// `0`: the pin is false.
    Zero,
    /// `1`: the pin is true.
    One,
    /// `-`: nothing.
    Any,
}

/// A row of a table, which BLIF calls a cube: what it asks of each pin.
#[derive(Clone, Debug, PartialEq, Eq, Drop)]
pub struct Cube {
    /// A bit for each pin, from the left.
    pub bits: List<Bit>,
}

/// A table of a `.names` line: it drives its target with a value made of those of its pins.
#[derive(Clone, Debug, PartialEq, Eq, Drop)]
pub struct Table {
    /// The line of its `.names`, counted from 1.
    pub line: u32,
    /// The signals that it reads, in the order of the text, repeats allowed.
    pub pins: List<u32>,
    /// The signal that it drives.
    pub target: u32,
    /// Its rows, in the order of the text.
    pub rows: List<Cube>,
    /// Whether the table is true where a row matches: its rows have output 1, or it has none. Else its rows have output 0,
    /// and it is true where no row matches.
    pub on: bool,
}

/// A model with its inputs, outputs and tables, each in the order of the text. A signal is the number of its name.
#[derive(Debug, PartialEq, Eq, Drop)]
pub struct Design {
    /// The model's name.
    pub name: Name,
    /// The names of all signals.
    pub names: NameTable,
    /// The inputs.
    pub inputs: List<u32>,
    /// The outputs.
    pub outputs: List<u32>,
    /// The tables.
    pub tables: List<Table>,
}

/// A design with the places of its tables in an order in which each stands behind the tables that drive its pins.
#[derive(Debug, PartialEq, Eq, Drop)]
pub struct Ordered {
    /// The design.
    pub design: Design,
    /// The places of its tables, by level and place.
    pub order: List<u32>,
}
