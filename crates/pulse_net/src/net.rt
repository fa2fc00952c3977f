//! A netlist: inputs, elements in order, outputs, all joined by numbered wires.

ghost use Rattle.std.specs.Prelude.{◌≡◌, ◌<◌, ◌≤◌, ◌+◌, ◌^◌, length, count_by};
ghost use Rattle.pulse_net.specs.Formed.{is_splitter};

use cell_lib::Cell;
use net_base::{List, Name};

/// The names of a netlist: its model, and one for each input and each output, in order.
#[derive(Debug, Drop)]
pub struct Names {
    /// The name of the model.
    pub model: Name,
    /// A name for each input.
    pub inputs: List<Name>,
    /// A name for each output.
    pub outputs: List<Name>,
}

/// What stands between wires. Each wire is made by one element or input, and used by one element or output.
#[derive(Debug, Drop)]
pub enum Element {
    /// A cell that waits for its clock.
    Clocked {
        /// What it computes of its pins.
        cell: Cell,
        /// The tick of its first clock: phases * epoch + phase.
        stage: u32,
        /// The wires that it reads, from the left.
        pins: List<u32>,
        /// The wire that it makes.
        out: u32,
    },
    /// A splitter, which hands each pulse on to both sides at once. It has no clock.
    Split {
        /// The wire that it reads.
        from: u32,
        /// The first wire that it makes.
        left: u32,
        /// The second one.
        right: u32,
    },
}

/// What an output is.
#[derive(Clone, Copy, Debug, PartialEq, Eq)]
pub enum Outlet {
    /// The constant 0: it never pulses.
    Zero,
    /// The constant 1: it pulses at each first tick of an epoch.
    One,
    /// The wire of this number.
    Wire(u32),
}

/// A netlist of pulse elements.
#[derive(Debug, Drop)]
pub struct PulseNet {
    /// What its model, inputs and outputs are called.
    pub names: Names,
    /// Clock phases, 1 to 16: the ticks of an epoch.
    pub phases: u32,
    /// Epochs from a row of inputs to the reading of its outputs, at least 1.
    pub latency: u32,
    /// The wire that each input makes, if it is used.
    pub inputs: List<Option<u32>>,
    /// Drivers stand before their users.
    pub elements: List<Element>,
    /// What stands at each output.
    pub outputs: List<Outlet>,
}

impl PulseNet {
    /// The wires that are made at most: one by each input and each cell, and two by each splitter.
    pub(crate) fn most_wires(&self) -> usize
        requires few_inputs { length self.now.inputs < 2 ^ 31 }
        requires few_elements { length self.now.elements < 2 ^ 31 }
        ensures { result ≡ length self.now.inputs + length self.now.elements + count_by is_splitter self.now.elements }
    {
        self.inputs.len() + self.elements.len() + splitters(self.elements.as_slice())
    }
}

/// How many splitters there are.
fn splitters(elements: &[Element]) -> usize
    ensures count { result ≡ count_by is_splitter elements.now }
    ensures few { result ≤ length elements.now }
{
    elements
        .iter()
        .filter(|element| is_splitter(element))
        .count()
}

/// Whether an element is a splitter.
fn is_splitter(element: &Element) -> bool
    ensures { result ≡ is_splitter element.now }
{
    matches!(element, Element::Split { .. })
}
