//! The elements of a netlist as a simulator has them: places of wires in place of their numbers, and a bit for each pin.

ghost use Rattle.std.specs.Prelude.{◌≡◌, ◌≤◌, ◌∷◌, [], false, length, take, slice_index_or};
ghost use Rattle.cell_lib.specs.Cell.{arity_of, cell_value};
ghost use Rattle.pulse_sim.specs.Sites.{table_of};
ghost use Rattle.pulse_sim.specs.Simulators.{input_pulses};

use cell_lib::Cell;

/// A bit for each pin: whether its wire pulsed since the last clock. A pin that a cell doesn't have is never set.
#[derive(Clone, Copy)]
pub(crate) struct PinBits {
    pub(crate) first: bool,
    pub(crate) second: bool,
    pub(crate) third: bool,
}

/// The places of the wires of the pins, among all wires in the order in which they are made.
#[derive(Clone, Copy)]
pub(crate) struct PinPlaces {
    pub(crate) first: Option<u32>,
    pub(crate) second: Option<u32>,
    pub(crate) third: Option<u32>,
}

/// An element. Its own wires come next in the order.
#[derive(Clone, Copy)]
pub(crate) enum Part {
    /// A cell, its stage modulo the phases, and its pins.
    Clocked(Cell, u8, PinPlaces),
    /// A splitter and its source.
    Split(Option<u32>),
}

/// An element with the bits of its pins.
#[derive(Clone, Copy)]
pub(crate) struct Site {
    pub(crate) part: Part,
    pub(crate) bits: PinBits,
}

/// Whether the wire at a place pulses, among the first wires.
pub(crate) fn is_set(seen: &[bool], place: usize) -> bool
    ensures { result ≡ slice_index_or seen.now place false }
{
    place < seen.len() && seen[place]
}

// A cell's values in the eight rows of three pins, as bits of a number. The first pin is the lowest bit of a row.
fn table_of(cell: Cell) -> u32
    ensures { result ≡ table_of cell }
{
    match cell {
        Cell::Dro => 0b1010_1010,
        Cell::Not => 0b0101_0101,
        Cell::And => 0b1000_1000,
        Cell::Or => 0b1110_1110,
        Cell::Xor => 0b0110_0110,
        Cell::Maj => 0b1110_1000,
    }
}

/// A cell's value over the bits of its pins, looked up, since a branch on the cell would be guessed wrong too often.
pub(crate) fn value_of(cell: Cell, bits: PinBits) -> bool
    ensures { result ≡ cell_value cell (take (arity_of cell) (bits.first ∷ (bits.second ∷ (bits.third ∷ [])))) }
{
    let row = u32::from(bits.first) + 2 * u32::from(bits.second) + 4 * u32::from(bits.third);
    (table_of(cell) >> row) % 2 == 1
}

/// What an output shows: nothing, the first tick of each epoch, or the wire at a place.
#[derive(Clone, Copy)]
pub(crate) enum Tap {
    /// No pulse.
    Zero,
    /// A pulse at each first tick of an epoch.
    One,
    /// The wire at this place.
    At(Option<u32>),
}

/// The pulses of the used inputs in a tick come first. An input past the end of the row has none.
pub(crate) fn write_inputs(pulses: &mut [bool], inputs: &[usize], row: &[bool])
    requires { length inputs.now ≤ length pulses.old }
    ensures { take (length inputs.now) pulses.new ≡ input_pulses row.now inputs.now }
{
    for (at, input) in inputs.iter().enumerate() {
        pulses[at] = *input < row.len() && row[*input];
    }
}
