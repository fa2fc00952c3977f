//! The cells and their tables.

ghost use Rattle.std.specs.Prelude.{◌≡◌, ◌∷◌, [], take};
ghost use Rattle.cell_lib.specs.Cell.{arity_of, rank_of, junctions_of, cell_value, is_dro};

/// What a splitter costs, in Josephson junctions. It has no clock, so it is no `Cell`.
pub const SPLITTER_COST: u64 = 3;

/// A clocked cell. The order is that of the ranks.
#[derive(Clone, Copy, Debug, PartialEq, Eq, PartialOrd, Ord, Hash)]
pub enum Cell {
    /// Passes its one pin on: a destructive read-out, which holds a pulse for one clock.
    Dro,
    /// Pulses where its one pin did not.
    Not,
    /// Pulses where both pins did.
    And,
    /// Pulses where one of its pins did, or both.
    Or,
    /// Pulses where just one of its pins did.
    Xor,
    /// Pulses where at least two of its three pins did: their majority.
    Maj,
}

/// How many pins the cell has, 1 to 3.
pub fn arity(cell: Cell) -> u32
    ensures { result ≡ arity_of cell }
{
    match cell {
        Cell::Dro | Cell::Not => 1,
        Cell::And | Cell::Or | Cell::Xor => 2,
        Cell::Maj => 3,
    }
}

/// The cell's place among the cells, 0 to 5. Among formulas of one cost the cell of the least rank comes first.
pub fn rank(cell: Cell) -> u32
    ensures { result ≡ rank_of cell }
{
    match cell {
        Cell::Dro => 0,
        Cell::Not => 1,
        Cell::And => 2,
        Cell::Or => 3,
        Cell::Xor => 4,
        Cell::Maj => 5,
    }
}

/// What the cell costs, in Josephson junctions.
pub fn cost(cell: Cell) -> u64
    ensures { result ≡ junctions_of cell }
{
    match cell {
        Cell::Dro => 6,
        Cell::Not | Cell::Or => 9,
        Cell::And | Cell::Xor => 11,
        Cell::Maj => 13,
    }
}

/// The cell's value at pins of the values `a`, `b` and `d`, of which a cell ignores what is beyond its pins.
pub fn apply(cell: Cell, a: bool, b: bool, d: bool) -> bool
    ensures { result ≡ cell_value cell (take (arity_of cell) (a ∷ b ∷ d ∷ [])) }
{
    match cell {
        Cell::Dro => a,
        Cell::Not => !a,
        Cell::And => a && b,
        Cell::Or => a || b,
        Cell::Xor => a != b,
        Cell::Maj => (a && b) || (a && d) || (b && d),
    }
}

/// Whether the cell is a DRO, which only holds its pin's pulse for one clock. Every other cell is a gate.
pub fn is_dro(cell: Cell) -> bool
    ensures { result ≡ is_dro cell }
{
    matches!(cell, Cell::Dro)
}
