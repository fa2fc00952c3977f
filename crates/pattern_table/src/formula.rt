//! Formulas by their heads, and their order.

ghost use Rattle.std.specs.Prelude.{◌≡◌, Some, if◌then◌else◌};
ghost use Rattle.cell_lib.specs.Cell.{rank_of};
ghost use Rattle.pattern_table.specs.Least as spec;

use cell_lib::{Cell, rank};

/// The head of a formula: its cell, the tables of the cell's parts, and the cost of the whole.
#[derive(Clone, Copy, Debug, PartialEq, Eq)]
pub struct Formula {
    /// The cell at the head.
    pub cell: Cell,
    /// The table of the first part.
    pub left: u8,
    /// The table of the second of three parts; 0 where there are fewer.
    pub middle: u8,
    /// The table of the last part; 0 where there is one part alone.
    pub right: u8,
    /// What the whole formula costs, in Josephson junctions.
    pub cost: u64,
}

/// Whether a formula comes before the best so far, if there is one.
pub(crate) fn comes_first(formula: &Formula, best: Option<Formula>) -> bool
    ensures { spec.better best formula.now ≡ (if result then Some formula.now else best) }
{
    match best {
        Some(best) => is_before(formula, &best),
        None => true,
    }
}

// Whether a formula comes before another: by cost, then by the cell's rank, then by the tables of the parts from the left.
fn is_before(formula: &Formula, other: &Formula) -> bool
    ensures { result ≡ spec.is_before formula.now other.now }
{
    key_of(formula) < key_of(other)
}

// The numbers by which formulas are compared, from the left.
fn key_of(formula: &Formula) -> (u64, u32, u8, u8, u8)
    ensures { result ≡ (formula.now.cost, rank_of formula.now.cell, formula.now.left, formula.now.middle, formula.now.right) }
{
    (
        formula.cost,
        rank(formula.cell),
        formula.left,
        formula.middle,
        formula.right,
    )
}
