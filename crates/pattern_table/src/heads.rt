//! The tables of one depth, and heads over them.

ghost use Rattle.std.specs.Prelude.{◌≡◌, ◌<◌, ◌^◌, [], ◌∷◌};
ghost use Rattle.cell_lib.specs.declared.cell.Cell.TheVariants.{Maj};
ghost use Rattle.pattern_table.specs.Least.{head_over};

use crate::Formula;
use cell_lib::{Cell, cost};

/// A table that some uniform formula of a depth has, and the least cost of such a formula.
#[derive(Clone, Copy, Debug, PartialEq, Eq)]
pub(crate) struct Part {
    /// The table.
    pub table: u8,
    /// The least cost of a formula with this table, in Josephson junctions.
    pub cost: u64,
}

/// The head of a cell over one part.
pub(crate) fn head_of_one(cell: Cell, part: Part) -> Formula
    requires { part.cost < 2 ^ 32 }
    ensures { result ≡ head_over cell (part ∷ []) }
{
    Formula {
        cell,
        left: part.table,
        middle: 0,
        right: 0,
        cost: cost(cell) + part.cost,
    }
}

/// The head of a cell over two parts.
pub(crate) fn head_of_two(cell: Cell, left: Part, right: Part) -> Formula
    requires left { left.cost < 2 ^ 32 }
    requires right { right.cost < 2 ^ 32 }
    ensures { result ≡ head_over cell (left ∷ right ∷ []) }
{
    Formula {
        cell,
        left: left.table,
        middle: 0,
        right: right.table,
        cost: cost(cell) + (left.cost + right.cost),
    }
}

/// The head of a majority over three parts.
pub(crate) fn majority_of(left: Part, middle: Part, right: Part) -> Formula
    requires left { left.cost < 2 ^ 32 }
    requires middle { middle.cost < 2 ^ 32 }
    requires right { right.cost < 2 ^ 32 }
    ensures { result ≡ head_over Maj (left ∷ middle ∷ right ∷ []) }
{
    Formula {
        cell: Cell::Maj,
        left: left.table,
        middle: middle.table,
        right: right.table,
        cost: cost(Cell::Maj) + (left.cost + (middle.cost + right.cost)),
    }
}
