//! Tables of cells over the tables of their parts.

ghost use Rattle.std.specs.Prelude.{◌≡◌, [], ◌∷◌};
ghost use Rattle.cell_lib.specs.Cell.{arity_of};
ghost use Rattle.cell_lib.specs.declared.cell.Cell.TheVariants.{Maj};
ghost use Rattle.pattern_table.specs.Formula.{table_over};

use cell_lib::Cell;

/// The table of a cell of one pin over a part's.
pub(crate) fn table_of_one(cell: Cell, part: u8) -> u8
    requires { arity_of cell ≡ 1 }
    ensures { result ≡ table_over cell (part ∷ []) }
{
    match cell {
        Cell::Not => 0xFF - part,
        _ => part,
    }
}

/// The table of a cell of two pins over those of its parts.
pub(crate) fn table_of_two(cell: Cell, left: u8, right: u8) -> u8
    requires { arity_of cell ≡ 2 }
    ensures { result ≡ table_over cell (left ∷ right ∷ []) }
{
    match cell {
        Cell::And => left & right,
        Cell::Or => left | right,
        _ => left ^ right,
    }
}

/// The table of a majority over those of its parts.
pub(crate) fn majority(left: u8, middle: u8, right: u8) -> u8
    ensures { result ≡ table_over Maj (left ∷ middle ∷ right ∷ []) }
{
    left & middle | right & (left | middle)
}
