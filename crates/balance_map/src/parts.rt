//! The parts of a formula, and the leaf that a formula of depth 0 is.

ghost use Rattle.std.specs.Prelude.{◌≡◌, ◌<◌, take, unwrap_or};
ghost use Rattle.cell_lib.specs.Cell.{arity_of};
ghost use Rattle.pattern_table.specs.Least.{leaf_at, parts_of};

use cell_lib::Cell;
use pattern_table::Formula;

// The table of the second leaf.
const SECOND: u8 = 0xCC;

// The table of the third leaf.
const THIRD: u8 = 0xF0;

/// The tables of the parts of a formula from the left, as many as its cell has pins, with zeros behind them.
pub(crate) fn part_tables(head: &Formula) -> [u8; 3]
    ensures { take (arity_of head.now.cell) result ≡ parts_of head.now }
{
    match head.cell {
        Cell::Dro | Cell::Not => [head.left, 0, 0],
        Cell::And | Cell::Or | Cell::Xor => [head.left, head.right, 0],
        Cell::Maj => [head.left, head.middle, head.right],
    }
}

/// The place of the leaf with this table, of so many leaves; a table that no leaf has counts as the first one's.
pub(crate) fn leaf_place(size: usize, table: u8) -> usize
    ensures place { result ≡ unwrap_or (leaf_at size table) 0 }
    ensures within { 0 < size → result < size }
{
    if table == SECOND && size > 1 {
        1
    } else if table == THIRD && size > 2 {
        2
    } else {
        0
    }
}
