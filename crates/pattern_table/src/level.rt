//! The formulas of one depth from those of the depth below.
//!
//! Cells have one value in any order of their pins, so parts are taken in ascending order of their tables alone: no other order
//! of the same parts comes before it.

ghost use Rattle.std.specs.Prelude.{◌≡◌, ◌<◌, ◌^◌, [], ◌∷◌, Option};
ghost use Rattle.cell_lib.specs.Cell.{arity_of};
ghost use Rattle.pattern_table.specs.Least.{table_of_head, better, is_before};
ghost use Rattle.pattern_table.specs.Steps.{AreNoted, IsLevelOver, AreAscending, AreCheap, single_heads, pair_heads_of, pair_heads, majorities, triple_heads_of, triple_heads};

use crate::Formula;
use crate::formula::comes_first;
use crate::heads::{Part, head_of_one, head_of_two, majority_of};
use crate::tables::{majority, table_of_one, table_of_two};
use cell_lib::Cell;

/// The least formula of each table.
pub(crate) type Level = [Option<Formula>; 256];

/// The least head of each table over these parts.
pub(crate) fn level_over(parts: &[Part]) -> Level
    requires ascending { AreAscending parts.now }
    requires cheap { AreCheap parts.now }
    ensures { IsLevelOver parts.now result }
{
    let mut level = [None; 256];
    add_singles(&mut level, Cell::Dro, parts);
    add_singles(&mut level, Cell::Not, parts);
    add_pairs(&mut level, Cell::And, parts);
    add_pairs(&mut level, Cell::Or, parts);
    add_pairs(&mut level, Cell::Xor, parts);
    add_triples(&mut level, parts);
    level
}

// Notes the heads of a cell of one pin.
fn add_singles(level: &mut Level, cell: Cell, parts: &[Part])
    requires pins { arity_of cell ≡ 1 }
    requires cheap { AreCheap parts.now }
    ensures { AreNoted (single_heads cell parts.now) level.old level.new }
{
    for part in parts {
        offer(
            level,
            table_of_one(cell, part.table),
            head_of_one(cell, *part),
        );
    }
}

// Notes the heads of a cell of two pins.
fn add_pairs(level: &mut Level, cell: Cell, parts: &[Part])
    requires pins { arity_of cell ≡ 2 }
    requires cheap { AreCheap parts.now }
    ensures { AreNoted (pair_heads cell parts.now) level.old level.new }
{
    for (i, left) in parts.iter().enumerate() {
        add_pairs_of(level, cell, *left, &parts[i..]);
    }
}

// Notes the heads of a cell of two pins whose first part is given.
fn add_pairs_of(level: &mut Level, cell: Cell, left: Part, rights: &[Part])
    requires pins { arity_of cell ≡ 2 }
    requires left { left.cost < 2 ^ 32 }
    requires cheap { AreCheap rights.now }
    ensures { AreNoted (pair_heads_of cell left rights.now) level.old level.new }
{
    for right in rights {
        let table = table_of_two(cell, left.table, right.table);
        offer(level, table, head_of_two(cell, left, *right));
    }
}

// Notes the heads of a majority.
fn add_triples(level: &mut Level, parts: &[Part])
    requires cheap { AreCheap parts.now }
    ensures { AreNoted (triple_heads parts.now) level.old level.new }
{
    for (i, left) in parts.iter().enumerate() {
        add_triples_of(level, *left, &parts[i..]);
    }
}

// Notes the heads of a majority whose first part is given.
fn add_triples_of(level: &mut Level, left: Part, parts: &[Part])
    requires left { left.cost < 2 ^ 32 }
    requires cheap { AreCheap parts.now }
    ensures { AreNoted (triple_heads_of left parts.now) level.old level.new }
{
    for (i, middle) in parts.iter().enumerate() {
        add_majorities(level, left, *middle, &parts[i..]);
    }
}

// Notes the heads of a majority whose first two parts are given.
fn add_majorities(level: &mut Level, left: Part, middle: Part, rights: &[Part])
    requires left { left.cost < 2 ^ 32 }
    requires middle { middle.cost < 2 ^ 32 }
    requires cheap { AreCheap rights.now }
    ensures { AreNoted (majorities left middle rights.now) level.old level.new }
{
    for right in rights {
        let table = majority(left.table, middle.table, right.table);
        offer(level, table, majority_of(left, middle, *right));
    }
}

// Notes a head of this table, if it comes before the one that is there.
fn offer(level: &mut Level, table: u8, head: Formula)
    requires { table ≡ table_of_head head }
    ensures { AreNoted (head ∷ []) level.old level.new }
{
    let place = table as usize;
    if comes_first(&head, level[place]) {
        level[place] = Some(head);
    }
}
