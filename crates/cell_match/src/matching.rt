//! The candidates of a node.

ghost use Rattle.std.specs.Prelude.{◌≡◌, ◌≤◌, ◌<◌, ◌++◌, List, IfOk, OnOk, slice_index_or};
ghost use Rattle.cut_word.specs.Cut.{CutView};
ghost use Rattle.cut_lists.specs.Rows.{IsRowOf};
ghost use Rattle.cell_match.specs.Candidates as spec;
ghost use Rattle.cell_match.specs.Candidates.{candidates, cut_matches, is_plain_table};

use cut_lists::Row;
use cut_word::{Cut, from_words, to_words, unpack};
use net_base::{List, NoMemory};
use pattern_table::{MAX_DEPTH, Patterns};
use std::alloc::Global;

/// A candidate: a cut of a node, and a depth at which cells have the cut's table.
#[derive(Clone, Copy, Debug, PartialEq, Eq)]
pub struct Match {
    /// The first word of the cut: its size and its leaves.
    pub leaves: u64,
    /// The cut's truth table.
    pub table: u8,
    /// How many levels of cells, from 1 to 4.
    pub depth: u32,
    /// The cost of the least formula, in Josephson junctions.
    pub cost: u64,
}

// The tables of constants, and of single leaves: a cell would be of no use.
const PLAIN_TABLES: [u8; 5] = [0x00, 0xFF, 0xAA, 0xCC, 0xF0];

/// All candidates of a node, by place in its row, then by depth.
pub fn matches(alloc: Global, p: &Patterns, row: &Row) -> Result<List<Match>, NoMemory>
    requires { (cuts : List CutView) × IsRowOf cuts row.now }
    ensures { IfOk result (λ found. (cuts : List CutView) → IsRowOf cuts row.now → found ≡ candidates cuts) }
{
    let mut found = List::new(alloc);
    for place in 1..row.len {
        add_matches(&mut found, p, cut_at(row, place))?;
    }
    Ok(found)
}

// The cut at a place of a row.
fn cut_at(row: &Row, place: u32) -> Cut
    requires cuts { (cuts : List CutView) × IsRowOf cuts row.now }
    requires place { place < row.now.len }
    ensures { (cuts : List CutView) (d : CutView) → IsRowOf cuts row.now → result ≡ slice_index_or cuts place d }
{
    let first = 2 * place as usize;
    match from_words(row.words[first], row.words[first + 1]) {
        Some(cut) => cut,
        None => unreachable!(),
    }
}

// Adds the candidates of a cut, by depth.
fn add_matches(found: &mut List<Match>, p: &Patterns, cut: Cut) -> Result<(), NoMemory>
    ensures { OnOk result (found.new ≡ found.old ++ cut_matches cut) }
{
    if is_plain(unpack(cut).table) {
        return Ok(());
    }
    for depth in 1..MAX_DEPTH + 1 {
        if let Some(candidate) = match_at(p, cut, depth) {
            found.push(candidate)?;
        }
    }
    Ok(())
}

// Whether the table is a constant's, or that of a single leaf.
fn is_plain(table: u8) -> bool
    ensures { result ≡ is_plain_table table }
{
    PLAIN_TABLES.iter().any(|plain| *plain == table)
}

// The candidate of a cut at a depth, where a formula of this depth has the cut's table.
fn match_at(p: &Patterns, cut: Cut, depth: u32) -> Option<Match>
    requires { (1 ≤ depth) × (depth ≤ 4) }
    ensures { result ≡ spec.match_at cut depth }
{
    let parts = unpack(cut);
    let (leaves, _) = to_words(cut);
    let formula = p.least(parts.size, parts.table, depth)?;
    Some(Match {
        leaves,
        table: parts.table,
        depth,
        cost: formula.cost,
    })
}
