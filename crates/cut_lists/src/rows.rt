//! The rows of all nodes, in order.

ghost use Rattle.std.specs.Prelude.{◌≡◌, ◌<◌, ◌≤◌, [], ◌∷◌, ◌++◌, length, take, ◌↔◌, IsTrue, IfOk, OnOk, OnErr, slice_index_or};
ghost use Rattle.net_base.specs.Graph.{IsProper};
ghost use Rattle.cut_lists.specs.Rows.{node_words, all_words, row_with, words_in};

use crate::node::row_of;
use crate::row::Row;
use net_base::{GNode, Graph, NoMemory};
use std::alloc::Global;
use std::marker::Model;

/// Rows in order, one for each node, which contracts see as the list of their words. A row takes 136 bytes.
#[derive(Debug, Drop)]
pub struct Rows {
    rows: Vec<Row>,
}

impl Model for Rows {
    ghost use Rattle.std.specs.Prelude.{◌≡◌, List, ℕ, map, All};
    ghost use Rattle.cut_lists.specs.Rows.{words_in, IsClean};

    ghost Value = { List (List ℕ) };

    ghost view = { λ rows. map words_in rows.rows.items };

    ghost invariant = { λ rows. All IsClean rows.rows.items };
}

impl Rows {
    /// No row. It takes no memory.
    pub fn new(alloc: Global) -> Rows
        ensures { result ≡ [] }
    {
        Rows {
            rows: Vec::new(alloc),
        }
    }

    /// Adds a row of at most eight cuts at the end. After `NoMemory` the rows are unchanged.
    pub fn push(&mut self, row: &Row) -> Result<(), NoMemory>
        requires { row.now.len ≤ 8 }
        ensures ok { OnOk result (self.new ≡ self.old ++ words_in row.now ∷ []) }
        ensures err { OnErr result (self.new ≡ self.old) }
    {
        let row = clean(row);
        self.rows.push(row)?;
        Ok(())
    }

    /// The row at a place, counted from 0: its words, with zeros behind them. It takes no memory.
    pub fn row(&self, i: u32) -> Row
        requires { i < length self.now }
        ensures { result ≡ row_with (slice_index_or self.now i []) }
    {
        self.rows[i as usize]
    }

    /// How many rows there are.
    pub fn len(&self) -> usize
        ensures { result ≡ length self.now }
    {
        self.rows.len()
    }

    /// Whether there is no row.
    pub fn is_empty(&self) -> bool
        ensures { IsTrue result ↔ (self.now ≡ []) }
    {
        self.rows.is_empty()
    }
}

// The row of the words that a row uses.
fn clean(row: &Row) -> Row
    requires { row.now.len ≤ 8 }
    ensures row { result ≡ row_with (words_in row.now) }
    ensures words { words_in result ≡ words_in row.now }
{
    let used = 2 * row.len as usize;
    let mut words = [0; 16];
    words[..used].copy_from_slice(&row.words[..used]);
    Row {
        len: row.len,
        words,
    }
}

/// The rows of all cut lists of a graph, in order of its nodes.
pub fn all_rows(alloc: Global, graph: &Graph) -> Result<Rows, NoMemory>
    requires { IsProper graph.now }
    ensures { IfOk result (λ rows. rows ≡ all_words graph.now) }
{
    let mut rows = Rows {
        rows: Vec::with_capacity(alloc, graph.nodes.len())?,
    };
    for i in 0..graph.nodes.len() as u32 {
        let row = next_row(graph, &rows, i);
        rows.push(&row)?;
    }
    Ok(rows)
}

// The row of the next node, from the rows of those before it.
fn next_row(graph: &Graph, rows: &Rows, i: u32) -> Row
    requires proper { IsProper graph.now }
    requires node { i < length graph.now.nodes }
    requires rows { rows.now ≡ take i (all_words graph.now) }
    ensures { result ≡ row_with (node_words graph.now i) }
{
    match *graph.nodes.get(i as usize) {
        GNode::Inp(_) => row_of(graph, i, &NONE, &NONE),
        GNode::Neg(j) => {
            let a = rows.row(j);
            row_of(graph, i, &a, &a)
        }
        GNode::Both(j, k) => row_of(graph, i, &rows.row(j), &rows.row(k)),
    }
}

// The row of no cut, in the place of fan-ins that an input doesn't have.
const NONE: Row = Row {
    len: 0,
    words: [0; 16],
};
