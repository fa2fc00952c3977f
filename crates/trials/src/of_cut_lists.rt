//! The cut lists of a small graph, worked by hand.

use cut_lists::{Rows, all_rows};
use net_base::{GNode, Graph, List, is_proper};
use std::alloc::Global;

// a, b, not b, and a and not b.
static NODES: [GNode; 4] = [
    GNode::Inp(0),
    GNode::Inp(1),
    GNode::Neg(1),
    GNode::Both(0, 2),
];

static WORDS: [&[u64]; 4] = [
    &[0x4000_0100_0000_0000, 0xAA],
    &[0x4000_0200_0000_0000, 0xAA],
    &[0x4000_0300_0000_0000, 0xAA, 0x4000_0200_0000_0000, 0x55],
    &[
        0x4000_0400_0000_0000,
        0xAA,
        0x8000_0100_0030_0000,
        0x88,
        0x8000_0100_0020_0000,
        0x22,
    ],
];

fn is_row(rows: &Rows, node: u32, words: &[u64]) -> bool {
    if node as usize >= rows.len() {
        return false;
    }
    let row = rows.row(node);
    u64::from(row.len) * 2 == words.len() as u64
        && row.words.starts_with(words)
        && row.words.iter().skip(words.len()).all(|word| *word == 0)
}

fn are_rows(rows: &Rows) -> bool {
    rows.len() == WORDS.len()
        && is_row(rows, 0, WORDS[0])
        && is_row(rows, 1, WORDS[1])
        && is_row(rows, 2, WORDS[2])
        && is_row(rows, 3, WORDS[3])
}

fn graph(alloc: Global) -> Option<Graph> {
    let nodes = List::from_slice(alloc, &NODES).ok()?;
    Some(Graph { inputs: 2, nodes })
}

// The rows as they are made, and once more, each pushed behind the others.
fn are_listed(alloc: Global) -> Option<bool> {
    let graph = graph(alloc)?;
    if !is_proper(&graph) {
        return None;
    }
    let rows = all_rows(alloc, &graph).ok()?;
    let again = copied(alloc, &rows)?;
    Some(are_rows(&rows) && are_rows(&again))
}

fn copied(alloc: Global, rows: &Rows) -> Option<Rows> {
    let mut copy = Rows::new(alloc);
    for node in 0..4u32 {
        if node as usize >= rows.len() {
            return None;
        }
        let row = rows.row(node);
        if row.len > 8 {
            return None;
        }
        copy.push(&row).ok()?;
    }
    Some(copy)
}

#[test]
fn each_node_has_its_cuts(rt: HostRuntime) {
    assert!(rt; are_listed(rt.alloc()) == Some(true));
}
