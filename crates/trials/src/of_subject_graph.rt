//! The graphs of long chains of tables, by their numbers of nodes.

use blif_check::order;
use blif_read::{MAX_TEXT_BYTES, read};
use net_base::NoMemory;
use std::alloc::Global;
use subject_graph::{GraphFault, build};

// A chain of tables: the first one reads inputs alone, and each other one has the target before it for its first pin.
struct Chain {
    inputs: &'static str,
    first: &'static str,
    others: &'static str,
    rows: &'static str,
}

// An exclusive or in each table. Its graph has 6 nodes for each table, and 4 more.
static OF_TWO: Chain = Chain {
    inputs: ".inputs x y\n",
    first: " y",
    others: " x",
    rows: "\n10 1\n01 1\n",
};

// One of three, or all, in each table: 18 nodes, and 6 more.
static OF_THREE: Chain = Chain {
    inputs: ".inputs x y z\n",
    first: " z",
    others: " x y",
    rows: "\n100 1\n010 1\n001 1\n111 1\n",
};

// A blank and the name of a number of 16 bits.
fn push_name(text: &mut Vec<u8>, number: u32) -> Result<(), NoMemory> {
    text.extend_from_slice(b" n")?;
    for place in [12u32, 8, 4, 0] {
        text.push(b'a' + (number >> place & 15) as u8)?;
    }
    Ok(())
}

fn push_table(text: &mut Vec<u8>, chain: &Chain, table: u32) -> Result<(), NoMemory> {
    text.extend_from_slice(b".names")?;
    match table.checked_sub(1) {
        Some(before) => push_name(text, before)?,
        None => text.extend_from_slice(chain.first.as_bytes())?,
    }
    text.extend_from_slice(chain.others.as_bytes())?;
    push_name(text, table)?;
    text.extend_from_slice(chain.rows.as_bytes())
}

fn push_chain(text: &mut Vec<u8>, chain: &Chain, tables: u32) -> Result<(), NoMemory> {
    text.extend_from_slice(chain.inputs.as_bytes())?;
    for table in 0..tables {
        push_table(text, chain, table)?;
    }
    Ok(())
}

// How many nodes the graph of a text has; 0 where they are too many.
fn nodes_of(alloc: Global, text: &[u8]) -> Option<usize> {
    if text.len() > MAX_TEXT_BYTES {
        return None;
    }
    let Ok(design) = read(alloc, text) else {
        return None;
    };
    let Ok(ordered) = order(alloc, design) else {
        return None;
    };
    match build(alloc, &ordered) {
        Ok(subject) => Some(subject.graph.nodes.len()),
        Err(GraphFault::TooManyNodes) => Some(0),
        Err(GraphFault::NoMemory) => None,
    }
}

fn has_nodes(alloc: Global, chain: &Chain, tables: u32, nodes: usize) -> Option<bool> {
    let mut text = Vec::new(alloc);
    push_chain(&mut text, chain, tables).ok()?;
    Some(nodes_of(alloc, text.as_slice())? == nodes)
}

#[test]
fn chains_have_as_many_nodes_as_counted_or_too_many(rt: HostRuntime) {
    let alloc = rt.alloc();
    assert!(rt;
        has_nodes(alloc, &OF_TWO, 1, 10) == Some(true)
            && has_nodes(alloc, &OF_TWO, 43_689, 262_138) == Some(true)
            && has_nodes(alloc, &OF_TWO, 43_690, 262_144) == Some(true)
            && has_nodes(alloc, &OF_THREE, 58_253, 1_048_560) == Some(true)
            && has_nodes(alloc, &OF_THREE, 58_254, 0) == Some(true)
    );
}
