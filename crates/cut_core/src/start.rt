//! The start: inputs are published and have their rows, and all other nodes are free.

ghost use Rattle.std.specs.Prelude.{◌≡◌, IfOk};
ghost use Rattle.net_base.specs.Graph.{IsProper};
ghost use Rattle.cut_core.specs.Machine.{states_at_start};
ghost use Rattle.cut_core.specs.Machine as spec;
ghost use Rattle.cut_core.specs.Cores.{AreRowsOf};

use crate::event::NodeState;
use cut_lists::{Row, row_of};
use net_base::{GNode, Graph, NoMemory};
use std::alloc::Global;

/// The row of no cut, in the place of rows that aren't known.
pub(crate) const NONE: Row = Row {
    len: 0,
    words: [0; 16],
};

// The state of a node at the start.
fn state_at_start(node: GNode) -> NodeState
    ensures { result ≡ spec.state_at_start node }
{
    match node {
        GNode::Inp(_) => NodeState::Published,
        GNode::Neg(_) | GNode::Both(_, _) => NodeState::Free,
    }
}

/// The states of all nodes at the start.
pub(crate) fn first_states(alloc: Global, graph: &Graph) -> Result<Vec<NodeState>, NoMemory>
    ensures { IfOk result (λ states. states.items ≡ states_at_start graph.now) }
{
    let nodes = graph.nodes.as_slice();
    nodes
        .iter()
        .map(|node| state_at_start(*node))
        .collect(alloc)
}

/// A place for the row of each node, with the rows of the inputs.
pub(crate) fn first_rows(alloc: Global, graph: &Graph) -> Result<Vec<Row>, NoMemory>
    requires { IsProper graph.now }
    ensures { IfOk result (λ rows. AreRowsOf graph.now (states_at_start graph.now) rows.items) }
{
    let mut rows = vec![in alloc; NONE; graph.nodes.len()]?;
    for i in 0..graph.inputs {
        rows[i as usize] = row_of(graph, i, &NONE, &NONE);
    }
    Ok(rows)
}
