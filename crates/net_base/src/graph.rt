//! The graph of AND and NOT nodes as plain data, and the test for a proper one.

ghost use Rattle.std.specs.Prelude.{◌<◌, ◌↔◌, IsTrue, All};
ghost use Rattle.net_base.specs.Graph.{IsNodeAt, AreNodes, IsProper, IsRefThere, IsSubject};

use crate::List;

/// The nodes of a graph at most: a leaf of a cut has 20 bits and stands there plus 1, and one number stays free.
pub const MAX_NODES: u32 = 1_048_574;

/// A node of a graph. Fan-ins are numbers of earlier nodes.
#[derive(Clone, Copy, Debug, PartialEq, Eq, Hash)]
pub enum GNode {
    /// The input of this number.
    Inp(u32),
    /// The complement of a node.
    Neg(u32),
    /// The conjunction of two nodes, the lower one first.
    Both(u32, u32),
}

/// What a signal of a design is in its graph.
#[derive(Clone, Copy, Debug, PartialEq, Eq, Hash)]
pub enum Ref {
    /// A constant.
    Const(bool),
    /// The node of this number.
    Node(u32),
}

/// A graph: its inputs, which are the first nodes, and all nodes in order.
#[derive(Clone, Debug, PartialEq, Eq, Drop)]
pub struct Graph {
    /// How many inputs there are.
    pub inputs: u32,
    /// The nodes in order, each behind its fan-ins.
    pub nodes: List<GNode>,
}

/// A graph with what stands at each output of a design.
#[derive(Clone, Debug, PartialEq, Eq, Drop)]
pub struct Subject {
    /// The graph.
    pub graph: Graph,
    /// What stands at each output, in order.
    pub outputs: List<Ref>,
}

// Whether a node may stand at a place: an input at its own, and else behind its fan-ins, the lower one first.
fn is_node_at(inputs: u32, place: usize, node: GNode) -> bool
    ensures { IsTrue result ↔ IsNodeAt inputs place node }
{
    match node {
        GNode::Inp(k) => k as usize == place && k < inputs,
        GNode::Neg(a) => inputs as usize <= place && (a as usize) < place,
        GNode::Both(a, b) => inputs as usize <= place && a < b && (b as usize) < place,
    }
}

fn are_nodes(inputs: u32, nodes: &[GNode]) -> bool
    ensures { IsTrue result ↔ AreNodes inputs nodes.now }
{
    for (place, node) in nodes.iter().enumerate() {
        if !is_node_at(inputs, place, *node) {
            return false;
        }
    }
    true
}

/// Whether a graph is proper: node k is input k exactly for the k below `inputs`, each other node stands behind its
/// fan-ins, of two the lower one first, and there are at most `MAX_NODES` nodes.
pub fn is_proper(graph: &Graph) -> bool
    ensures { IsTrue result ↔ IsProper graph.now }
{
    graph.inputs as usize <= graph.nodes.len()
        && graph.nodes.len() <= MAX_NODES as usize
        && are_nodes(graph.inputs, graph.nodes.as_slice())
}

fn is_ref_there(nodes: usize, signal: Ref) -> bool
    ensures { IsTrue result ↔ IsRefThere nodes signal }
{
    match signal {
        Ref::Const(_) => true,
        Ref::Node(k) => (k as usize) < nodes,
    }
}

fn are_refs_there(nodes: usize, signals: &[Ref]) -> bool
    ensures { IsTrue result ↔ All (IsRefThere nodes) signals.now }
{
    signals.iter().all(|signal| is_ref_there(nodes, *signal))
}

/// Whether a subject is one: its graph is proper, and the node of each output is there.
pub fn is_subject(subject: &Subject) -> bool
    ensures { IsTrue result ↔ IsSubject subject.now }
{
    is_proper(&subject.graph)
        && are_refs_there(subject.graph.nodes.len(), subject.outputs.as_slice())
}
