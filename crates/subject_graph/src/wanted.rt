//! What the complement of a signal is and what the conjunction of two is: a signal that is there, or a node.

ghost use Rattle.std.specs.Prelude.{◌≡◌, ◌<◌, length};
ghost use Rattle.net_base.specs.Graph.{IsRefThere};
ghost use Rattle.subject_graph.specs.Nodes.{node_at};
ghost use Rattle.subject_graph.specs.Steps as spec;

use net_base::{GNode, Ref};

/// What a step asks for.
#[derive(Clone, Copy, Debug)]
pub(crate) enum Wanted {
    /// A signal that is there.
    Ready(Ref),
    /// A node, which may be there or not.
    Needed(GNode),
}

fn complement_of(number: u32, node: GNode) -> Wanted
    ensures { result ≡ spec.complement_of number node }
{
    match node {
        GNode::Neg(other) => Wanted::Ready(Ref::Node(other)),
        GNode::Inp(_) | GNode::Both(_, _) => Wanted::Needed(GNode::Neg(number)),
    }
}

/// What the complement of a signal is.
pub(crate) fn negation(nodes: &[GNode], x: Ref) -> Wanted
    requires { IsRefThere (length nodes.now) x }
    ensures { result ≡ spec.negation nodes.now x }
{
    match x {
        Ref::Const(value) => Wanted::Ready(Ref::Const(!value)),
        Ref::Node(number) => complement_of(number, nodes[number as usize]),
    }
}

// Whether the first node is the complement of the second.
fn is_complement(nodes: &[GNode], first: u32, second: u32) -> bool
    requires { first < length nodes.now }
    ensures { result ≡ spec.is_complement nodes.now first second }
{
    match nodes[first as usize] {
        GNode::Neg(other) => other == second,
        GNode::Inp(_) | GNode::Both(_, _) => false,
    }
}

fn both_of(nodes: &[GNode], first: u32, second: u32) -> Wanted
    requires first { first < length nodes.now }
    requires second { second < length nodes.now }
    ensures { result ≡ spec.both_of nodes.now first second }
{
    if first == second {
        return Wanted::Ready(Ref::Node(first));
    }
    if is_complement(nodes, first, second) || is_complement(nodes, second, first) {
        return Wanted::Ready(Ref::Const(false));
    }
    Wanted::Needed(GNode::Both(first.min(second), first.max(second)))
}

// What the conjunction of a constant and a signal is.
fn only_if(value: bool, x: Ref) -> Wanted
    ensures { result ≡ spec.only_if value x }
{
    if value {
        Wanted::Ready(x)
    } else {
        Wanted::Ready(Ref::Const(false))
    }
}

/// What the conjunction of two signals is.
pub(crate) fn conjunction(nodes: &[GNode], x: Ref, y: Ref) -> Wanted
    requires first { IsRefThere (length nodes.now) x }
    requires second { IsRefThere (length nodes.now) y }
    ensures { result ≡ spec.conjunction nodes.now x y }
{
    match (x, y) {
        (Ref::Const(value), _) => only_if(value, y),
        (Ref::Node(_), Ref::Const(value)) => only_if(value, x),
        (Ref::Node(first), Ref::Node(second)) => both_of(nodes, first, second),
    }
}
