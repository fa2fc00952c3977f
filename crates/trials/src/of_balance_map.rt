//! Choices and covers of small graphs, worked by hand, and a cover with one gate too many.

use balance_map::{Choice, MapFault, choose, cover};
use cut_lists::all_rows;
use gate_net::{Driver, End, GateNet};
use net_base::{GNode, Graph, List, Ref, Subject, is_subject};
use pattern_table::Patterns;
use std::alloc::Global;

// a, b, not b, and a and not b.
static NODES: [GNode; 4] = [
    GNode::Inp(0),
    GNode::Inp(1),
    GNode::Neg(1),
    GNode::Both(0, 2),
];

// The choice of each, by cost, arrival, leaves, table and depth: an input costs nothing; a NOT of b; an AND of a, which waits in
// a DRO, and a NOT of b.
static CHOICES: [(u64, u32, u64, u8, u32); 4] = [
    (0, 0, 0x4000_0100_0000_0000, 0xAA, 0),
    (0, 0, 0x4000_0200_0000_0000, 0xAA, 0),
    (9, 1, 0x4000_0200_0000_0000, 0x55, 1),
    (26, 2, 0x8000_0100_0020_0000, 0x22, 2),
];

// A half adder: the exclusive or of a and b is node 9, their conjunction node 10.
static ADDER: [GNode; 11] = [
    GNode::Inp(0),
    GNode::Inp(1),
    GNode::Neg(1),
    GNode::Both(0, 2),
    GNode::Neg(0),
    GNode::Both(1, 4),
    GNode::Neg(3),
    GNode::Neg(5),
    GNode::Both(6, 7),
    GNode::Neg(8),
    GNode::Both(0, 1),
];

fn is_chosen(choice: &Choice, wanted: &(u64, u32, u64, u8, u32)) -> bool {
    choice.cost == wanted.0
        && choice.arrival == wanted.1
        && choice.leaves == wanted.2
        && choice.table == wanted.3
        && choice.depth == wanted.4
}

// Whether these are the choices above.
fn are_worked(choices: &[Choice]) -> bool {
    choices.len() == 4
        && choices
            .iter()
            .zip(CHOICES.iter())
            .all(|(choice, wanted)| is_chosen(choice, wanted))
}

fn subject(alloc: Global, nodes: &[GNode], outputs: &[Ref]) -> Option<Subject> {
    let nodes = List::from_slice(alloc, nodes).ok()?;
    let outputs = List::from_slice(alloc, outputs).ok()?;
    Some(Subject {
        graph: Graph { inputs: 2, nodes },
        outputs,
    })
}

fn are_chosen(alloc: Global) -> Option<bool> {
    let subject = subject(alloc, &NODES, &[Ref::Node(3)])?;
    if !is_subject(&subject) {
        return None;
    }
    let Ok(rows) = all_rows(alloc, &subject.graph) else {
        return None;
    };
    let Ok(patterns) = Patterns::new(alloc) else {
        return None;
    };
    let Ok(choices) = choose(alloc, &subject, &rows, &patterns) else {
        return None;
    };
    Some(are_worked(choices.as_slice()))
}

#[test]
fn each_node_has_its_choice(rt: HostRuntime) {
    assert!(rt; are_chosen(rt.alloc()) == Some(true));
}

// The half adder covered, with so many gates at most.
fn covered(alloc: Global, most: u32) -> Option<Result<GateNet, MapFault>> {
    let subject = subject(alloc, &ADDER, &[Ref::Node(9), Ref::Node(10)])?;
    if !is_subject(&subject) || subject.outputs.len() > 2 {
        return None;
    }
    let Ok(rows) = all_rows(alloc, &subject.graph) else {
        return None;
    };
    let Ok(patterns) = Patterns::new(alloc) else {
        return None;
    };
    let Ok(choices) = choose(alloc, &subject, &rows, &patterns) else {
        return None;
    };
    Some(cover(alloc, &subject, &choices, &patterns, most))
}

// Two gates, one for each output.
fn are_two(net: &GateNet) -> bool {
    let ends = [End::From(Driver::Gate(0)), End::From(Driver::Gate(1))];
    net.gates.len() == 2 && net.outputs.as_slice() == ends.as_slice()
}

#[test]
fn a_half_adder_has_two_gates_or_too_many(rt: HostRuntime) {
    let alloc = rt.alloc();
    let two = matches!(covered(alloc, 2), Some(Ok(net)) if are_two(&net));
    let refused = matches!(covered(alloc, 1), Some(Err(MapFault::TooManyGates)));
    assert!(rt; two && refused);
}
