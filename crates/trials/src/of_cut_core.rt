//! The machine that fills cut lists, over a small graph, event by event and all at once.

ghost use Rattle.std.specs.Prelude.{◌≡◌, length};
ghost use Rattle.cut_core.specs.Cores.{IsCoreOf};

use cut_core::{Core, Event, NodeState, run};
use net_base::{GNode, Graph, List, is_proper};
use std::alloc::Global;

// a, b, not b, and a and not b.
static NODES: [GNode; 4] = [
    GNode::Inp(0),
    GNode::Inp(1),
    GNode::Neg(1),
    GNode::Both(0, 2),
];

static EVENTS: [Event; 11] = [
    Event::Claim(0, 3),
    Event::Claim(0, 2),
    Event::Claim(1, 2),
    Event::Put(0, 2, 0, 0x4000_0300_0000_0000),
    Event::Put(0, 2, 1, 0xAA),
    Event::Publish(0, 2),
    Event::Put(0, 2, 2, 0),
    Event::Put(0, 2, 2, 0x4000_0200_0000_0000),
    Event::Put(0, 2, 3, 0x55),
    Event::Publish(0, 2),
    Event::Claim(1, 3),
];

// Which of them are allowed.
static ALLOWED: [bool; 11] = [
    false, true, false, true, true, false, false, true, true, true, true,
];

fn graph(alloc: Global) -> Option<Graph> {
    let nodes = List::from_slice(alloc, &NODES).ok()?;
    Some(Graph { inputs: 2, nodes })
}

fn are_answered(core: &mut Core, graph: &Graph) -> bool
    requires { IsCoreOf graph.now core.old }
    ensures { IsCoreOf graph.now core.new }
{
    for place in 0..EVENTS.len() {
        if core.step(graph, EVENTS[place]) != ALLOWED[place] {
            return false;
        }
    }
    true
}

fn is_last_state(core: &Core, graph: &Graph) -> bool
    requires core { IsCoreOf graph.now core.now }
    requires nodes { length graph.now.nodes ≡ 4 }
{
    core.state(0) == NodeState::Published
        && core.state(1) == NodeState::Published
        && core.state(2) == NodeState::Published
        && core.state(3) == NodeState::Claimed { actor: 1, put: 0 }
}

fn follows(alloc: Global) -> Option<bool> {
    let graph = graph(alloc)?;
    if !is_proper(&graph) || graph.nodes.len() != 4 {
        return None;
    }
    let Ok(start) = Core::new(alloc, &graph) else {
        return None;
    };
    let Ok(whole) = run(alloc, &graph, &EVENTS) else {
        return None;
    };
    let mut core = start;
    Some(
        are_answered(&mut core, &graph)
            && is_last_state(&core, &graph)
            && is_last_state(&whole, &graph),
    )
}

#[test]
fn events_are_allowed_in_their_turn_alone(rt: HostRuntime) {
    assert!(rt; follows(rt.alloc()) == Some(true));
}
