//! A core: the machine's state, event by event.

ghost use Rattle.std.specs.Prelude.{◌≡◌, ◌==◌, ◌&&◌, ◌<◌, ◌≤◌, ◌+◌, true, false, length, IfOk, nat_eq};
ghost use Rattle.net_base.specs.Graph.{IsProper};
ghost use Rattle.indexmap.specs.IndexSet.{contains, spare, Updates};
ghost use Rattle.cut_lists.specs.Rows.{node_words, row_with};
ghost use Rattle.cut_core.specs.Machine.{state_at, are_published, fan_ins_at, is_word, is_allowed, after_event, next_states, states_at_start};
ghost use Rattle.cut_core.specs.Machine as spec;
ghost use Rattle.cut_core.specs.Cores.{states_of, IsCoreOf};

use crate::event::{Event, NodeState};
use crate::start::{NONE, first_rows, first_states};
use cut_lists::{Row, row_of};
use indexmap::IndexSet;
use net_base::{GNode, Graph, NoMemory};
use std::alloc::Global;

/// The state of the machine over a graph, with what a step looks up. It takes 136 bytes for each node's row, and some 40 more.
#[derive(Debug, Drop)]
pub struct Core {
    states: Vec<NodeState>,
    // The row of each node that isn't free.
    rows: Vec<Row>,
    // The actors that have a claim. There is room for one of each free node.
    claimants: IndexSet<u32>,
}

// There is room, so the insertion can't fail.
fn note_claim(claimants: &mut IndexSet<u32>, actor: u32)
    requires { 0 < spare claimants.old }
    ensures updates { Updates nat_eq claimants.old claimants.new actor true }
    ensures room { spare claimants.old ≤ spare claimants.new + 1 }
{
    let _ = claimants.insert(actor);
}

// Whether a state is that of a free node.
fn is_free(state: NodeState) -> bool
    ensures { result ≡ spec.is_free state }
{
    match state {
        NodeState::Free => true,
        NodeState::Claimed { .. } | NodeState::Published => false,
    }
}

// Whether a state is that of a published node.
fn is_published(state: NodeState) -> bool
    ensures { result ≡ spec.is_published state }
{
    match state {
        NodeState::Published => true,
        NodeState::Free | NodeState::Claimed { .. } => false,
    }
}

// Whether a claim, given by its actor and the words put, is this actor's, with this many words put.
fn is_claim(claimant: u32, put: u32, actor: u32, count: u32) -> bool
    ensures { result ≡ ((actor == claimant) && (count == put)) }
{
    actor == claimant && count == put
}

impl Core {
    /// The core of a graph at the start: inputs are published, and all other nodes are free.
    pub fn new(alloc: Global, graph: &Graph) -> Result<Core, NoMemory>
        requires { IsProper graph.now }
        ensures core { IfOk result (λ core. IsCoreOf graph.now core) }
        ensures state { IfOk result (λ core. states_of core ≡ states_at_start graph.now) }
    {
        let claimants = IndexSet::with_capacity(alloc, graph.nodes.len())?;
        let states = first_states(alloc, graph)?;
        let rows = first_rows(alloc, graph)?;
        Ok(Core {
            states,
            rows,
            claimants,
        })
    }

    /// Takes an event, and answers whether the machine allows it. Else nothing changes. It takes no memory.
    pub fn step(&mut self, graph: &Graph, event: Event) -> bool
        requires { IsCoreOf graph.now self.old }
        ensures allowed { result ≡ is_allowed graph.now (states_of self.old) event }
        ensures state { states_of self.new ≡ next_states graph.now (states_of self.old) event }
        ensures refused { result ≡ false → self.new ≡ self.old }
        ensures core { IsCoreOf graph.now self.new }
    {
        let allowed = match event {
            Event::Claim(actor, node) => self.may_claim(graph, actor, node),
            Event::Put(actor, node, place, word) => self.may_put(graph, actor, node, place, word),
            Event::Publish(actor, node) => self.may_publish(graph, actor, node),
        };
        if allowed {
            self.take(graph, event);
        }
        allowed
    }

    // Whether the machine allows a claim of this node by this actor.
    fn may_claim(&self, graph: &Graph, actor: u32, node: u32) -> bool
        requires { IsCoreOf graph.now self.now }
        ensures { result ≡ is_allowed graph.now (states_of self.now) (Event.Claim actor node) }
    {
        (node as usize) < graph.nodes.len()
            && is_free(self.states[node as usize])
            && self.has_fan_ins(graph, node)
            && !self.claimants.contains(&actor)
    }

    // Whether the machine allows that this actor puts this word of the node.
    fn may_put(&self, graph: &Graph, actor: u32, node: u32, place: u32, word: u64) -> bool
        requires { IsCoreOf graph.now self.now }
        ensures { result ≡ is_allowed graph.now (states_of self.now) (Event.Put actor node place word) }
    {
        if node as usize >= graph.nodes.len() {
            return false;
        }
        match self.states[node as usize] {
            NodeState::Claimed {
                actor: claimant,
                put,
            } => is_claim(claimant, put, actor, place) && self.has_word(graph, node, place, word),
            _ => false,
        }
    }

    // Whether the machine allows a publication of this node by this actor.
    fn may_publish(&self, graph: &Graph, actor: u32, node: u32) -> bool
        requires { IsCoreOf graph.now self.now }
        ensures { result ≡ is_allowed graph.now (states_of self.now) (Event.Publish actor node) }
    {
        if node as usize >= graph.nodes.len() {
            return false;
        }
        match self.states[node as usize] {
            NodeState::Claimed {
                actor: claimant,
                put,
            } => is_claim(claimant, put, actor, self.word_count(graph, node)),
            _ => false,
        }
    }

    // Whether the fan-ins of a node are published.
    fn has_fan_ins(&self, graph: &Graph, node: u32) -> bool
        requires core { IsCoreOf graph.now self.now }
        requires node { node < length graph.now.nodes }
        ensures { result ≡ are_published (states_of self.now) (fan_ins_at graph.now node) }
    {
        match *graph.nodes.get(node as usize) {
            GNode::Inp(_) => true,
            GNode::Neg(j) => is_published(self.states[j as usize]),
            GNode::Both(j, k) => {
                is_published(self.states[j as usize]) && is_published(self.states[k as usize])
            }
        }
    }

    // Whether a number is the word at a place of a node that isn't free.
    fn has_word(&self, graph: &Graph, node: u32, place: u32, word: u64) -> bool
        requires core { IsCoreOf graph.now self.now }
        requires node { node < length graph.now.nodes }
        requires known { spec.is_free (state_at (states_of self.now) node) ≡ false }
        ensures { result ≡ is_word graph.now node place word }
    {
        place < self.word_count(graph, node)
            && self.rows[node as usize].words[place as usize] == word
    }

    // How many words a node has that isn't free.
    fn word_count(&self, graph: &Graph, node: u32) -> u32
        requires core { IsCoreOf graph.now self.now }
        requires node { node < length graph.now.nodes }
        requires known { spec.is_free (state_at (states_of self.now) node) ≡ false }
        ensures value { result ≡ length (node_words graph.now node) }
        ensures few { result ≤ 16 }
    {
        2 * self.rows[node as usize].len
    }

    // The row of a node, from the rows of its fan-ins.
    fn row(&self, graph: &Graph, node: u32) -> Row
        requires core { IsCoreOf graph.now self.now }
        requires node { node < length graph.now.nodes }
        requires fan_ins { are_published (states_of self.now) (fan_ins_at graph.now node) ≡ true }
        ensures { result ≡ row_with (node_words graph.now node) }
    {
        match *graph.nodes.get(node as usize) {
            GNode::Inp(_) => row_of(graph, node, &NONE, &NONE),
            GNode::Neg(j) => {
                let a = self.rows[j as usize];
                row_of(graph, node, &a, &a)
            }
            GNode::Both(j, k) => {
                let (a, b) = (self.rows[j as usize], self.rows[k as usize]);
                row_of(graph, node, &a, &b)
            }
        }
    }

    // Does what an event does that is allowed.
    fn take(&mut self, graph: &Graph, event: Event)
        requires core { IsCoreOf graph.now self.old }
        requires allowed { is_allowed graph.now (states_of self.old) event ≡ true }
        ensures state { states_of self.new ≡ after_event (states_of self.old) event }
        ensures core { IsCoreOf graph.now self.new }
    {
        match event {
            Event::Claim(actor, node) => {
                let row = self.row(graph, node);
                self.rows[node as usize] = row;
                note_claim(&mut self.claimants, actor);
                self.states[node as usize] = NodeState::Claimed { actor, put: 0 };
            }
            Event::Put(actor, node, place, _) => {
                let put = place + 1;
                self.states[node as usize] = NodeState::Claimed { actor, put };
            }
            Event::Publish(actor, node) => {
                let _ = self.claimants.swap_remove(&actor);
                self.states[node as usize] = NodeState::Published;
            }
        }
    }

    /// The state of a node.
    pub fn state(&self, node: u32) -> NodeState
        requires { node < length (states_of self.now) }
        ensures { result ≡ state_at (states_of self.now) node }
    {
        self.states[node as usize]
    }
}
