//! Builders of graphs.

ghost use Rattle.std.specs.Prelude.{◌≡◌, ◌≤◌, ◌&&◌, ◌||◌, ◌++◌, [], ◌∷◌, length, not, All, IfOk, OnOk, OnErr};
ghost use Rattle.net_base.specs.Graph.{IsProper, IsRefThere, IsSubject, IsNodeAt};
ghost use Rattle.net_base.specs.NodeValues.{ref_value};
ghost use Rattle.subject_graph.specs.declared.wanted.Wanted.TheVariants.{Needed};
ghost use Rattle.subject_graph.specs.Answers.{Makes};
ghost use Rattle.subject_graph.specs.Laws.{Keeps, HasValue};
ghost use Rattle.subject_graph.specs.Nodes.{input_graph};
ghost use Rattle.subject_graph.specs.Steps.{IsWantedThere, with_wanted, with_neg, with_and, with_or};

use crate::GraphFault;
use crate::nodes::Nodes;
use crate::wanted::{Wanted, conjunction, negation};
use blif_model::MAX_INPUTS;
use net_base::{GNode, Graph, List, MAX_NODES, NoMemory, Ref, Subject};
use std::alloc::Global;
use std::marker::Model;

/// A graph that grows node by node, each node there once, which contracts see as the graph so far.
#[derive(Debug, Drop)]
pub struct Builder {
    inputs: u32,
    nodes: Nodes,
}

impl Model for Builder {
    ghost use Rattle.net_base.specs.declared.graph.Graph.{Graph as Nodes};
    ghost use Rattle.net_base.specs.Graph.{IsProper as IsProperGraph};

    ghost Value = { Nodes };

    ghost view = { λ builder. record { inputs = builder.inputs; nodes = builder.nodes } };

    ghost invariant = { λ builder. IsProperGraph (record { inputs = builder.inputs; nodes = builder.nodes }) };
}

// The inputs are no nodes but these, in order.
fn push_inputs(nodes: &mut Nodes, inputs: u32) -> Result<(), NoMemory>
    requires few { inputs ≤ MAX_INPUTS }
    requires bare { nodes.old ≡ [] }
    ensures { OnOk result (nodes.new ≡ (input_graph inputs).nodes) }
{
    for number in 0..inputs {
        nodes.push(GNode::Inp(number))?;
    }
    Ok(())
}

impl Builder {
    /// The graph of so many inputs alone, at most `blif_model::MAX_INPUTS`.
    pub fn new(alloc: Global, inputs: u32) -> Result<Builder, NoMemory>
        requires { inputs ≤ MAX_INPUTS }
        ensures inputs { IfOk result (λ builder. builder ≡ input_graph inputs) }
        ensures proper { IfOk result IsProper }
    {
        let mut nodes = Nodes::new(alloc)?;
        push_inputs(&mut nodes, inputs)?;
        Ok(Builder { inputs, nodes })
    }

    // The node, which is found or added.
    fn node(&mut self, node: GNode) -> Result<Ref, GraphFault>
        requires { IsNodeAt self.old.inputs (length self.old.nodes) node }
        ensures made { Makes result self.new (with_wanted self.old (Needed node)) }
        ensures err { OnErr result (self.new ≡ self.old) }
        ensures proper { IsProper self.new }
    {
        let place = self.nodes.place(node);
        if place < self.nodes.len() {
            return Ok(Ref::Node(place as u32));
        }
        if place >= MAX_NODES as usize {
            return Err(GraphFault::TooManyNodes);
        }
        self.nodes.push(node)?;
        Ok(Ref::Node(place as u32))
    }

    fn signal(&mut self, wanted: Wanted) -> Result<Ref, GraphFault>
        requires there { IsWantedThere self.old wanted }
        requires proper { IsProper self.old }
        ensures made { Makes result self.new (with_wanted self.old wanted) }
        ensures err { OnErr result (self.new ≡ self.old) }
        ensures proper { IsProper self.new }
    {
        match wanted {
            Wanted::Ready(x) => Ok(x),
            Wanted::Needed(node) => self.node(node),
        }
    }

    /// The complement of a signal of the builder. `TooManyNodes` comes exactly where it is a new node and there are
    /// `net_base::MAX_NODES` already. After a fault the graph is unchanged.
    pub fn neg(&mut self, x: Ref) -> Result<Ref, GraphFault>
        requires there { IsRefThere (length self.old.nodes) x }
        ensures made { Makes result self.new (with_neg self.old x) }
        ensures value { IfOk result (λ y. HasValue self.new y (λ row. not (ref_value self.old row x))) }
        ensures there { IfOk result (IsRefThere (length self.new.nodes)) }
        ensures err { OnErr result (self.new ≡ self.old) }
        ensures kept { Keeps self.old self.new }
        ensures proper { IsProper self.new }
    {
        let wanted = negation(self.nodes.as_slice(), x);
        self.signal(wanted)
    }

    /// The conjunction of two signals of the builder. `TooManyNodes` comes exactly where it is a new node and there are
    /// `net_base::MAX_NODES` already. After a fault the graph is unchanged.
    pub fn and(&mut self, x: Ref, y: Ref) -> Result<Ref, GraphFault>
        requires first { IsRefThere (length self.old.nodes) x }
        requires second { IsRefThere (length self.old.nodes) y }
        ensures made { Makes result self.new (with_and self.old x y) }
        ensures value { IfOk result (λ z. HasValue self.new z (λ row. ref_value self.old row x && ref_value self.old row y)) }
        ensures there { IfOk result (IsRefThere (length self.new.nodes)) }
        ensures err { OnErr result (self.new ≡ self.old) }
        ensures kept { Keeps self.old self.new }
        ensures proper { IsProper self.new }
    {
        let wanted = conjunction(self.nodes.as_slice(), x, y);
        self.signal(wanted)
    }

    /// The disjunction of two signals of the builder: the complements of both, first that of the first, then their
    /// conjunction, then its complement. `TooManyNodes` comes exactly where the graph with these has more than
    /// `net_base::MAX_NODES` nodes. After a fault some of them may be there: the graph has kept what it had, and so its
    /// values, and a further try goes on from there.
    pub fn or(&mut self, x: Ref, y: Ref) -> Result<Ref, GraphFault>
        requires first { IsRefThere (length self.old.nodes) x }
        requires second { IsRefThere (length self.old.nodes) y }
        ensures made { Makes result self.new (with_or self.old x y) }
        ensures value { IfOk result (λ z. HasValue self.new z (λ row. ref_value self.old row x || ref_value self.old row y)) }
        ensures there { IfOk result (IsRefThere (length self.new.nodes)) }
        ensures kept { Keeps self.old self.new }
        ensures proper { IsProper self.new }
    {
        let first = self.neg(x)?;
        let second = self.neg(y)?;
        let neither = self.and(first, second)?;
        self.neg(neither)
    }

    /// The graph with these outputs, signals of the builder. It takes no memory.
    pub fn finish(self, outputs: List<Ref>) -> Subject
        requires { All (IsRefThere (length self.nodes)) outputs }
        ensures value { result ≡ record { graph = self; outputs = outputs } }
        ensures subject { IsSubject result }
    {
        let Builder { inputs, nodes } = self;
        Subject {
            graph: Graph {
                inputs,
                nodes: nodes.into_list(),
            },
            outputs,
        }
    }
}
