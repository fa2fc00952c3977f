//! How often each node of a graph is read.

ghost use Rattle.std.specs.Prelude.{◌≡◌, ◌+◌, ◌<◌, ◌≤◌, ◌^◌, ◌++◌, [], ◌∷◌, List, ℕ, All, length, max, slice_index, IfOk};
ghost use Rattle.std.specs.List.{flat_map};
ghost use Rattle.net_base.specs.Graph.{IsSubject};
ghost use Rattle.balance_map.specs.FanOuts.{fan_ins, ref_nodes, reads_of};
ghost use Rattle.balance_map.specs.Steps.{AreCounts};

use net_base::{GNode, NoMemory, Ref, Subject};
use std::alloc::Global;
use std::marker::Model;

/// How often each node is read, by nodes and at outputs. Contracts see the list of counts.
#[derive(Debug, Drop)]
pub(crate) struct FanOuts {
    reads: Vec<u64>,
}

impl Model for FanOuts {
    ghost use Rattle.std.specs.Prelude.{List, ℕ};

    ghost Value = { List ℕ };

    ghost view = { λ counts. counts.reads.items };
}

impl FanOuts {
    /// The fan-outs of a node, at least 1.
    pub(crate) fn of(&self, node: u32) -> u64
        requires { node < length self.now }
        ensures { result ≡ max 1 (slice_index self.now node) }
    {
        self.reads[node as usize].max(1)
    }
}

/// Counts all reads of a graph's nodes.
pub(crate) fn count_reads(alloc: Global, s: &Subject) -> Result<FanOuts, NoMemory>
    requires { IsSubject s.now }
    ensures counts { IfOk result (AreCounts (reads_of s.now)) }
    ensures nodes { IfOk result (λ counts. length counts ≡ length s.now.graph.nodes) }
{
    let mut reads = vec![in alloc; 0; s.graph.nodes.len()]?;
    count_fan_ins(&mut reads, s);
    count_outputs(&mut reads, s);
    Ok(FanOuts { reads })
}

// Counts the reads by nodes.
fn count_fan_ins(counts: &mut [u64], s: &Subject)
    requires subject { IsSubject s.now }
    requires nodes { length counts.old ≡ length s.now.graph.nodes }
    requires none { AreCounts [] counts.old }
    ensures { AreCounts (flat_map fan_ins s.now.graph.nodes) counts.new }
{
    for node in s.graph.nodes.as_slice() {
        count_node(counts, *node);
    }
}

// Counts the reads by a node.
fn count_node(counts: &mut [u64], node: GNode)
    requires there { All (λ read. read < length counts.old) (fan_ins node) }
    requires room { (reads : List ℕ) × AreCounts reads counts.old × (length reads < 2 ^ 62) }
    ensures { (reads : List ℕ) → AreCounts reads counts.old → AreCounts (reads ++ fan_ins node) counts.new }
{
    match node {
        GNode::Inp(_) => {}
        GNode::Neg(a) => count(counts, a),
        GNode::Both(a, b) => {
            count(counts, a);
            count(counts, b);
        }
    }
}

// Counts the reads at outputs behind those by nodes.
fn count_outputs(counts: &mut [u64], s: &Subject)
    requires subject { IsSubject s.now }
    requires nodes { length counts.old ≡ length s.now.graph.nodes }
    requires by_nodes { AreCounts (flat_map fan_ins s.now.graph.nodes) counts.old }
    ensures { AreCounts (reads_of s.now) counts.new }
{
    for output in s.outputs.as_slice() {
        count_output(counts, *output);
    }
}

// Counts the read at an output.
fn count_output(counts: &mut [u64], output: Ref)
    requires there { All (λ read. read < length counts.old) (ref_nodes output) }
    requires room { (reads : List ℕ) × AreCounts reads counts.old × (length reads < 2 ^ 63) }
    ensures { (reads : List ℕ) → AreCounts reads counts.old → AreCounts (reads ++ ref_nodes output) counts.new }
{
    match output {
        Ref::Const(_) => {}
        Ref::Node(node) => count(counts, node),
    }
}

// Counts one more read of a node.
fn count(counts: &mut [u64], node: u32)
    requires there { node < length counts.old }
    requires room { (reads : List ℕ) × AreCounts reads counts.old × (length reads ≤ 2 ^ 63) }
    ensures { (reads : List ℕ) → AreCounts reads counts.old → AreCounts (reads ++ node ∷ []) counts.new }
{
    counts[node as usize] += 1;
}
