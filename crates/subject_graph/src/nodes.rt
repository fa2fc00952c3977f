//! The nodes of a graph in order, each there once, with an index that finds them. A node takes 16 bytes, 12 for itself and
//! 4 for its link; the heads of the buckets take 1 MiB together, however many nodes there are.

ghost use Rattle.std.specs.Prelude.{◌≡◌, ◌<◌, ◌≤◌, ◌^◌, [], ◌∷◌, ◌++◌, length, vec_len, vec_capacity, IfOk, OnOk, OnErr};
ghost use Rattle.subject_graph.specs.Index as index;
ghost use Rattle.subject_graph.specs.Nodes as spec;

use net_base::{GNode, List, NoMemory};
use std::alloc::Global;
use std::marker::Model;

/// The buckets of the index. With as many nodes as a graph may have some four nodes share one.
const BUCKETS: u64 = 262_144;

/// The factors of the two numbers of a node: odd, of 64 bits, without a pattern, the golden ratio and the square root of 2.
const FIRST_FACTOR: u64 = 0x9E37_79B9_7F4A_7C15;

const SECOND_FACTOR: u64 = 0x6A09_E667_F3BC_C909;

/// 2^46: the first 18 bits of 64 are the bucket.
const BUCKET_SIZE: u64 = 0x4000_0000_0000;

/// Distinct nodes in order, which contracts see as the list of them.
#[derive(Debug, Drop)]
pub(crate) struct Nodes {
    nodes: List<GNode>,
    // The last node of each bucket, by its place plus 1; 0 where there is none.
    heads: Vec<u32>,
    // For each node the last one of its bucket before it, likewise.
    links: Vec<u32>,
}

impl Model for Nodes {
    ghost use Rattle.std.specs.Prelude.{List as Listed, ◌≤◌, ◌^◌, length};
    ghost use Rattle.net_base.specs.declared.graph.GNode.{GNode as Node};
    ghost use Rattle.subject_graph.specs.Nodes.{HasEachOnce};
    ghost use Rattle.subject_graph.specs.Index.{IsLinked};

    ghost Value = { Listed Node };

    ghost view = { λ nodes. nodes.nodes };

    ghost invariant = { λ nodes. IsLinked nodes.heads.items nodes.links.items nodes.nodes × HasEachOnce nodes.nodes × (length nodes.nodes ≤ 2 ^ 31) };
}

fn bucket_of_two(first: u32, second: u32) -> u64
    ensures value { result ≡ index.bucket_of_two first second }
    ensures bucket { result < BUCKETS }
{
    let first = (first as u64).wrapping_mul(FIRST_FACTOR);
    let second = (second as u64).wrapping_mul(SECOND_FACTOR);
    first.wrapping_add(second) / BUCKET_SIZE % BUCKETS
}

#[tactic(auto, unfolding(crate::specs::Index::bucket_of))]
fn bucket_of(node: GNode) -> u64
    ensures value { result ≡ index.bucket_of node }
    ensures bucket { result < BUCKETS }
{
    match node {
        GNode::Inp(number) => bucket_of_two(number, 0),
        GNode::Neg(other) => bucket_of_two(0, other),
        GNode::Both(first, second) => bucket_of_two(first, second),
    }
}

fn is_same(first: GNode, second: GNode) -> bool
    ensures { result ≡ spec.same_node first second }
{
    match (first, second) {
        (GNode::Inp(i), GNode::Inp(j)) => i == j,
        (GNode::Neg(a), GNode::Neg(b)) => a == b,
        (GNode::Both(a, b), GNode::Both(c, d)) => a == c && b == d,
        _ => false,
    }
}

// The room is there, so the push can't fail.
fn push_within(links: &mut Vec<u32>, link: u32)
    requires { vec_len links.old < vec_capacity links.old }
    ensures { links.new.items ≡ links.old.items ++ link ∷ [] }
{
    let _ = links.push(link);
}

impl Nodes {
    /// No nodes.
    pub(crate) fn new(alloc: Global) -> Result<Nodes, NoMemory>
        ensures { IfOk result (λ nodes. nodes ≡ []) }
    {
        let heads = vec![in alloc; 0u32; BUCKETS as usize]?;
        Ok(Nodes {
            nodes: List::new(alloc),
            heads,
            links: Vec::new(alloc),
        })
    }

    /// The place of a node: where it is, or else the next one. It follows the links of its bucket.
    pub(crate) fn place(&self, node: GNode) -> usize
        ensures { result ≡ spec.node_place node self.now }
    {
        let mut last = self.heads[bucket_of(node) as usize];
        while last > 0 {
            let place = (last - 1) as usize;
            if is_same(node, *self.nodes.get(place)) {
                return place;
            }
            last = self.links[place];
        }
        self.nodes.len()
    }

    /// Adds a node that isn't there yet. After `NoMemory` the nodes are unchanged.
    pub(crate) fn push(&mut self, node: GNode) -> Result<(), NoMemory>
        requires new { length self.old ≤ spec.node_place node self.old }
        requires room { length self.old < 2 ^ 31 }
        ensures ok { OnOk result (self.new ≡ self.old ++ node ∷ []) }
        ensures err { OnErr result (self.new ≡ self.old) }
    {
        // The link has room before the node is there, so that a failure leaves both as they were.
        self.links.reserve(1)?;
        self.nodes.push(node)?;
        let bucket = bucket_of(node) as usize;
        let link = self.heads[bucket];
        push_within(&mut self.links, link);
        self.heads[bucket] = self.nodes.len() as u32;
        Ok(())
    }

    /// How many nodes there are.
    pub(crate) fn len(&self) -> usize
        ensures { result ≡ length self.now }
    {
        self.nodes.len()
    }

    /// The nodes as a slice.
    pub(crate) fn as_slice(&self) -> &[GNode]
        ensures { result.now ≡ self.now }
    {
        self.nodes.as_slice()
    }

    /// The nodes as a list. It takes no memory.
    pub(crate) fn into_list(self) -> List<GNode>
        ensures { result ≡ self }
    {
        let Nodes {
            nodes,
            heads: _,
            links: _,
        } = self;
        nodes
    }
}
