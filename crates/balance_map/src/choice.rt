//! The choice of a node.

use net_base::List;

/// A cost at most, 2^40: so a cost stands for itself as long as it is below some 10^12 junctions, and sums never overflow.
pub const MAX_COST: u64 = 1_099_511_627_776;

/// The choice of a node: one of its cuts, with cells so deep that have the cut's table. Choices are ordered by cost, then
/// arrival, then cut, then depth.
#[derive(Clone, Copy, Debug, PartialEq, Eq, PartialOrd, Ord)]
pub struct Choice {
    /// The cost in Josephson junctions, with a share of the costs of its leaves and the DROs that balance them.
    pub cost: u64,
    /// The level at which its value is there, 0 for an input.
    pub arrival: u32,
    /// The first word of the cut: its size and its leaves.
    pub leaves: u64,
    /// The cut's truth table.
    pub table: u8,
    /// How many levels of cells it has, 0 for an input.
    pub depth: u32,
}

/// The choices of all nodes of a graph, in order.
pub type Choices = List<Choice>;
