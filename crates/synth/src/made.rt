//! A netlist with the numbers of what it is made of.

use flow_net::Flow;
use pulse_net::PulseNet;

/// Gates at most: so many, with three pins each, have a network whose pins and vertices are numbered with room to spare.
pub const MAX_GATES: u32 = 1_048_576;

/// What synthesis makes: a netlist, a flow on its network, and numbers.
#[derive(Debug, Drop)]
pub struct Made {
    /// The netlist.
    pub net: PulseNet,
    /// The flow of the rounds on the network of its gates, which shows that it needs the fewest DROs.
    pub flow: Flow,
    /// The tables of the design.
    pub tables: u32,
    /// The nodes of its graph.
    pub nodes: u32,
    /// The clocked elements of the netlist that are no DROs.
    pub gates: u32,
    /// Its DROs.
    pub dros: u64,
    /// Its splitters.
    pub splits: u64,
    /// The Josephson junctions of all its elements.
    pub junctions: u64,
}
