//! The laws on the values of nodes. A law takes nothing and does nothing: its clause is the law.

ghost use Rattle.net_base.specs.NodeValues.{LaterNodesKeepValues, NodesFollowFanIns};

/// In a proper graph a node has the value that its fan-ins give it, among the values of all nodes.
pub fn nodes_follow_fan_ins()
    ensures { NodesFollowFanIns }
{}

/// Nodes that are added later don't change the values of those before.
pub fn later_nodes_keep_values()
    ensures { LaterNodesKeepValues }
{}
