//! The laws on choices and on the gates of a subject. A law takes nothing and does nothing: its clause is the law.

ghost use Rattle.balance_map.specs.Laws.{ChoicesAreLeast, NeededNodesAreNeeded, CoversAreNets, CoversKeepValues};

/// A node that isn't an input has a candidate, and its choice is the least of what its candidates would be.
pub fn choices_are_least()
    ensures { ChoicesAreLeast }
{}

/// A node is needed exactly where it isn't an input, and an output reads it or it stands in the chosen formula of a needed node.
pub fn needed_nodes_are_needed()
    ensures { NeededNodesAreNeeded }
{}

/// The gates of a subject are a well-formed netlist in which each gate has a use.
pub fn covers_are_nets()
    ensures { CoversAreNets }
{}

/// Over every input row each output of the gates has the value of the subject's output.
pub fn covers_keep_values()
    ensures { CoversKeepValues }
{}
