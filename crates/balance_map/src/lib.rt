//! The choice of cells for each node of a graph, and the gates of the nodes that are needed.
//!
//! Choices: a node's choice is the least of what its candidates would be, by cost, then arrival, then cut, then depth. A cost
//! has the cells of the candidate's formula, a share of each leaf's own cost (divided by how often the leaf is read in the whole
//! graph, needed or not), and a DRO for each level that a leaf waits for the latest one. It stops at `MAX_COST`. An input is its
//! own choice, at no cost and level 0. `choose` answers the choices of the definition, or there was no memory.
//!
//! Gates: a node is needed where an output reads it, or where it stands as a leaf in the chosen formula of a needed node. The
//! needed nodes are taken in ascending order, and each one's formula is walked, parts from the left before the cell over them.
//! A cell is the first equal gate, with its pins in ascending order, or a new gate at the end; a DRO makes no gate and stands
//! for what drives it, since when a value waits is settled by the layers above.
//!
//! Promised by `cover`: the defined gates, or `TooManyGates` exactly where they are more than the most (`gates`); they are a
//! well-formed netlist (`net`) in which each gate has a use (`used`), and over every input row each output has the value that
//! it has in the subject (`value`). Laws: a node that isn't an input has a candidate, and none would come before its choice
//! (`choices_are_least`); `needed_nodes_are_needed`, `covers_are_nets` and `covers_keep_values` say the rest of the definitions.
//! Not promised: that the gates of all choices together are the fewest or cheapest; sharing a leaf's cost is an estimate.
//!
//! Read `specs/Choices.antt` and `specs/Cover.antt` from their ends, `specs/Needed.antt` and `specs/Laws.antt`. Central proofs:
//! costs and arrivals stay in range (`proofs/NodeChoices.antt`); the walk of a formula has the value of its table
//! (`proofs/Formulas.antt`), each needed node's driver has the node's value, since its choice comes from a cut that is right
//! for it (`proofs/Chosen.antt`), and a walk takes its leaves and owes its driver in their place (`proofs/Uses.antt`). Weighing
//! balancing cells while mapping is after PBMap (Pasandi and Pedram 2019); costs, ties and the order of gates are our own.
#![tactic(auto)]

mod candidate;
mod choice;
mod choosing;
mod covering;
mod fan_outs;
mod fault;
mod laws;
mod leaves;
mod needed;
mod parts;
mod walking;

pub use choice::{Choice, Choices, MAX_COST};
pub use choosing::choose;
pub use covering::cover;
pub use fault::MapFault;
pub use laws::{choices_are_least, covers_are_nets, covers_keep_values, needed_nodes_are_needed};
