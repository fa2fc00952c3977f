//! The network of a gate netlist, epochs, the DRO count, and flows.
//!
//! In: gates and their phases. Out: a pin for each use of a driver, with the driver's number, its vertex, the user's
//! vertex and the weight. A driver is a used input or a gate. Vertex 0 is the source, which stands for all inputs, 1 to
//! G are the gates, G + 1 is the sink, and behind it stands a mirror for each driver, to which a flow goes back.
//!
//! Promised: `net_of` answers `network_of` (`value`), and the numbers of its vertices fit (`few`); `pin_count` and
//! `is_balanced` are the tests of its conditions; `need` is the gap in epochs less the weight. Each driver has a number of
//! its own below their count, none is left out, and a pin's number tells where it starts (`drivers_are_numbered`).
//! `chain_lengths` is for each driver the largest need of its pins, since they all tap one chain, and `dro_count` is the
//! sum: what epochs cost. `earliest_epochs` has for each gate its level over n, and the sink 1 behind the last driver of an
//! output; with phases from levels they are balanced (`earliest_epochs_are_balanced`). No full flow is worth more than the
//! DROs that balanced epochs cost (`flow_value_is_at_most_dro_count`). The only refusal is `NoMemory`.
//! Only tested, in `trials` and by runs of the program: that memory suffices where it is ample.
//! Not promised: that epochs are the best, or that a full flow is worth as much as they cost.
//!
//! Read `specs/Uses.antt` and `specs/Network.antt` for the network, `specs/DriverNumbers.antt` for the law on numbers,
//! `specs/Epochs.antt` for `IsBalanced` and `dro_count`, `specs/Arcs.antt` for the arcs, `specs/Flows.antt` for full flows
//! and the value of a flow, and `specs/Duality.antt` for the law that sets them against epochs. `proofs/Examples.antt`
//! evaluates them on networks made by hand. Central proofs: `proofs/BalancedEpochs.antt`, and `proofs/Duality.antt`, where
//! potentials of vertices bound a flow's value.
#![tactic(auto)]

mod balance;
mod build;
mod count;
mod earliest;
mod laws;
mod net;
mod numbers;
mod uses;

pub use balance::{epoch_at, is_balanced, need};
pub use build::{MAX_PINS, net_of, pin_count};
pub use count::{chain_lengths, dro_count, total_length};
pub use earliest::earliest_epochs;
pub use laws::{
    drivers_are_numbered, earliest_epochs_are_balanced, flow_value_is_at_most_dro_count,
};
pub use net::{Epochs, Flow, Net, Pin, Units};
// For the crates that stand on the network and not on the rule of phases.
pub use phase_rule::{MAX_PHASES, phases};
