//! Fewest DROs by successive longest paths: the rounds, and the laws that carry the solver.
//!
//! In each round a vertex that has still to send a unit sends one, along a longest path of the residual network, to a mirror that
//! wants one. As many rounds as there are drivers make a full flow, and the lengths of longest walks from the source are then
//! the least of all epochs that need the fewest DROs.
//!
//! Promised: `solve` answers the flow of the rounds (`flow`), which is full (`full`), the least optimal epochs (`epochs`), each
//! below the number of vertices (`low`), and their DRO count (`count`), which is the flow's value (`value`). `Progress` makes one
//! round after the other: `start` is none, and each `round` is one more (`flow`), with potentials that fit (`potentials`). The
//! only refusal is `NoMemory`, and after it a `Progress` is as it was.
//!
//! Defined: the residual network of a flow (`specs/Residual.antt`), longest walks with the fewest arcs (`specs/Longest.antt`),
//! the rounds, with the ties of receiver and path (`specs/Rounds.antt`, from `flow_after`), and the least optimal epochs
//! (`specs/LeastEpochs.antt`). `proofs/Examples.antt` evaluates the rounds on a small network.
//! Laws: the best of walks is attained and no walk is better; of labels that fit, the receiver and the path of a round are read
//! off tight arcs (`specs/LawsOfWalks.antt`). What every flow of the rounds keeps, and that nobody is cut off from the mirrors that
//! want (`specs/LawsOfSending.antt`). There are labels in each round, so the rounds make a full flow, and some epochs have the
//! fewest DROs, as many as that flow is worth (`specs/LawsOfRounds.antt`). Potentials that fit a full flow give such epochs; the
//! lengths of longest walks from the source are the least of these; and there are no two least ones (`specs/LawsOfEpochs.antt`).
//! Labels are kept from round to round. Those that a round leaves stale are marked, and put right only where a path needs them
//! (`src/mender.rt`). Lengths that a search from the source finds are tested, and where they failed their test plain passes over
//! all arcs would find them (`src/passes.rt`). Not promised: time.
//!
//! Source: successive shortest paths (Jewell 1958; Busacker and Gowen 1960), with lengths maximised, and complementary slackness
//! of linear programs. The labels towards the mirrors that want, which serve all senders, and the ties are our own.
#![tactic(auto)]

mod arcs;
mod beginning;
mod epochs;
mod frontier;
mod heights;
mod incidence;
mod last_arcs;
mod laws_of_epochs;
mod laws_of_rounds;
mod laws_of_sending;
mod laws_of_walks;
mod mender;
mod mending;
mod mirrors;
mod offers;
mod passes;
mod potentials;
mod progress;
mod raising;
mod reached;
mod reviving;
mod search;
mod senders;
mod sending;
mod settling;
mod solving;
mod stale;
mod tight;
mod ways;

pub use laws_of_epochs::{
    every_vertex_is_reached, fitting_potentials_are_optimal, labels_are_farthest, labels_are_few,
    least_epochs_are_unique, longest_lengths_are_few, longest_lengths_are_least_epochs,
    nothing_is_least_without_pins, potentials_rise_from_source, source_is_lowest,
    source_labels_exist,
};
pub use laws_of_rounds::{
    fewest_dros_exist, labelled_rounds_have_fewest_dros, labelled_rounds_make_a_full_flow,
    labels_exist, labels_exist_in_rounds, least_epochs_exist, rounds_are_full,
    rounds_give_least_epochs, rounds_have_labels,
};
pub use laws_of_sending::{
    a_receiver_is_found, as_many_want_as_are_to_send, nobody_is_cut_off, rounds_make_a_full_flow,
    units_make_part_flows,
};
pub use laws_of_walks::{
    labels_are_best, labels_are_determined, no_walk_is_better, rounds_go_by_labels,
    searches_give_labels, the_best_is_attained, the_best_to_a_layer, the_last_way_is_least,
    the_receiver_is_least,
};
pub use progress::Progress;
pub use solving::{Solved, solve};
