//! The graph of a design: AND and NOT nodes, equal ones one, and what the design's signals are in it.
//!
//! A `Builder` makes a graph node by node. The complement of a signal and the conjunction of two are found where they are
//! there already, or where they are a constant or another signal, and else are a new node; a disjunction is made of these.
//! `build` makes the `Subject` of a design whose tables are in order: the literals of each row from the left, folded by
//! halves; the rows of each table likewise; the complement of that where the rows have output 0.
//!
//! Promised of `neg`, `and` and `or`: the graph and the signal that are defined, or `TooManyNodes` exactly where that graph
//! has more than `net_base::MAX_NODES` nodes (`made`); the complement, the conjunction or the disjunction over every row
//! (`value`); all nodes before stay (`kept`), and after a fault of `neg` or `and` the graph is unchanged (`err`). Promised
//! of `build`: the defined subject (`built`) where that has few enough nodes (`few`), and `TooManyNodes` exactly where it
//! has more (`too_many`), unless memory fails; a proper graph in which each output is there (`subject`); over every row
//! the value of each output's signal (`value`). The laws are `graph_keeps_values` and `subject_has_values`.
//! Not promised: that each node has a use, and how fast nodes are found (expected constant time).
//!
//! Read `specs/Steps.antt` from `negation` to `folded`, then `specs/Tables.antt` from `with_literal` to `subject_of`, and
//! `specs/Answers.antt` for how calls answer by them. The definitions know no limit. No step of them takes a node away
//! (`proofs/Growth.antt`), so a call that is refused shows that the whole has too many. Values: each step means what it is
//! named for (`proofs/Steps.antt`), a fold by halves the whole (`proofs/Halves.antt`), a table its rows
//! (`proofs/Meanings.antt`); the signals of a design are its values once more, with a signal of the graph in the place of
//! each (`proofs/Drawing.antt`). How nodes are found is in `specs/Index.antt` and `proofs/Links.antt`.
#![tactic(auto)]

mod builder;
mod building;
mod fault;
mod folds;
mod laws;
mod nodes;
mod rows;
mod wanted;

pub use builder::Builder;
pub use building::build;
pub use fault::GraphFault;
pub use laws::{graph_keeps_values, subject_has_values};
