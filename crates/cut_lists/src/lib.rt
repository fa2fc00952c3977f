//! The cut list of a node: at most eight cuts, each right for the node.
//!
//! Mapping looks at a node through its cuts: which few lower nodes decide its value, and by which truth table. A list has the
//! node's trivial cut, then the fan-in cut, then the first six kept of all negations or merges of the fan-ins' cuts, walked in
//! ascending order; a cut that has all leaves of one before it says nothing new and isn't kept.
//!
//! In: a proper graph, and for one node the rows of its fan-ins. Out: rows, a cut list in sixteen words of a fixed place.
//!
//! Promised: `row_of` is the row of the definition's list of a node, and takes no memory; `all_rows` (one clause) has the words
//! of all lists, or there was no memory. `Rows` is seen as the list of its rows' words: `push` (`ok`, `err`) adds a row of at
//! most eight cuts at the end, or leaves all as it was; `row` gives a row back with zeros behind its words.
//! Laws: each cut of a list is right for its node, whatever the input row (`each_cut_is_right`); a list has at most eight
//! cuts, the trivial one first, and all others over lower nodes (`lists_are_of_nodes`).
//! Not promised: that a list has each cut of the node, or the best ones; that a table depends on each leaf of its cut; anything
//! on how long it takes. At most 64 merges are made for a node, and sorted in place.
//!
//! Read `specs/CutList.antt` from its end, then `specs/Rows.antt` and `specs/Laws.antt`. Central proofs: an induction over the
//! nodes, in which sorting, keeping and taking only choose among cuts that are right (`proofs/Rights.antt`); and that a sort
//! of cuts is the defined one, since their words tell them (`proofs/Sorts.antt`). `proofs/Examples.antt` has worked lists,
//! `proofs/CallerLemmas.antt` what the crates above cite. Cuts that contain another's leaves are left out as in priority cuts
//! (Mishchenko, Cho, Chatterjee, Brayton 2007); the order, by words, and the limit of six are our own.
#![tactic(auto)]

mod cuts;
mod laws;
mod node;
mod pool;
mod row;
mod rows;

pub use laws::{each_cut_is_right, lists_are_of_nodes};
pub use node::row_of;
pub use row::{MAX_CUTS, Row};
pub use rows::{Rows, all_rows};
