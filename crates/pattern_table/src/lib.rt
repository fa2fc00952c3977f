//! The least uniform formulas: for a truth table over 1 to 3 leaves and a depth of 1 to 4, what to build it of at least cost.
//!
//! In a uniform formula every leaf is at the same depth, so pulses that start together meet at each cell: nothing is left to
//! balance. Of depth 0 it is a leaf; of a depth above, a cell over as many uniform formulas of the depth below as it has pins.
//!
//! In: a size, a table and a depth. Out: the head of the least formula, that is its cell, the tables of its parts and the cost of
//! the whole. Its parts are the least formulas of their tables, of the depth below, so a caller finds the tree by asking on.
//!
//! Promised by `least` (one clause): the answer is `least_formula` of `specs/Least.antt`, the first by cost, then by the cell's
//! rank, then by the parts' tables from the left; none where there is none. It takes no memory.
//! Laws: a least formula is the least of all uniform formulas with its table, and where there is none, no uniform formula of the
//! depth has the table (`least_formulas_are_least`); the table's value is the cell's over the values of the parts
//! (`formulas_mean_their_tables`), and a leaf's table has the leaf's value (`leaves_mean_their_tables`).
//! Not promised: anything on how long `Patterns::new` takes; that a formula whose leaves are at several depths isn't cheaper.
//!
//! Read `specs/Formula.antt`, then `specs/Least.antt` and `specs/Laws.antt`. Central proofs: an induction over the depth, in which
//! the parts of a depth stand for all its uniform formulas (`proofs/LeastOfAll.antt`); and that parts in ascending order of their
//! tables are enough, since a cell doesn't mind the order of its pins (`proofs/Walked.antt`). `proofs/Examples.antt` has worked
//! formulas, `proofs/CallerLemmas.antt` what the crates above cite.
#![tactic(auto)]

mod formula;
mod heads;
mod laws;
mod level;
mod patterns;
mod tables;

pub use formula::Formula;
pub use laws::{formulas_mean_their_tables, least_formulas_are_least, leaves_mean_their_tables};
pub use patterns::{MAX_DEPTH, MAX_SIZE, Patterns};
