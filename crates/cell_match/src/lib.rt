//! The candidates of a node: which of its cuts cells can stand for, and how many levels of cells.
//!
//! A node's value is its cut's table over the cut's leaves. Where a uniform formula of cells over as many leaves has that table,
//! its cells can take the node's place, and every leaf is then read at one level. Such a cut is a candidate once for each
//! depth from 1 to 4 at which there is a formula, and costs what the least one does. A choice among the candidates weighs
//! these costs against what lies below the leaves.
//!
//! In: the least formulas, and the row of a node. Out: the candidates, by place in the row, then by depth.
//!
//! Promised by `matches`: all candidates of the row's cuts in this order, or there was no memory. The node's own cut, which
//! is the first of its row, is no candidate; nor is a cut whose table is a constant's or that of a single leaf.
//! Not promised: which candidate is the best (`balance_map`); that a formula reads each leaf of its cut; that there is a
//! candidate for each cut.
//!
//! Read `specs/Candidates.antt` from its end. Central proof: the cuts that are read from the words of a row, each at the
//! depths in order, give the candidates of the definition one by one (`proofs/Steps.antt`). `proofs/Examples.antt` has
//! worked candidates, `proofs/CallerLemmas.antt` what the crates above cite. Source: after PBMap, path-balancing mapping
//! (Pasandi and Pedram).
#![tactic(auto)]

mod matching;

pub use matching::{Match, matches};
