//! Cuts of a node: one to three leaves and a truth table over them, in two words.
//!
//! A cut says what a node's value is where its leaves' values are known. Mapping looks at each node through its cuts.
//! Leaves are ids of nodes. Contracts see a `Cut` as its leaves, ascending, and the number that is its table.
//!
//! In: ids and cuts, or two words from elsewhere. Out: cuts, their parts, or their words. `merge` unites the leaves of two
//! cuts and has the conjunction of their values; `negate` has the complement.
//!
//! Promised: `trivial` (`value`, `meaning`), `negate` (`value`, `complement`) and `merge` (`none`, `leaves`, `conjunction`,
//! `value`) by their meaning: what the cut's value is, whatever the values of the ids. `unpack` (`size`, `leaves`, `table`)
//! tells the parts; `from_words` (`some`, `words`) and `to_words` (`first`, `second`) undo each other, and only words of a cut
//! are taken; `contains` (`leaves`, `value`) says whether each leaf of one cut is one of another. No call takes memory.
//! Laws: a cut is its leaves and its values (`cuts_are_their_values`), and its words tell it (`words_tell_cuts`); the union is
//! what its name says (`union_has_both`); where cuts are right for two functions, the merge is right for the conjunction
//! (`merge_is_right`), the negation for the complement (`negation_is_right`), and a trivial cut for its leaf
//! (`trivial_cut_is_right`); `<` on cuts is the order of their words (`order_is_by_words`).
//! Not promised: that a table depends on each leaf of its cut, or which cuts of a node are worth keeping.
//!
//! Read `specs/Cut.antt` from `IsCut`, then `specs/Merge.antt`; `specs/Word.antt` has the two words. Central proof: a table
//! that is given a place for each leaf of the union has the cut's value at each place (`proofs/MergeTables.antt`).
//! `proofs/Examples.antt` has worked cases, `proofs/CallerLemmas.antt` what the crates above cite.
#![tactic(auto)]

mod cut;
mod laws;
mod merging;
mod words;

pub use cut::{Cut, CutParts, LEAF_LIMIT, contains, from_words, negate, to_words, trivial, unpack};
pub use laws::{
    cuts_are_their_values, merge_is_right, negation_is_right, order_is_by_words,
    trivial_cut_is_right, union_has_both, words_tell_cuts,
};
pub use merging::merge;
