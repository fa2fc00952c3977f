//! The laws on cuts. A law takes nothing and does nothing: its clause is the law.

ghost use Rattle.std.specs.Prelude.{◌≡◌};
ghost use Rattle.cut_word.specs.Cut.{CutView};
ghost use Rattle.cut_word.specs.Order.{cut_cmp};
ghost use Rattle.cut_word.specs.Laws.{UnionHasBoth, CutsAreTheirValues, WordsTellCuts, MergeIsRight, NegationIsRight, TrivialCutIsRight};

use crate::Cut;

/// Cuts are in the order of their first words, those of one first word in the order of their tables.
pub fn order_is_by_words()
    ensures { (a b : CutView) → ⟦<Cut as Ord>⟧.cmp a b ≡ cut_cmp a b }
{}

/// The union of two ascending lists of leaves is ascending, and has just the leaves that one of both has.
pub fn union_has_both()
    ensures { UnionHasBoth }
{}

/// Two cuts of the same leaves that have the same value, whatever the values of the ids, are one.
pub fn cuts_are_their_values()
    ensures { CutsAreTheirValues }
{}

/// Two cuts of the same words are one.
pub fn words_tell_cuts()
    ensures { WordsTellCuts }
{}

/// Where two cuts are right for two functions, their merge is a cut that is right for the conjunction.
pub fn merge_is_right()
    ensures { MergeIsRight }
{}

/// Where a cut is right for a function, its negation is a cut that is right for the complement.
pub fn negation_is_right()
    ensures { NegationIsRight }
{}

/// The trivial cut of an id is a cut that is right for the id's own value.
pub fn trivial_cut_is_right()
    ensures { TrivialCutIsRight }
{}
