//! Cuts of two words.
//!
//! ```text
//! first word   63..62   61..60   59..40   39..20   19..0
//!               size     zero    leaf 1   leaf 2   leaf 3     each leaf plus 1, ascending; 0: absent
//! second word  63..8    7..0
//!               zero    table    bit m: the value where leaf 1 has bit 0 of m, leaf 2 bit 1, leaf 3 bit 2
//! ```
//!
//! A table doesn't depend on absent leaves: over one leaf it is two bits four times, over two leaves four bits twice.

ghost use Rattle.std.specs.Prelude.{IsSome, ◌⊎◌, ◌^◌, ◌-◌, ◌≡◌, ◌<◌, ◌↔◌, ℕ, Bool, not, IsTrue, IfSome, IfNone, All, Contains, length, [], ◌∷◌};
ghost use Rattle.cut_word.specs.Cut.{IsCut, value_over, trivial_cut, negated, has_all};
ghost use Rattle.cut_word.specs.Word.{IsWords, first_word, padded};

use crate::words::{FIRST, SIZE, are_words, fields};
use std::marker::Model;

/// Leaves are ids below this: a leaf has 20 bits of a cut's first word and stands there plus 1, and the largest number of 20
/// bits stays free.
pub const LEAF_LIMIT: u32 = 1_048_574;

/// One to three leaves and a truth table over them. Contracts see the ids of the leaves, ascending, and the table as a number.
/// Cuts are in the order of their first words, then of their second words.
#[derive(Clone, Copy, Debug, PartialEq, Eq, PartialOrd, Ord)]
pub struct Cut {
    // The first word: the size and the leaves.
    pub(crate) leaves: u64,
    // The second word.
    pub(crate) table: u64,
}

impl Model for Cut {
    ghost use Rattle.cut_word.specs.Cut.{CutView};
    ghost use Rattle.cut_word.specs.Word.{first_word, cut_of, AreOfCut};

    ghost Value = { CutView };

    ghost view = { λ c. cut_of c.leaves c.table };

    ghost invariant = { λ c. AreOfCut c.leaves c.table };

    ghost inverse = { λ cut. record { leaves = first_word cut.leaves; table = cut.table } };

    ghost use Rattle.std.proofs.Common.{refl};

    ghost inverse_ok = { λ c h. rw h.whole refl };
}

/// The parts of a cut, each in a number of its own.
#[derive(Clone, Copy, Debug, PartialEq, Eq)]
pub struct CutParts {
    /// How many leaves there are, 1 to 3.
    pub size: u32,
    /// Their ids, ascending; absent ones are 0.
    pub leaves: [u32; 3],
    /// The truth table: bit m is the value where leaf 1 has bit 0 of m, leaf 2 bit 1 and leaf 3 bit 2.
    pub table: u8,
}

/// The cut of one leaf, an id below `LEAF_LIMIT`, whose value is the leaf's own.
pub fn trivial(id: u32) -> Cut
    requires { id < LEAF_LIMIT }
    ensures value { result ≡ trivial_cut id }
    ensures meaning { (values : ℕ → Bool) → value_over values result ≡ values id }
    ensures cut { IsCut result }
{
    Cut {
        leaves: SIZE + (u64::from(id) + 1) * FIRST,
        table: 0xAA,
    }
}

/// The size, the leaves and the table.
pub fn unpack(c: Cut) -> CutParts
    ensures size { result.size ≡ length c.leaves }
    ensures leaves { result.leaves ≡ padded c.leaves }
    ensures table { result.table ≡ c.table }
    ensures cut { IsCut c }
{
    let [one, two, three] = fields(c.leaves);
    CutParts {
        size: (c.leaves / SIZE) as u32,
        leaves: [id_of(one), id_of(two), id_of(three)],
        table: c.table as u8,
    }
}

// The leaf that a number stands for, or 0.
fn id_of(field: u64) -> u32
    requires { field < 2 ^ 20 }
    ensures { result ≡ field - 1 }
{
    field.saturating_sub(1) as u32
}

/// The cut of these words, the first and the second. None exactly where the pair is no cut's.
pub fn from_words(a: u64, b: u64) -> Option<Cut>
    ensures some { IfSome result (λ cut. (first_word cut.leaves ≡ a) × (cut.table ≡ b)) }
    ensures words { IsSome result ↔ IsWords a b }
    ensures cut { IfSome result (λ cut. IsCut cut) }
{
    if are_words(a, b) {
        Some(Cut {
            leaves: a,
            table: b,
        })
    } else {
        None
    }
}

/// Its two words, the first and the second.
pub fn to_words(c: Cut) -> (u64, u64)
    ensures first { result.0 ≡ first_word c.leaves }
    ensures second { result.1 ≡ c.table }
    ensures words { IsWords result.0 result.1 }
    ensures cut { IsCut c }
{
    (c.leaves, c.table)
}

/// The cut of the same leaves with the complement's value.
pub fn negate(c: Cut) -> Cut
    ensures value { result ≡ negated c }
    ensures leaves { result.leaves ≡ c.leaves }
    ensures complement { (values : ℕ → Bool) → value_over values result ≡ not (value_over values c) }
    ensures cut { IsCut result }
{
    Cut {
        table: 0xFF - c.table,
        ..c
    }
}

/// Whether each leaf of `b` is a leaf of `a`.
pub fn contains(a: Cut, b: Cut) -> bool
    ensures leaves { IsTrue result ↔ All (λ leaf. Contains a.leaves leaf) b.leaves }
    ensures value { result ≡ has_all a.leaves b.leaves }
{
    are_among(&fields(a.leaves), &fields(b.leaves))
}

// Whether each of the numbers that stands for a leaf is among the others.
fn are_among(others: &[u64], numbers: &[u64]) -> bool
    ensures { IsTrue result ↔ All (λ n. (n ≡ 0) ⊎ Contains others.now n) numbers.now }
{
    numbers.iter().all(|n| *n == 0 || others.contains(n))
}
