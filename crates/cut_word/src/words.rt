//! The words of a cut by their parts, and which pairs are words of a cut.

ghost use Rattle.std.specs.Prelude.{◌≡◌, ◌+◌, ◌-◌, ◌*◌, ◌/◌, ◌%◌, ◌<◌, ◌^◌, ◌↔◌, IsTrue, [], ◌∷◌};
ghost use Rattle.cut_word.specs.Word.{IsWords};
ghost use Rattle.cut_word.specs.Forms.{AreSingle, ArePair, AreTriple};

use crate::LEAF_LIMIT;

/// From a leaf's place to the next one above: what stands for a leaf has 20 bits.
pub(crate) const PLACE: u64 = 1 << 20;
/// The place of leaf 1.
pub(crate) const FIRST: u64 = 1 << 40;
/// The place of the size.
pub(crate) const SIZE: u64 = 1 << 62;

// What stands for a leaf at most: a leaf is below the limit, and 1 is added.
const MOST: u64 = LEAF_LIMIT as u64;

// The numbers that stand for the leaves: each leaf plus 1, or 0 where there is none.
pub(crate) fn fields(word: u64) -> [u64; 3]
    ensures { result ≡ (word / 2 ^ 40 % 2 ^ 20) ∷ (word / 2 ^ 20 % 2 ^ 20) ∷ (word % 2 ^ 20) ∷ [] }
{
    [word / FIRST % PLACE, word / PLACE % PLACE, word % PLACE]
}

// Whether the pair is that of a cut.
pub(crate) fn are_words(first: u64, second: u64) -> bool
    ensures { IsTrue result ↔ IsWords first second }
{
    let [one, two, three] = fields(first);
    // The size with the two bits below it, which are zero.
    match first / (SIZE / 4) {
        4 => is_single(one, two, three, second),
        8 => is_pair(one, two, three, second),
        12 => is_triple(one, two, three, second),
        _ => false,
    }
}

// Whether there is one leaf, and the table is two bits, four times.
fn is_single(one: u64, two: u64, three: u64, table: u64) -> bool
    ensures { IsTrue result ↔ AreSingle one two three table }
{
    0 < one && one <= MOST && two == 0 && three == 0 && table == table % 4 * 0x55
}

// Whether there are two leaves, and the table is four bits, twice.
fn is_pair(one: u64, two: u64, three: u64, table: u64) -> bool
    ensures { IsTrue result ↔ ArePair one two three table }
{
    0 < one && one < two && two <= MOST && three == 0 && table == table % 16 * 0x11
}

// Whether there are three leaves and eight bits.
fn is_triple(one: u64, two: u64, three: u64, table: u64) -> bool
    ensures { IsTrue result ↔ AreTriple one two three table }
{
    0 < one && one < two && two < three && three <= MOST && table <= 0xFF
}
