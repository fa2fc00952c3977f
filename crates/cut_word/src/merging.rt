//! The merge of two cuts.
//!
//! Ascending leaves are packed in a word, the least in front. The lesser of the two in front goes to the union, and each cut
//! that has it goes on behind it; after three such steps nothing may be left. Where a cut lacks the first or the second leaf of
//! the union, its table is given a place for it; it doesn't depend on a third one that it lacks.

ghost use Rattle.std.specs.Prelude.{◌≡◌, ◌<◌, ◌↔◌, ◌&&◌, ◌/◌, ◌%◌, ◌*◌, ◌+◌, ◌==◌, ◌||◌, ◌^◌, ℕ, Bool, IsNone, IfSome, length, [], ◌∷◌, ◌++◌};
ghost use Rattle.cut_word.specs.Cut.{IsCut, value_over};
ghost use Rattle.cut_word.specs.Table.{value_at};
ghost use Rattle.cut_word.specs.Word.{first_word, leaf_of};
ghost use Rattle.cut_word.specs.Steps.{front_of, least_front, where_had, IsUnion};
ghost use Rattle.cut_word.specs.Steps as spec;
ghost use Rattle.cut_word.specs.Merge.{united, merged};

use crate::Cut;
use crate::words::{FIRST, PLACE, SIZE};

/// The cut of all leaves of both whose value is true where both cuts' are. None exactly where the union has more than three
/// leaves.
pub fn merge(a: Cut, b: Cut) -> Option<Cut>
    ensures none { IsNone result ↔ (3 < length (united a.leaves b.leaves)) }
    ensures leaves { IfSome result (λ cut. cut.leaves ≡ united a.leaves b.leaves) }
    ensures conjunction { IfSome result (λ cut.
        (values : ℕ → Bool) → value_over values cut ≡ (value_over values a && value_over values b)) }
    ensures value { result ≡ merged a b }
    ensures cut { IfSome result (λ cut. IsCut cut) }
{
    let leaves = unite(a, b)?;
    Some(Cut {
        leaves: word(leaves.one, leaves.two, leaves.three),
        table: widened(a.table, leaves.a) & widened(b.table, leaves.b),
    })
}

// The leaves of a union, each plus 1, 0 where there is none; and which of the first two each cut has.
#[derive(Clone, Copy)]
struct Union {
    one: u64,
    two: u64,
    three: u64,
    a: Had,
    b: Had,
}

// Whether a cut has the first leaf of a union, and the second.
#[derive(Clone, Copy)]
struct Had {
    one: bool,
    two: bool,
}

// The union of the leaves: the lesser of the two in front, three times, if then none is left.
fn unite(a: Cut, b: Cut) -> Option<Union>
    ensures none { IsNone result ↔ (3 < length (united a.leaves b.leaves)) }
    ensures union { IfSome result (λ u. IsUnion a.leaves b.leaves u) }
{
    let (a1, b1) = (a.leaves % SIZE, b.leaves % SIZE);
    let one = least(a1, b1);
    let (a2, b2) = (behind(a1, one), behind(b1, one));
    let two = least(a2, b2);
    let (a3, b3) = (behind(a2, two), behind(b2, two));
    let three = least(a3, b3);
    if behind(a3, three) != 0 || behind(b3, three) != 0 {
        return None;
    }
    let a = Had {
        one: begins(a1, one),
        two: begins(a2, two),
    };
    let b = Had {
        one: begins(b1, one),
        two: begins(b2, two),
    };
    Some(Union {
        one,
        two,
        three,
        a,
        b,
    })
}

// What stands for the least leaf that is left, 0 where none is.
fn least(x: u64, y: u64) -> u64
    ensures { result ≡ least_front (front_of x) (front_of y) }
{
    let (x, y) = (x / FIRST, y / FIRST);
    if x == 0 || (y != 0 && y < x) { y } else { x }
}

// Whether this leaf is in front.
fn begins(leaves: u64, leaf: u64) -> bool
    ensures { result ≡ (front_of leaves == leaf) }
{
    leaves / FIRST == leaf
}

// The leaves behind this one, where it is in front.
fn behind(leaves: u64, leaf: u64) -> u64
    ensures { result ≡ spec.behind leaves leaf }
{
    if begins(leaves, leaf) {
        leaves % FIRST * PLACE
    } else {
        leaves
    }
}

// The first word of a cut of these leaves.
fn word(one: u64, two: u64, three: u64) -> u64
    requires one { (0 < one) × (one < 2 ^ 20) }
    requires two { two < 2 ^ 20 }
    requires three { (three < 2 ^ 20) × (two ≡ 0 → three ≡ 0) }
    ensures { result ≡ first_word (leaf_of one ++ (leaf_of two ++ leaf_of three)) }
{
    let size = 1 + u64::from(two != 0) + u64::from(three != 0);
    size * SIZE + one * FIRST + two * PLACE + three
}

// A table over the leaves of a union, of which its cut may lack the first or the second.
fn widened(table: u64, has: Had) -> u64
    requires { table < 2 ^ 8 }
    ensures byte { result < 2 ^ 8 }
    ensures value { (one two three : Bool) → value_at result (one ∷ two ∷ three ∷ [])
        ≡ value_at table (where_had has.one (one ∷ []) ++ (where_had has.two (two ∷ []) ++ three ∷ [])) }
{
    let table = if has.one { table } else { with_first(table) };
    if has.two { table } else { with_second(table) }
}

// The table with a new leaf 1, on which it doesn't depend: leaves 1 and 2 come to be leaves 2 and 3.
fn with_first(table: u64) -> u64
    requires { table < 2 ^ 8 }
    ensures byte { result < 2 ^ 8 }
    ensures value { (one two three : Bool) → value_at result (one ∷ two ∷ three ∷ []) ≡ value_at table (two ∷ three ∷ []) }
{
    // Bit 0 goes to bits 0 and 1, bit 1 to 2 and 3, bit 2 to 4 and 5, bit 3 to 6 and 7.
    let half = table & 0x0F;
    let pairs = (half | half << 2) & 0x33;
    let bits = (pairs | pairs << 1) & 0x55;
    bits | bits << 1
}

// The table with a new leaf 2, on which it doesn't depend: leaf 2 comes to be leaf 3.
fn with_second(table: u64) -> u64
    requires { table < 2 ^ 8 }
    ensures byte { result < 2 ^ 8 }
    ensures value { (one two three : Bool) → value_at result (one ∷ two ∷ three ∷ []) ≡ value_at table (one ∷ three ∷ []) }
{
    // Bits 0 and 1 go to bits 0 to 3, twice, bits 2 and 3 to bits 4 to 7.
    let half = table & 0x0F;
    let pairs = (half | half << 2) & 0x33;
    pairs | pairs << 2
}
