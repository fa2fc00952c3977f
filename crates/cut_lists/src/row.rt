//! The row of a node's cuts: their words, and cuts from words.

ghost use Rattle.std.specs.Prelude.{◌≡◌, ◌<◌, ◌≤◌, List, length, slice_index_or};
ghost use Rattle.cut_word.specs.Cut.{CutView};
ghost use Rattle.cut_lists.specs.Rows.{words_of, row_with, IsRowOf};

use crate::cuts::Cuts;
use cut_word::{Cut, from_words, to_words};

/// The cuts of a node at most: the trivial one, the fan-in cut and six more.
pub const MAX_CUTS: usize = 8;

/// The cuts of a node, by their words. Behind the words of its cuts a node's row has zeros.
#[derive(Clone, Copy, Debug, PartialEq, Eq)]
pub struct Row {
    /// How many cuts there are, at most 8.
    pub len: u32,
    /// The first and the second word of each cut, in order.
    pub words: [u64; 16],
}

/// The row of these cuts.
pub(crate) fn row_with_cuts(cuts: &[Cut]) -> Row
    requires { length cuts.now ≤ 8 }
    ensures { result ≡ row_with (words_of cuts.now) }
{
    let mut words = [0; 16];
    for (k, cut) in cuts.iter().enumerate() {
        let (first, second) = to_words(*cut);
        words[2 * k] = first;
        words[2 * k + 1] = second;
    }
    Row {
        len: cuts.len() as u32,
        words,
    }
}

/// The cuts of a row.
pub(crate) fn cuts_of(row: &Row) -> Cuts
    requires { (cuts : List CutView) × IsRowOf cuts row.now }
    ensures { (cuts : List CutView) → IsRowOf cuts row.now → result ≡ cuts }
{
    let mut cuts = Cuts::new();
    for k in 0..row.len {
        cuts.push(cut_at(row, k));
    }
    cuts
}

// The cut at a place of a row.
fn cut_at(row: &Row, k: u32) -> Cut
    requires cuts { (cuts : List CutView) × IsRowOf cuts row.now }
    requires place { k < row.now.len }
    ensures { (cuts : List CutView) (d : CutView) → IsRowOf cuts row.now → result ≡ slice_index_or cuts k d }
{
    let place = 2 * k as usize;
    match from_words(row.words[place], row.words[place + 1]) {
        Some(cut) => cut,
        None => unreachable!(),
    }
}
