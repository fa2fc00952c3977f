//! The leaves of a choice, from the words of its cut.

ghost use Rattle.std.specs.Prelude.{◌≡◌, ◌≤◌, take};
ghost use Rattle.cut_word.specs.Word.{IsWords, leaves_in};

use crate::choice::Choice;
use cut_word::{CutParts, from_words, unpack};

/// The cut that was chosen, by its parts.
pub(crate) fn chosen_cut(choice: &Choice) -> CutParts
    requires { IsWords choice.now.leaves choice.now.table }
    ensures size { (1 ≤ result.size) × (result.size ≤ 3) }
    ensures leaves { take result.size result.leaves ≡ leaves_in choice.now.leaves }
{
    match from_words(choice.leaves, u64::from(choice.table)) {
        Some(cut) => unpack(cut),
        None => unreachable!(),
    }
}
