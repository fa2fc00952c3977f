//! How a line of the body begins.

ghost use Rattle.std.specs.Prelude.{◌≡◌};
ghost use Rattle.netlist_text.specs.Scanning.{word_text};

use crate::writing::cell_word;
use cell_lib::Cell;

/// The first word of a line behind the header.
#[derive(Clone, Copy, Debug, PartialEq, Eq)]
pub(crate) enum Word {
    /// An input.
    Input,
    /// A clocked element.
    Clocked(Cell),
    /// A splitter.
    Split,
    /// An output.
    Output,
    /// The units of a pin.
    Flow,
    /// The end.
    End,
}

impl Word {
    /// Its bytes.
    pub(crate) fn text(self) -> &'static [u8]
        ensures { result.now ≡ word_text self }
    {
        match self {
            Word::Input => b"input",
            Word::Clocked(cell) => cell_word(cell),
            Word::Split => b"split",
            Word::Output => b"output",
            Word::Flow => b"flow",
            Word::End => b"end",
        }
    }
}
