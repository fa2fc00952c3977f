//! What can be wrong with the text of rows: a line and a kind.

ghost use Rattle.std.specs.Prelude.{◌≡◌};
ghost use Rattle.pulse_sim.specs.declared.fault.RowsFault.TheVariants.{NoMemory as NoRoom};

use std::alloc::{AllocError, AllocFailed};

/// What is wrong with a line of rows.
#[derive(Clone, Copy, Debug, PartialEq, Eq)]
pub enum RowKind {
    /// There are more or fewer characters than inputs, or no line feed behind them.
    RowShape,
    /// A character is neither `0` nor `1`.
    RowChar,
    /// There are as many rows before it as there may be.
    TooManyRows,
}

/// The first line that is no row.
#[derive(Clone, Copy, Debug, PartialEq, Eq)]
pub struct RowFault {
    /// The number of the line.
    pub line: u32,
    /// What is wrong with it.
    pub kind: RowKind,
}

/// Why a text isn't read as rows.
#[derive(Clone, Copy, Debug, PartialEq, Eq)]
pub enum RowsFault {
    /// This line is no row, and all lines before it are.
    Row(RowFault),
    /// Want of memory, which says nothing of the text.
    NoMemory,
}

impl From<AllocError> for RowsFault {
    ghost from_gives = { λ _ fault. fault ≡ NoRoom };

    fn from(_failed: AllocError) -> RowsFault {
        RowsFault::NoMemory
    }
}
