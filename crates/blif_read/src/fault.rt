//! Why a text has no design.

ghost use Rattle.std.specs.Prelude.{◌≡◌};
ghost use Rattle.blif_read.specs.Answers.{fault_at};
ghost use Rattle.blif_read.specs.declared.fault.LineFault.TheVariants.{NoMemory};

use net_base::Name;
use std::alloc::{AllocError, AllocFailed};

/// What is wrong with a line. Of all that is, the first in the order of the profile is told (`specs/Faults.antt`).
#[derive(Clone, Debug, PartialEq, Eq, Drop)]
pub enum BlifKind {
    /// A byte outside comments is neither a tab nor from the space to the tilde.
    BadByte,
    /// The first token begins with a dot, and is none of the words of BLIF that are known here.
    UnknownWord,
    /// A word of BLIF, which it carries, that says more than a network of tables.
    Unsupported(Name),
    /// A row where no table is current.
    RowOutsideTable,
    /// A row with more or fewer tokens or characters than its table wants.
    RowShape,
    /// A row with a character that may not stand at its place.
    RowChar,
    /// A row whose output differs from that of the first row of its table.
    MixedOutput,
    /// A `.names` without any signal.
    NoTarget,
    /// A `.model` behind another, or behind an `.end`.
    SecondModel,
    /// A line behind an `.end`.
    AfterEnd,
    /// An input that is one already.
    DuplicateInput,
    /// An output that is one already.
    DuplicateOutput,
    /// A name of more than 255 bytes.
    NameTooLong,
    /// More than 4,096 inputs.
    TooManyInputs,
    /// More than 4,096 outputs.
    TooManyOutputs,
    /// More than 65,536 tables.
    TooManyTables,
    /// A table of more than 256 pins.
    TooManyPins,
}

/// The first line of a text that has a fault.
#[derive(Clone, Debug, PartialEq, Eq, Drop)]
pub struct BlifFault {
    /// Its number, counted from 1: that of its first physical line.
    pub line: u32,
    /// What is wrong with it.
    pub kind: BlifKind,
}

/// Why no design was read.
#[derive(Clone, Debug, PartialEq, Eq, Drop)]
pub enum ReadFault {
    /// The text has none.
    Blif(BlifFault),
    /// Memory ran out.
    NoMemory,
}

/// Why a line isn't read.
#[derive(Debug, Drop)]
pub(crate) enum LineFault {
    /// It has a fault.
    Kind(BlifKind),
    /// Memory ran out.
    NoMemory,
}

impl LineFault {
    /// The same of a text whose line has this number.
    pub(crate) fn at_line(self, line: u32) -> ReadFault
        ensures { result ≡ fault_at line self }
    {
        match self {
            LineFault::Kind(kind) => ReadFault::Blif(BlifFault { line, kind }),
            LineFault::NoMemory => ReadFault::NoMemory,
        }
    }
}

impl From<AllocError> for LineFault {
    ghost from_gives = { λ _ fault. fault ≡ NoMemory };

    fn from(_: AllocError) -> LineFault {
        LineFault::NoMemory
    }
}

impl<T: Drop> From<AllocFailed<T>> for LineFault {
    ghost from_gives = { λ _ fault. fault ≡ NoMemory };

    fn from(_: AllocFailed<T>) -> LineFault {
        LineFault::NoMemory
    }
}

impl From<AllocError> for ReadFault {
    ghost use Rattle.blif_read.specs.declared.fault.ReadFault.TheVariants as whole;

    ghost from_gives = { λ _ fault. fault ≡ whole.NoMemory };

    fn from(_: AllocError) -> ReadFault {
        ReadFault::NoMemory
    }
}
