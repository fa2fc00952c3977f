//! Why a text is no netlist text.

ghost use Rattle.std.specs.Prelude.{◌≡◌};

use net_base::NoMemory;

/// What is wrong with a text.
#[derive(Clone, Copy, Debug, PartialEq, Eq)]
pub enum TextKind {
    /// The line doesn't fit at its place, or it is the first one, of format 2, and no majority cell needs that.
    BadLine,
    /// No line is the end; the fault's line is the one behind the last.
    NoEnd,
    /// Something follows the end line; only `read` looks for it.
    AfterEnd,
}

/// The first fault of a text.
#[derive(Clone, Copy, Debug, PartialEq, Eq)]
pub struct TextFault {
    /// The number of its line, counted from 1.
    pub line: u32,
    /// What is wrong there.
    pub kind: TextKind,
}

/// Why a netlist couldn't be read.
#[derive(Clone, Copy, Debug, PartialEq, Eq)]
pub enum TextReadFault {
    /// The text has a fault.
    Text(TextFault),
    /// There was no memory for the netlist.
    NoMemory,
}

impl From<NoMemory> for TextReadFault {
    ghost use Rattle.netlist_text.specs.declared.fault.TextReadFault.TheVariants as whole;

    ghost from_gives = { λ _ fault. fault ≡ whole.NoMemory };

    fn from(_: NoMemory) -> TextReadFault {
        TextReadFault::NoMemory
    }
}
