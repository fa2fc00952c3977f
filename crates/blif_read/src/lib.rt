//! Reading a BLIF text: its design, or its first line that has a fault.
//!
//! The text goes by logical lines (`blif_lex`), one at a time, and what was read so far is a `Reader`: the design, the table
//! whose rows are being read, and whether a `.model` and an `.end` came. Names become numbers by hash as they come, and so a
//! signal that is listed twice is found. The time is linear in the bytes of the text, in expectation. No list of lines is kept,
//! and a row without pins takes no memory but its place.
//!
//! Promised by `read`: the answer is the design that the text has, or the line and the kind of its first fault, or want of
//! memory (`reads`); and a design is regular (`regular`). So each of the seventeen kinds is told exactly where its condition is
//! the first that holds, in the first line that has a fault. Of the definition alone `designs_are_regular` says the same, and
//! `spelled_designs_are_read` that the text which spells a design, line by line, is read as that design.
//! Not promised: that each signal is driven, and once, and that the tables have an order; that memory is refused only where
//! there is none.
//!
//! Read `specs/Words.antt` for what a line says, `specs/Faults.antt` down to `fault_of`, the table of all faults in their
//! order, `specs/State.antt` down to `with_line` for what a line without a fault adds, and `specs/Reading.antt` for the whole,
//! `design_of`; `specs/Spelling.antt` has the text of a design. `specs/Rows.antt` and `specs/Signals.antt` have the rows of a
//! table and the numbers of names. `proofs/Examples.antt` has small texts with what is read of them.
//!
//! The central idea: what the definition reads of the lines that are left, in the state so far, is what it reads of all
//! (`proofs/LinesRead.antt`). That each state is sound (`proofs/SoundStates.antt`) bounds the number of names, and makes the
//! design regular; that a token of a line which isn't bad may be a name is shown of `blif_lex`'s lines
//! (`proofs/CleanTokens.antt`).
//!
//! Source: Berkeley Logic Interchange Format (1992), without latches and subcircuits. Which fault goes before which, the
//! limits, and that a `.model` may come late or be left out are this project's choice.
#![tactic(auto)]

mod fault;
mod laws;
mod line;
mod port;
mod reader;
mod reading;
mod row;
mod table;
mod word;

pub use blif_lex::MAX_TEXT_BYTES;
pub use fault::{BlifFault, BlifKind, ReadFault};
pub use laws::{designs_are_regular, spelled_designs_are_read};
pub use reading::read;
