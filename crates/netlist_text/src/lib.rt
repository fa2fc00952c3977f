//! The netlist text, both ways: the one spelling of a netlist and a flow, and the netlist and the flow of a text.
//!
//! A text has a line for its format, model, phases and latency, then one for each input, element, output and pin of the flow, and
//! an end line. Format 2 is format 1 with majority cells, and stands only where there is one. `write` spells; `read` takes a
//! whole text, and `read_prefix` what stands at its front, up to and with the end line.
//!
//! Promised: `write` gives the spelling (`spelling`), and says that names and numbers are as their types have them (`typed`).
//! Where `read` answers `Ok` the bytes are the spelling of what it answers (`spelled`), and the netlist is formed (`formed`); `read_prefix` says the same of the front, with its bytes and lines (`bytes`,
//! `lines`). Each other answer but `NoMemory` is the first fault of the text (`fault`): the first line that doesn't fit behind
//! those before it, then no end, then a format that the elements don't need, then, in `read` alone, something behind the end.
//! There are no more lines than bytes (`few`). The same as one answer, by a definition that reads line by line, is the clause
//! `answer`; `spellings_are_parsed` and `first_faults_are_parsed` say that this definition is what the other clauses speak of.
//! `spellings_differ` says that two netlists never share a text, nor does one go on as the other; `spellings_have_no_fault` that
//! what was written is never refused. So a text is read exactly where it is a spelling. `lines_end_with_line_feeds` says that the
//! lines of a prefix are its line feeds.
//! Not promised: that a netlist that is read is valid (`pulse_net`), or that a flow has as many lines as the netlist has pins; how
//! long a call takes. A text is gone over once, and its bytes a few times.
//!
//! Read `specs/Spelling.antt` down to `spelling_of`, then `specs/Lines.antt` from `Line` to `Fits`, which says what may stand
//! behind what, and `specs/Faults.antt` from `IsRead`; `specs/Laws.antt` has the laws. `specs/Parsing.antt` has `parsed`, the one
//! answer. `specs/Scanning.antt` is how the one line that fits is found; of the public clauses `answer` alone rests on it. `proofs/Examples.antt` has small texts, lines and faults.
//! The central proofs: a line that fits is scanned, and only such a line (`proofs/ScannedLines.antt`); what was read so far is
//! spelled by the lines so far (`proofs/SpelledLines.antt`); what is answered was read (`proofs/ParsedLaws.antt`); lines that fit, over the same bytes, are the same lines
//! (`proofs/SpellingsDiffer.antt`).
#![tactic(auto)]

mod fault;
mod laws;
mod line;
mod part;
mod reader;
mod reading;
mod typed;
mod word;
mod writing;

pub use fault::{TextFault, TextKind, TextReadFault};
pub use laws::{
    first_faults_are_parsed, lines_end_with_line_feeds, spellings_are_parsed, spellings_differ,
    spellings_have_no_fault,
};
pub use net_base::NoMemory;
pub use reading::{MAX_BYTES, Prefix, read, read_prefix};
pub use writing::write;
