//! The logical lines of a BLIF text, one at a time, with the places of their tokens.
//!
//! A text is cut into physical lines at its line feeds. Of a line a carriage return at its end is dropped, then a comment,
//! which is a `#` and all behind it. Where the last byte that is then left, blanks aside, is a backslash, the line goes on in
//! the next one. `LogicalLines` gives these logical lines in order: the number of the first physical line, whether a byte
//! outside comments is bad, and a span of the text for each token. It makes no copy of the text and no list of its lines, and
//! goes over the bytes of a physical line a few times.
//!
//! Promised by `LogicalLines::new`: all logical lines of the text are left (`left`). By `next`: the first line that is left
//! is given, and isn't left any more (`line`); None comes exactly where none was left (`end`); its spans are in the text, in
//! ascending order, and none is empty (`spans`); it is bad or has a token (`given`); after `NoMemory` nothing has moved
//! (`no_memory`). `tokens_stand_between_separators` says what a token is from the text alone.
//! Not promised: how long a call takes; that memory is refused only where there is none; what a line means.
//!
//! Read `specs/PhysicalLines.antt` from `cut_at_line_feeds`, then `specs/LogicalLines.antt` down to `lines_of`; both cut by
//! `cut_at` of `specs/Parts.antt`, lines at line feeds and tokens at blanks. `proofs/Examples.antt` has small texts with their
//! lines. The central idea: what was read, then what is left to read, is the whole (`proofs/Joining.antt` for lines,
//! `proofs/Tokens.antt` for tokens); it rests on `cut_at-first` (`proofs/Cutting.antt`). `proofs/CallerLemmas.antt` has what
//! the crates above cite.
//!
//! Source: Berkeley Logic Interchange Format (1992). That a join separates tokens is this project's choice, and so is that
//! blanks and comments may follow the backslash.
#![tactic(auto)]

mod bytes;
mod laws;
mod line;
mod lines;

pub use laws::tokens_stand_between_separators;
pub use line::{LogicalLine, Span};
pub use lines::{LogicalLines, MAX_TEXT_BYTES};
pub use net_base::NoMemory;
