//! A logical line as plain data.

use net_base::List;

/// A part of a text: its bytes from `start` to before `end`.
#[derive(Clone, Copy, Debug, PartialEq, Eq)]
pub struct Span {
    /// The place of the first byte, counted from 0.
    pub start: usize,
    /// The place behind the last byte.
    pub end: usize,
}

/// A logical line of a text.
#[derive(Clone, Debug, PartialEq, Eq, Drop)]
pub struct LogicalLine {
    /// The number of its first physical line, counted from 1.
    pub line: u32,
    /// Whether a byte in it, outside comments, is neither a tab nor from the space to the tilde.
    pub bad: bool,
    /// Where its tokens stand in the text, in order.
    pub tokens: List<Span>,
}
