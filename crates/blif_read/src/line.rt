//! A line that isn't bad, by the bytes of its tokens.

ghost use Rattle.std.specs.Prelude.{◌≡◌, ◌<◌, [], length, slice_index_or, All};
ghost use Rattle.net_base.specs.Name.{IsNameByte};
ghost use Rattle.blif_read.specs.Clean.{IsClean};
ghost use Rattle.blif_read.specs.Words.{line_at};

use blif_lex::LogicalLine;
use std::marker::Model;

/// A line of a text that isn't bad. Contracts see it with the bytes of its tokens.
#[derive(Drop)]
pub(crate) struct CleanLine<'a> {
    text: &'a [u8],
    line: &'a LogicalLine,
}

impl<'a> Model for CleanLine<'a> {
    ghost use Rattle.blif_read.specs.Clean.{IsClean};
    ghost use Rattle.blif_read.specs.Words.{Line, line_at};

    ghost Value = { Line };

    ghost view = { λ it. line_at it.text.now it.line.now };

    ghost invariant = { λ it. IsClean it.text.now it.line.now };
}

impl<'a> CleanLine<'a> {
    pub(crate) fn new(text: &'a [u8], line: &'a LogicalLine) -> CleanLine<'a>
        requires { IsClean text.now line.now }
        ensures { result ≡ line_at text.now line.now }
    {
        CleanLine { text, line }
    }

    /// Its number.
    pub(crate) fn number(&self) -> u32
        ensures { result ≡ self.now.number }
    {
        self.line.line
    }

    /// How many tokens there are.
    pub(crate) fn len(&self) -> usize
        ensures { result ≡ length self.now.tokens }
    {
        self.line.tokens.len()
    }

    /// The bytes of a token.
    pub(crate) fn token(&self, place: usize) -> &'a [u8]
        requires { place < length self.now.tokens }
        ensures bytes { result.now ≡ slice_index_or self.now.tokens place [] }
        ensures some { 0 < length result.now }
        ensures visible { All IsNameByte result.now }
    {
        let span = self.line.tokens.get(place);
        &self.text[span.start..span.end]
    }
}
