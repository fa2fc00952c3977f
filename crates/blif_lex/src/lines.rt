//! Reading logical lines one at a time.

ghost use Rattle.std.specs.Prelude.{◌≡◌, ◌≤◌, ◌<◌, ◌↔◌, ◌+◌, ◌||◌, ◌++◌, [], ◌∷◌, length, min, true, None, IfOk, OnOk, OnErr, IfSome, IfNone};
ghost use Rattle.std.specs.List.{list_any, cons_option};
ghost use Rattle.blif_lex.specs.PhysicalLines as spec;
ghost use Rattle.blif_lex.specs.LogicalLines.{all_from, is_given as given, lines_from, lines_of, tokens_at, AreWithin};

use crate::bytes::{behind, content, has_bad_byte, line_len, word_len};
use crate::{LogicalLine, Span};
use net_base::{List, NoMemory};
use std::alloc::Global;
use std::marker::Model;

/// The bytes of a text at most: 2^23, so that each place, and the number of each line, is far below 2^32.
pub const MAX_TEXT_BYTES: usize = 8_388_608;

// Adds the tokens of bytes that begin at a place of the text.
fn push_tokens(tokens: &mut List<Span>, start: usize, bytes: &[u8]) -> Result<(), NoMemory>
    requires { start + length bytes.now ≤ MAX_TEXT_BYTES }
    ensures { OnOk result (tokens.new ≡ tokens.old ++ tokens_at start bytes.now) }
{
    let mut at = start;
    let mut rest = bytes;
    while !rest.is_empty() {
        let len = word_len(rest);
        if len > 0 {
            tokens.push(Span {
                start: at,
                end: at + len,
            })?;
        }
        rest = behind(rest, len);
        at += len + 1;
    }
    Ok(())
}

// Adds a physical line, whose bytes begin at a place of the text, to a logical line, and says whether the next one is joined
// to it.
fn add_line(line: &mut LogicalLine, start: usize, bytes: &[u8]) -> Result<bool, NoMemory>
    requires { start + length bytes.now ≤ MAX_TEXT_BYTES }
    ensures joined { IfOk result (λ is_joined. is_joined ≡ spec.is_joined bytes.now) }
    ensures line { OnOk result (line.new ≡ record {
      line = line.old.line;
      bad = line.old.bad || list_any spec.is_bad_byte (spec.content bytes.now);
      tokens = line.old.tokens ++ tokens_at start (spec.content bytes.now);
    }) }
{
    let (content, is_joined) = content(bytes);
    line.bad = line.bad || has_bad_byte(content);
    push_tokens(&mut line.tokens, start, content)?;
    Ok(is_joined)
}

// A place of a text where a physical line begins, with the number of the line; or the end.
#[derive(Clone, Copy)]
struct Place {
    at: usize,
    number: u32,
}

// The logical line at a place before the end, and the place behind it.
fn line_at(alloc: Global, text: &[u8], place: Place) -> Result<(LogicalLine, Place), NoMemory>
    requires some { place.at < length text.now }
    requires number { place.number ≤ place.at + 1 }
    requires short { length text.now ≤ MAX_TEXT_BYTES }
    ensures line { IfOk result (λ read. all_from place.number place.at text.now
        ≡ read.0 ∷ all_from read.1.number read.1.at text.now) }
    ensures within { IfOk result (λ read. read.1.at ≤ length text.now) }
    ensures number { IfOk result (λ read. read.1.number ≤ read.1.at + 1) }
    ensures behind { IfOk result (λ read. place.at < read.1.at) }
{
    let mut line = LogicalLine {
        line: place.number,
        bad: false,
        tokens: List::new(alloc),
    };
    let mut at = place.at;
    let mut number = place.number;
    while at < text.len() {
        let rest = &text[at..];
        let len = line_len(rest);
        let is_joined = add_line(&mut line, at, &rest[..len])?;
        at = (at + (len + 1)).min(text.len());
        number += 1;
        if !is_joined {
            return Ok((line, Place { at, number }));
        }
    }
    Ok((line, Place { at, number }))
}

// Whether a line isn't skipped.
fn is_given(line: &LogicalLine) -> bool
    ensures { result ≡ given line.now }
{
    line.bad || !line.tokens.is_empty()
}

// The first logical line from a place on that isn't skipped, and the place behind it; or None and the end.
fn given_at(
    alloc: Global,
    text: &[u8],
    place: Place,
) -> Result<(Option<LogicalLine>, Place), NoMemory>
    requires within { place.at ≤ length text.now }
    requires number { place.number ≤ place.at + 1 }
    requires short { length text.now ≤ MAX_TEXT_BYTES }
    ensures line { IfOk result (λ read. lines_from place.number place.at text.now
        ≡ cons_option read.0 (lines_from read.1.number read.1.at text.now)) }
    ensures end { IfOk result (λ read. IfNone read.0 (lines_from place.number place.at text.now ≡ [])) }
    ensures spans { IfOk result (λ read. IfSome read.0 (λ line. AreWithin 0 (length text.now) line.tokens)) }
    ensures given { IfOk result (λ read. IfSome read.0 (λ line. given line ≡ true)) }
    ensures within { IfOk result (λ read. read.1.at ≤ length text.now) }
    ensures number { IfOk result (λ read. read.1.number ≤ read.1.at + 1) }
{
    let mut next = place;
    while next.at < text.len() {
        let (line, behind) = line_at(alloc, text, next)?;
        next = behind;
        if is_given(&line) {
            return Ok((Some(line), next));
        }
    }
    Ok((None, next))
}

/// The logical lines of a text that are still to come. Contracts see a `Reading`: the text, and these lines.
#[derive(Drop)]
pub struct LogicalLines<'a> {
    text: &'a [u8],
    // The next physical line begins here, and has this number.
    at: usize,
    number: u32,
}

impl<'a> Model for LogicalLines<'a> {
    ghost use Rattle.std.specs.Prelude.{◌≤◌, ◌+◌, length};
    ghost use Rattle.blif_lex.specs.LogicalLines.{Reading, lines_from};
    ghost use Rattle.blif_lex.specs.declared.lines.TheConstants.{MAX_TEXT_BYTES};

    ghost Value = { Reading };

    ghost view = { λ it. record { text = it.text.now; left = lines_from it.number it.at it.text.now } };

    // Each physical line has a byte at least, so numbers keep behind places.
    ghost invariant = { λ it. (it.at ≤ length it.text.now) × (it.number ≤ it.at + 1) × (length it.text.now ≤ MAX_TEXT_BYTES) };
}

impl<'a> LogicalLines<'a> {
    /// All logical lines of a text. Takes no memory.
    pub fn new(text: &'a [u8]) -> LogicalLines<'a>
        requires { length text.now ≤ MAX_TEXT_BYTES }
        ensures text { result.text ≡ text.now }
        ensures left { result.left ≡ lines_of text.now }
    {
        LogicalLines {
            text,
            at: 0,
            number: 1,
        }
    }

    /// The next logical line that isn't skipped, or None at the end. After `NoMemory` nothing has moved: the same line
    /// comes next.
    pub fn next(&mut self, alloc: Global) -> Result<Option<LogicalLine>, NoMemory>
        ensures text { self.new.text ≡ self.old.text }
        ensures line { IfOk result (λ next. self.old.left ≡ cons_option next self.new.left) }
        ensures end { IfOk result (λ next. (next ≡ None) ↔ (self.old.left ≡ [])) }
        ensures spans { IfOk result (λ next. IfSome next (λ line. AreWithin 0 (length self.old.text) line.tokens)) }
        ensures given { IfOk result (λ next. IfSome next (λ line. given line ≡ true)) }
        ensures no_memory { OnErr result (self.new ≡ self.old) }
    {
        let place = Place {
            at: self.at,
            number: self.number,
        };
        let (line, behind) = given_at(alloc, self.text, place)?;
        self.at = behind.at;
        self.number = behind.number;
        Ok(line)
    }
}
