//! What is left of a physical line, by its bytes.

ghost use Rattle.std.specs.Prelude.{◌≡◌, ◌≤◌, ◌+◌, length, drop};
ghost use Rattle.std.specs.List.{position_or_len, suffix_len, list_any};
ghost use Rattle.blif_lex.specs.PhysicalLines as spec;

pub(crate) fn is_blank(byte: u8) -> bool
    ensures { result ≡ spec.is_blank byte }
{
    byte == b' ' || byte == b'\t'
}

// A byte that may stand in comments alone.
fn is_bad_byte(byte: u8) -> bool
    ensures { result ≡ spec.is_bad_byte byte }
{
    !matches!(byte, b'\t' | b' '..=b'~')
}

pub(crate) fn has_bad_byte(bytes: &[u8]) -> bool
    ensures { result ≡ list_any spec.is_bad_byte bytes.now }
{
    bytes.iter().any(|byte| is_bad_byte(*byte))
}

// How many bytes stand before the first line feed.
pub(crate) fn line_len(text: &[u8]) -> usize
    ensures count { result ≡ position_or_len spec.is_line_feed text.now }
    ensures within { result ≤ length text.now }
{
    text.iter().take_while(|byte| **byte != b'\n').count()
}

// How many bytes stand before the first blank.
pub(crate) fn word_len(bytes: &[u8]) -> usize
    ensures count { result ≡ position_or_len spec.is_blank bytes.now }
    ensures within { result ≤ length bytes.now }
{
    bytes.iter().take_while(|byte| !is_blank(**byte)).count()
}

// What stands behind a byte, or nothing at the end.
pub(crate) fn behind(bytes: &[u8], place: usize) -> &[u8]
    ensures { result.now ≡ drop (place + 1) bytes.now }
{
    if place < bytes.len() {
        &bytes[place + 1..]
    } else {
        &[]
    }
}

#[tactic(auto, unfolding(crate::specs::PhysicalLines::without_carriage_return))]
fn without_carriage_return(line: &[u8]) -> &[u8]
    ensures value { result.now ≡ spec.without_carriage_return line.now }
    ensures within { length result.now ≤ length line.now }
{
    match line {
        [front @ .., b'\r'] => front,
        _ => line,
    }
}

// How many bytes stand before the comment, or all where there is none.
fn comment_start(line: &[u8]) -> usize
    ensures count { result ≡ position_or_len spec.is_hash line.now }
    ensures within { result ≤ length line.now }
{
    line.iter().take_while(|byte| **byte != b'#').count()
}

#[tactic(auto, unfolding(crate::specs::PhysicalLines::without_comment))]
fn without_comment(line: &[u8]) -> &[u8]
    ensures value { result.now ≡ spec.without_comment line.now }
    ensures within { length result.now ≤ length line.now }
{
    let len = comment_start(line);
    &line[..len]
}

// How many blanks stand at the end.
fn last_blanks(line: &[u8]) -> usize
    ensures count { result ≡ suffix_len spec.is_blank line.now }
    ensures within { result ≤ length line.now }
{
    line.iter()
        .rev()
        .take_while(|byte| is_blank(**byte))
        .count()
}

#[tactic(auto, unfolding(crate::specs::PhysicalLines::without_last_blanks))]
fn without_last_blanks(line: &[u8]) -> &[u8]
    ensures value { result.now ≡ spec.without_last_blanks line.now }
    ensures within { length result.now ≤ length line.now }
{
    let len = line.len() - last_blanks(line);
    &line[..len]
}

#[tactic(auto, unfolding(crate::specs::PhysicalLines::kept))]
fn kept(line: &[u8]) -> &[u8]
    ensures value { result.now ≡ spec.kept line.now }
    ensures within { length result.now ≤ length line.now }
{
    without_last_blanks(without_comment(without_carriage_return(line)))
}

// What a physical line adds to its logical line, and whether the next one is joined to it.
#[tactic(auto, unfolding(crate::specs::PhysicalLines::content, crate::specs::PhysicalLines::is_joined))]
pub(crate) fn content(line: &[u8]) -> (&[u8], bool)
    ensures content { result.0.now ≡ spec.content line.now }
    ensures joined { result.1 ≡ spec.is_joined line.now }
    ensures within { length result.0.now ≤ length line.now }
{
    match kept(line) {
        [front @ .., b'\\'] => (front, true),
        whole => (whole, false),
    }
}
