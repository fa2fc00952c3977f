//! A part of a text, and what stands at its front.

ghost use Rattle.std.specs.Prelude.{◌≡◌, ◌≢◌, ◌≤◌, ◌<◌, ◌^◌, ◌↔◌, ℕ, [], length, IsTrue, IfSome, IfNone, decimal};
ghost use Rattle.std.specs.List.{prefix_len};
ghost use Rattle.std.specs.Char.{is_ascii_digit};
ghost use Rattle.netlist_text.specs.Scanning as scan;

use itoa::Buffer;
use net_base::MAX_NAME_BYTES;
use std::marker::Model;

/// Bytes of a text. Contracts see them as a list.
#[derive(Drop)]
pub(crate) struct Part<'a> {
    bytes: &'a [u8],
}

impl<'a> Model for Part<'a> {
    ghost use Rattle.std.specs.Prelude.{List, ℕ};

    ghost Value = { List ℕ };

    ghost view = { λ part. part.bytes.now };
}

// The number of 32 bits that bytes are in decimal, without a sign or a leading zero.
fn decimal_in(digits: &[u8]) -> Option<u32>
    ensures spelled { IfSome result (λ n. (n < 2 ^ 32) × (digits.now ≡ decimal n)) }
    ensures none { IfNone result ((n : ℕ) → n < 2 ^ 32 → digits.now ≢ decimal n) }
{
    let Ok(text) = str::from_utf8(digits) else {
        return None;
    };
    let Ok(n) = text.parse::<u32>() else {
        return None;
    };
    if Buffer::new().format(n).as_bytes() == digits {
        Some(n)
    } else {
        None
    }
}

fn number_of(digits: &[u8]) -> Option<u32>
    ensures { result ≡ scan.number_of digits.now }
{
    decimal_in(digits)
}

// How many digits stand at the front.
fn digit_count(bytes: &[u8]) -> usize
    ensures count { result ≡ prefix_len is_ascii_digit bytes.now }
    ensures within { result ≤ length bytes.now }
{
    bytes
        .iter()
        .take_while(|byte| byte.is_ascii_digit())
        .count()
}

fn is_name_byte(byte: u8) -> bool
    ensures { result ≡ scan.is_name_byte byte }
{
    33 <= byte && byte <= 126 && byte != b'#'
}

// How many bytes at the front may stand in a name.
fn name_len(bytes: &[u8]) -> usize
    ensures count { result ≡ prefix_len scan.is_name_byte bytes.now }
    ensures within { result ≤ length bytes.now }
{
    bytes.iter().take_while(|byte| is_name_byte(**byte)).count()
}

impl<'a> Part<'a> {
    pub(crate) fn new(bytes: &'a [u8]) -> Part<'a>
        ensures { result ≡ bytes.now }
    {
        Part { bytes }
    }

    pub(crate) fn bytes(&self) -> &'a [u8]
        ensures { result.now ≡ self.now }
    {
        self.bytes
    }

    pub(crate) fn len(&self) -> usize
        ensures { result ≡ length self.now }
    {
        self.bytes.len()
    }

    pub(crate) fn is_empty(&self) -> bool
        ensures { IsTrue result ↔ (self.now ≡ []) }
    {
        self.bytes.is_empty()
    }

    // What stands behind a word.
    #[tactic(auto, unfolding(crate::specs::Scanning::behind))]
    pub(crate) fn behind(&self, word: &[u8]) -> Option<Part<'a>>
        ensures { result ≡ scan.behind word.now self.now }
    {
        let bytes = self.bytes.strip_prefix(word)?;
        Some(Part { bytes })
    }

    // A number, up to the first byte that is no digit.
    #[tactic(auto, unfolding(crate::specs::Scanning::number_at))]
    fn number(&self) -> Option<(u32, Part<'a>)>
        ensures { result ≡ scan.number_at self.now }
    {
        let len = digit_count(self.bytes);
        let number = number_of(&self.bytes[..len])?;
        Some((number, Part::new(&self.bytes[len..])))
    }

    // A space and a number.
    #[tactic(auto, unfolding(crate::specs::Scanning::field_at))]
    pub(crate) fn field(&self) -> Option<(u32, Part<'a>)>
        ensures { result ≡ scan.field_at self.now }
    {
        self.behind(b" ")?.number()
    }

    // A line feed.
    pub(crate) fn end(&self) -> Option<Part<'a>>
        ensures { result ≡ scan.end_at self.now }
    {
        self.behind(b"\n")
    }

    // A name, up to the first byte that may not stand in one.
    #[tactic(auto, unfolding(crate::specs::Scanning::name_word_at))]
    fn name_word(&self) -> Option<(Part<'a>, Part<'a>)>
        ensures { result ≡ scan.name_word_at self.now }
    {
        let len = name_len(self.bytes);
        if 1 <= len && len <= MAX_NAME_BYTES {
            Some((Part::new(&self.bytes[..len]), Part::new(&self.bytes[len..])))
        } else {
            None
        }
    }

    // A space and a name.
    #[tactic(auto, unfolding(crate::specs::Scanning::name_at))]
    pub(crate) fn name(&self) -> Option<(Part<'a>, Part<'a>)>
        ensures { result ≡ scan.name_at self.now }
    {
        self.behind(b" ")?.name_word()
    }
}
