//! Reading rows of input bits.

ghost use Rattle.std.specs.Prelude.{◌≡◌, ◌≤◌, ◌<◌, ◌+◌, ◌^◌, List, Bool, Ok, MatchResult, IfOk, length, drop, map};
ghost use Rattle.std.specs.List.{position_or_len, list_all};
ghost use Rattle.net_base.specs.Answers.{Gives};
ghost use Rattle.pulse_sim.specs.Rows.{TextLine, is_line_feed, is_bit, is_one, wrong_in, rows_of, told_by};

use crate::fault::{RowFault, RowKind, RowsFault};
use net_base::{List, NoMemory};
use std::alloc::Global;

/// The rows of a text at most: 2^16.
pub const MAX_ROWS: usize = 65_536;

/// The rows of a text. Each is as many characters `0` or `1` as there are inputs, and a line feed behind them; where there
/// are no inputs a row is an empty line. The first line of the text has the number `line`, at most 2^31. Else the first line
/// that is no row is named. The only other error is `NoMemory`, which says nothing of the text.
pub fn read_rows(
    alloc: Global,
    bytes: &[u8],
    inputs: u32,
    line: u32,
) -> Result<List<List<bool>>, RowsFault>
    requires { line ≤ 2 ^ 31 }
    ensures rows { Gives (λ rows. Ok rows) told_by result (rows_of bytes.now inputs line) }
{
    let mut rows = List::new(alloc);
    let mut rest = bytes;
    while !rest.is_empty() {
        let len = line_len(rest);
        let front = &rest[..len];
        let place = rows.len();
        if let Some(kind) = wrong_in(place, inputs, front, len < rest.len()) {
            return Err(fault_at(line, place, kind));
        }
        let row = bits_of(alloc, front)?;
        rows.push(row)?;
        rest = behind(rest, len);
    }
    Ok(rows)
}

// What is wrong with the line of some bytes, behind so many rows.
fn wrong_in(before: usize, inputs: u32, bytes: &[u8], is_ended: bool) -> Option<RowKind>
    ensures { result ≡ wrong_in before inputs (record { bytes = bytes.now; is_ended = is_ended }) }
{
    if before >= MAX_ROWS {
        Some(RowKind::TooManyRows)
    } else if !(is_ended && bytes.len() == inputs as usize) {
        Some(RowKind::RowShape)
    } else if !are_bits(bytes) {
        Some(RowKind::RowChar)
    } else {
        None
    }
}

// The fault of the line behind so many rows, where the first line has a number.
fn fault_at(line: u32, place: usize, kind: RowKind) -> RowsFault
    requires line { line ≤ 2 ^ 31 }
    requires place { place ≤ MAX_ROWS }
    ensures { result ≡ RowsFault.Row (record { line = line + place; kind = kind }) }
{
    RowsFault::Row(RowFault {
        line: line + place as u32,
        kind,
    })
}

// Whether each byte is a `0` or a `1`.
fn are_bits(bytes: &[u8]) -> bool
    ensures { result ≡ list_all is_bit bytes.now }
{
    bytes.iter().all(|byte| is_bit(*byte))
}

fn is_bit(byte: u8) -> bool
    ensures { result ≡ is_bit byte }
{
    byte == b'0' || byte == b'1'
}

fn is_one(byte: u8) -> bool
    ensures { result ≡ is_one byte }
{
    byte == b'1'
}

// The bytes as bits.
fn bits_of(alloc: Global, bytes: &[u8]) -> Result<List<bool>, NoMemory>
    ensures { IfOk result (λ row. row ≡ map is_one bytes.now) }
{
    let mut row = List::new(alloc);
    for byte in bytes {
        row.push(is_one(*byte))?;
    }
    Ok(row)
}

// How many bytes stand before the first line feed.
fn line_len(text: &[u8]) -> usize
    ensures count { result ≡ position_or_len is_line_feed text.now }
    ensures within { result ≤ length text.now }
{
    text.iter().take_while(|byte| **byte != b'\n').count()
}

// What stands behind a byte, or nothing at the end.
fn behind(bytes: &[u8], place: usize) -> &[u8]
    ensures { result.now ≡ drop (place + 1) bytes.now }
{
    if place < bytes.len() {
        &bytes[place + 1..]
    } else {
        &[]
    }
}
