//! Rows of a table.

ghost use Rattle.std.specs.Prelude.{◌≡◌, ◌<◌, length, map, IfOk, OnOk};
ghost use Rattle.std.specs.List.{list_all};
ghost use Rattle.blif_read.specs.Answers.{Finds};
ghost use Rattle.blif_read.specs.Faults.{row_fault};
ghost use Rattle.blif_read.specs.Rows as spec;

use crate::fault::{BlifKind, LineFault};
use crate::line::CleanLine;
use blif_model::{Bit, Cube, Table};
use net_base::{List, NoMemory};
use std::alloc::Global;

// Whether a line has as many tokens as a row of a table with so many pins, each as long as that one's.
fn is_row_shape(pins: usize, line: &CleanLine) -> bool
    ensures { result ≡ spec.is_row_shape pins line.now.tokens }
{
    if pins == 0 {
        line.len() == 1 && line.token(0).len() == 1
    } else {
        line.len() == 2 && line.token(0).len() == pins && line.token(1).len() == 1
    }
}

// The characters of the pins.
fn row_bits<'a>(line: &CleanLine<'a>) -> &'a [u8]
    ensures { result.now ≡ spec.row_bits line.now.tokens }
{
    if line.len() < 2 { &[] } else { line.token(0) }
}

// The character of the output.
fn row_output(line: &CleanLine) -> u8
    requires { 0 < length line.now.tokens }
    ensures { result ≡ spec.row_output line.now.tokens }
{
    if line.len() == 1 {
        line.token(0)[0]
    } else {
        line.token(1)[0]
    }
}

fn is_bit(byte: u8) -> bool
    ensures { result ≡ spec.is_bit byte }
{
    byte == b'0' || byte == b'1' || byte == b'-'
}

fn is_output(byte: u8) -> bool
    ensures { result ≡ spec.is_output byte }
{
    byte == b'0' || byte == b'1'
}

fn are_bits(bytes: &[u8]) -> bool
    ensures { result ≡ list_all spec.is_bit bytes.now }
{
    bytes.iter().all(|byte| is_bit(*byte))
}

// Whether each character may stand at its place.
fn are_row_chars(line: &CleanLine) -> bool
    requires { 0 < length line.now.tokens }
    ensures { result ≡ spec.are_row_chars line.now.tokens }
{
    are_bits(row_bits(line)) && is_output(row_output(line))
}

// Whether the output is 1.
fn is_on(line: &CleanLine) -> bool
    requires { 0 < length line.now.tokens }
    ensures { result ≡ spec.is_on line.now.tokens }
{
    row_output(line) == b'1'
}

// What a character asks of its pin.
fn bit_of(byte: u8) -> Bit
    ensures { result ≡ spec.bit_of byte }
{
    match byte {
        b'0' => Bit::Zero,
        b'1' => Bit::One,
        _ => Bit::Any,
    }
}

// A list of no bits takes no memory: there may be millions of rows without pins.
fn bits_of(alloc: Global, bytes: &[u8]) -> Result<List<Bit>, NoMemory>
    ensures { IfOk result (λ bits. bits ≡ map spec.bit_of bytes.now) }
{
    let mut bits = Vec::with_capacity(alloc, bytes.len())?;
    for byte in bytes {
        bits.push(bit_of(*byte))?;
    }
    Ok(List::from_vec(bits))
}

fn row_of(alloc: Global, line: &CleanLine) -> Result<Cube, NoMemory>
    ensures { IfOk result (λ row. row ≡ spec.row_of line.now.tokens) }
{
    let bits = bits_of(alloc, row_bits(line))?;
    Ok(Cube { bits })
}

/// Adds a row to the current table.
pub(crate) fn add_row(alloc: Global, table: &mut Table, line: &CleanLine) -> Result<(), LineFault>
    requires { 0 < length line.now.tokens }
    ensures fault { Finds result (row_fault line.now.tokens table.old) }
    ensures table { OnOk result (table.new ≡ spec.with_row line.now.tokens table.old) }
{
    if !is_row_shape(table.pins.len(), line) {
        return Err(LineFault::Kind(BlifKind::RowShape));
    }
    if !are_row_chars(line) {
        return Err(LineFault::Kind(BlifKind::RowChar));
    }
    let on = is_on(line);
    if !table.rows.is_empty() && table.on != on {
        return Err(LineFault::Kind(BlifKind::MixedOutput));
    }
    let row = row_of(alloc, line)?;
    table.rows.push(row)?;
    table.on = on;
    Ok(())
}
