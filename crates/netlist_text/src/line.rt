//! What stands on a line.

ghost use Rattle.std.specs.Prelude.{◌≡◌, [], IfOk};
ghost use Rattle.netlist_text.specs.Scanning as scan;

use crate::part::Part;
use crate::word::Word;
use cell_lib::{Cell, arity};
use flow_net::Units;
use net_base::{List, NoMemory};
use pulse_net::{Element, Outlet};
use std::alloc::Global;

/// A line of a word and a number from the least to the most.
#[tactic(auto, unfolding(crate::specs::Scanning::number_line_at))]
pub(crate) fn number_line<'a>(
    bytes: &Part<'a>,
    word: &[u8],
    least: u32,
    most: u32,
) -> Option<(u32, Part<'a>)>
    ensures { result ≡ scan.number_line_at word.now least most bytes.now }
{
    let (number, rest) = bytes.behind(word)?.field()?;
    let next = rest.end()?;
    if least <= number && number <= most {
        Some((number, next))
    } else {
        None
    }
}

/// The line of the model's name.
#[tactic(auto, unfolding(crate::specs::Scanning::model_at))]
pub(crate) fn model<'a>(bytes: &Part<'a>) -> Option<(Part<'a>, Part<'a>)>
    ensures { result ≡ scan.model_at bytes.now }
{
    let (name, rest) = bytes.behind(b"model")?.name()?;
    let next = rest.end()?;
    Some((name, next))
}

// A dash, or a wire.
#[tactic(auto, unfolding(crate::specs::Scanning::wire_at))]
fn wire<'a>(bytes: &Part<'a>) -> Option<(Option<u32>, Part<'a>)>
    ensures { result ≡ scan.wire_at bytes.now }
{
    if let Some(rest) = bytes.behind(b" -") {
        return Some((None, rest));
    }
    let (wire, rest) = bytes.field()?;
    Some((Some(wire), rest))
}

// A constant, or a wire.
#[tactic(auto, unfolding(crate::specs::Scanning::outlet_at))]
fn outlet<'a>(bytes: &Part<'a>) -> Option<(Outlet, Part<'a>)>
    ensures { result ≡ scan.outlet_at bytes.now }
{
    if let Some(rest) = bytes.behind(b" zero") {
        return Some((Outlet::Zero, rest));
    }
    if let Some(rest) = bytes.behind(b" one") {
        return Some((Outlet::One, rest));
    }
    let (wire, rest) = bytes.field()?;
    Some((Outlet::Wire(wire), rest))
}

/// The name and the wire of an input, behind the word of its line.
#[tactic(auto, unfolding(crate::specs::Scanning::input_at))]
pub(crate) fn input<'a>(bytes: &Part<'a>) -> Option<((Part<'a>, Option<u32>), Part<'a>)>
    ensures { result ≡ scan.input_at bytes.now }
{
    let (name, rest) = bytes.name()?;
    let (wire, rest) = wire(&rest)?;
    let next = rest.end()?;
    Some(((name, wire), next))
}

/// The name and the outlet of an output, behind the word of its line.
#[tactic(auto, unfolding(crate::specs::Scanning::output_at))]
pub(crate) fn output<'a>(bytes: &Part<'a>) -> Option<((Part<'a>, Outlet), Part<'a>)>
    ensures { result ≡ scan.output_at bytes.now }
{
    let (name, rest) = bytes.name()?;
    let (outlet, rest) = outlet(&rest)?;
    let next = rest.end()?;
    Some(((name, outlet), next))
}

/// The units of a pin, behind the word of their line.
#[tactic(auto, unfolding(crate::specs::Scanning::units_at))]
pub(crate) fn units<'a>(bytes: &Part<'a>) -> Option<(Units, Part<'a>)>
    ensures { result ≡ scan.units_at bytes.now }
{
    let (forward, rest) = bytes.field()?;
    let (back, rest) = rest.field()?;
    let next = rest.end()?;
    Some((Units { forward, back }, next))
}

/// A splitter, behind the word of its line.
#[tactic(auto, unfolding(crate::specs::Scanning::split_at))]
pub(crate) fn splitter<'a>(bytes: &Part<'a>) -> Option<(Element, Part<'a>)>
    ensures { result ≡ scan.split_at bytes.now }
{
    let (from, rest) = bytes.field()?;
    let (left, rest) = rest.field()?;
    let (right, rest) = rest.field()?;
    let next = rest.end()?;
    Some((Element::Split { from, left, right }, next))
}

// So many pins.
#[tactic(auto, unfolding(crate::specs::Scanning::pins_from))]
fn pins<'a>(
    alloc: Global,
    count: usize,
    bytes: Part<'a>,
) -> Result<Option<(List<u32>, Part<'a>)>, NoMemory>
    ensures { IfOk result (λ read. read ≡ scan.pins_from count [] bytes.entry) }
{
    let mut pins = List::new(alloc);
    let mut rest = bytes;
    while pins.len() < count {
        let Some((pin, more)) = rest.field() else {
            return Ok(None);
        };
        pins.push(pin)?;
        rest = more;
    }
    Ok(Some((pins, rest)))
}

/// A clocked element of a cell, behind the word of its line.
#[tactic(auto, unfolding(crate::specs::Scanning::clocked_at))]
pub(crate) fn clocked<'a>(
    alloc: Global,
    cell: Cell,
    bytes: &Part<'a>,
) -> Result<Option<(Element, Part<'a>)>, NoMemory>
    ensures { IfOk result (λ read. read ≡ scan.clocked_at cell bytes.now) }
{
    let Some((stage, rest)) = bytes.field() else {
        return Ok(None);
    };
    let Some((pins, rest)) = pins(alloc, arity(cell) as usize, rest)? else {
        return Ok(None);
    };
    let Some((out, rest)) = rest.field() else {
        return Ok(None);
    };
    let Some(next) = rest.end() else {
        return Ok(None);
    };
    let element = Element::Clocked {
        cell,
        stage,
        pins,
        out,
    };
    Ok(Some((element, next)))
}

// The first of some words that stands at the front.
#[tactic(auto, unfolding(crate::specs::Scanning::word_from))]
fn first_word<'a>(words: &[Word], bytes: &Part<'a>) -> Option<(Word, Part<'a>)>
    ensures { result ≡ scan.word_from words.now bytes.now }
{
    for word in words {
        if let Some(rest) = bytes.behind(word.text()) {
            return Some((*word, rest));
        }
    }
    None
}

/// The first word of a line behind the header.
pub(crate) fn word<'a>(bytes: &Part<'a>) -> Option<(Word, Part<'a>)>
    ensures { result ≡ scan.word_from scan.words bytes.now }
{
    let words = [
        Word::Clocked(Cell::Dro),
        Word::Clocked(Cell::Not),
        Word::Clocked(Cell::And),
        Word::Clocked(Cell::Or),
        Word::Clocked(Cell::Xor),
        Word::Clocked(Cell::Maj),
        Word::Split,
        Word::Flow,
        Word::Input,
        Word::Output,
        Word::End,
    ];
    first_word(&words, bytes)
}
