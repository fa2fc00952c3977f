//! The notes of netlist texts and their rows, of netlists that aren't valid, and of an answer that is no.
//!
//! Each is a line, made whole before anything is written, by the definition of its name in `specs/NetlistNotes.antt`.

ghost use Rattle.std.specs.Prelude.{◌≡◌, ◌++◌, IfOk, OnOk, codes};
ghost use Rattle.rsfq_main.specs.NetlistNotes as spec;

use crate::objection::Objection;
use flow_cert::Cause;
use itoa::Buffer;
use net_base::{List, NoMemory};
use netlist_text::{TextFault, TextKind};
use pulse_net::{Invalid, Place, Wrong};
use pulse_sim::{RowFault, RowKind};
use std::alloc::Global;

// The number of a line, and what is wrong with it.
fn numbered(alloc: Global, line: u32, words: &[u8]) -> Result<List<u8>, NoMemory>
    ensures { IfOk result (λ note. note ≡ spec.numbered line words.now) }
{
    let mut out = Vec::new(alloc);
    out.extend_from_slice(b"line ")?;
    out.extend_from_slice(Buffer::new().format(line).as_bytes())?;
    out.extend_from_slice(b": ")?;
    out.extend_from_slice(words)?;
    out.extend_from_slice(b"\n")?;
    Ok(List::from_vec(out))
}

/// The note of a text that is no netlist text.
pub fn text_note(alloc: Global, fault: &TextFault) -> Result<List<u8>, NoMemory>
    ensures { IfOk result (λ note. note ≡ spec.text_note fault.now) }
{
    let words = match fault.kind {
        TextKind::BadLine => b"bad line".as_slice(),
        TextKind::NoEnd => b"no end".as_slice(),
        TextKind::AfterEnd => b"text after end".as_slice(),
    };
    numbered(alloc, fault.line, words)
}

/// The note of rows of which one is none.
pub fn row_note(alloc: Global, fault: &RowFault) -> Result<List<u8>, NoMemory>
    ensures { IfOk result (λ note. note ≡ spec.row_note fault.now) }
{
    let words = match fault.kind {
        RowKind::RowShape => b"row shape".as_slice(),
        RowKind::RowChar => b"row character".as_slice(),
        RowKind::TooManyRows => b"too many rows".as_slice(),
    };
    numbered(alloc, fault.line, words)
}

// A word and a number.
fn push_counted(out: &mut Vec<u8>, word: &[u8], number: u64) -> Result<(), NoMemory>
    ensures { OnOk result (out.new.items ≡ out.old.items ++ spec.counted word.now number) }
{
    out.extend_from_slice(word)?;
    out.extend_from_slice(Buffer::new().format(number).as_bytes())
}

// A word and a signed number.
fn push_measured(out: &mut Vec<u8>, word: &[u8], number: i64) -> Result<(), NoMemory>
    ensures { OnOk result (out.new.items ≡ out.old.items ++ spec.measured word.now number) }
{
    out.extend_from_slice(word)?;
    out.extend_from_slice(Buffer::new().format(number).as_bytes())
}

// A word, a number, and a blank.
fn push_numbered_place(out: &mut Vec<u8>, word: &[u8], place: u32) -> Result<(), NoMemory>
    ensures { OnOk result (out.new.items ≡ out.old.items ++ spec.counted word.now place ++ codes " ") }
{
    push_counted(out, word, u64::from(place))?;
    out.extend_from_slice(b" ")
}

// Where a netlist breaks a rule.
fn push_place(out: &mut Vec<u8>, place: &Place) -> Result<(), NoMemory>
    ensures { OnOk result (out.new.items ≡ out.old.items ++ spec.place_words place.now) }
{
    match place {
        Place::Input(place) => push_numbered_place(out, b"input ", *place),
        Place::Element(place) => push_numbered_place(out, b"element ", *place),
        Place::Output(place) => push_numbered_place(out, b"output ", *place),
        Place::Latency | Place::Close => Ok(()),
    }
}

// A word, a number, and what is said of it.
fn push_said(out: &mut Vec<u8>, word: &[u8], number: u32, said: &[u8]) -> Result<(), NoMemory>
    ensures { OnOk result (out.new.items ≡ out.old.items ++ spec.counted word.now number ++ said.now) }
{
    push_counted(out, word, u64::from(number))?;
    out.extend_from_slice(said)
}

// Which rule it breaks there.
fn push_wrong(out: &mut Vec<u8>, cause: &Wrong) -> Result<(), NoMemory>
    ensures { OnOk result (out.new.items ≡ out.old.items ++ spec.wrong_words cause.now) }
{
    match cause {
        Wrong::Unmade(wire) => push_said(out, b"wire ", *wire, b" unmade"),
        Wrong::MadeTwice(wire) => push_said(out, b"wire ", *wire, b" made twice"),
        Wrong::UsedTwice(wire) => push_said(out, b"wire ", *wire, b" used twice"),
        Wrong::Gap(wire, gap) => {
            push_counted(out, b"wire ", u64::from(*wire))?;
            push_measured(out, b" gap ", *gap)
        }
        Wrong::Unused(wire) => push_said(out, b"wire ", *wire, b" unused"),
        Wrong::NoWires(latency) => push_said(out, b"latency ", *latency, b" without wires"),
    }
}

// The first broken rule.
fn push_invalid(out: &mut Vec<u8>, invalid: &Invalid) -> Result<(), NoMemory>
    ensures { OnOk result (out.new.items ≡ out.old.items ++ spec.invalid_words invalid.now) }
{
    push_place(out, &invalid.place)?;
    push_wrong(out, &invalid.cause)
}

/// The note of a netlist that isn't valid.
pub fn invalid_note(alloc: Global, invalid: &Invalid) -> Result<List<u8>, NoMemory>
    ensures { IfOk result (λ note. note ≡ spec.invalid_note invalid.now) }
{
    let mut out = Vec::new(alloc);
    out.extend_from_slice(b"invalid: ")?;
    push_invalid(&mut out, invalid)?;
    out.extend_from_slice(b"\n")?;
    Ok(List::from_vec(out))
}

// Why a flow shows nothing of epochs.
fn push_cause(out: &mut Vec<u8>, cause: &Cause) -> Result<(), NoMemory>
    ensures { OnOk result (out.new.items ≡ out.old.items ++ spec.cause_words cause.now) }
{
    match cause {
        Cause::Length { lines, pins } => {
            push_counted(out, b"flow lines ", *lines)?;
            push_counted(out, b" pins ", *pins)
        }
        Cause::Unbalanced { pin, gap, weight } => {
            push_counted(out, b"pin ", u64::from(*pin))?;
            push_measured(out, b" gap ", *gap)?;
            push_counted(out, b" weight ", u64::from(*weight))
        }
        Cause::Balance { vertex, has, wants } => {
            push_counted(out, b"vertex ", u64::from(*vertex))?;
            push_measured(out, b" has ", *has)?;
            push_measured(out, b" wants ", *wants)
        }
        Cause::Value { value, count } => {
            push_measured(out, b"value ", *value)?;
            push_measured(out, b" count ", *count)
        }
    }
}

// Why the answer is no.
fn push_objection(out: &mut Vec<u8>, objection: &Objection) -> Result<(), NoMemory>
    ensures { OnOk result (out.new.items ≡ out.old.items ++ spec.objection_words objection.now) }
{
    match objection {
        Objection::Breaks(invalid) => push_invalid(out, invalid),
        Objection::Shows(cause) => push_cause(out, cause),
        Objection::Differs { dros, count } => {
            push_counted(out, b"dros ", *dros)?;
            push_counted(out, b" count ", *count)
        }
    }
}

/// The note of an answer that is no.
pub fn objection_note(alloc: Global, objection: &Objection) -> Result<List<u8>, NoMemory>
    ensures { IfOk result (λ note. note ≡ spec.objection_note objection.now) }
{
    let mut out = Vec::new(alloc);
    out.extend_from_slice(b"no: ")?;
    push_objection(&mut out, objection)?;
    out.extend_from_slice(b"\n")?;
    Ok(List::from_vec(out))
}
