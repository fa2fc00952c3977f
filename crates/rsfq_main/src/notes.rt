//! The notes of texts that have no netlist.
//!
//! Each is a line, made whole before anything is written, by the definition of its name in `specs/Notes.antt`.

ghost use Rattle.std.specs.Prelude.{◌≡◌, ◌++◌, Some, IfOk, OnOk, codes, decimal};
ghost use Rattle.rsfq_main.specs.Notes as spec;

use blif_read::{BlifFault, BlifKind};
use itoa::Buffer;
use net_base::{List, Name, NoMemory};
use std::alloc::Global;
use synth::SynthFault;

// What is wrong with a line.
fn kind_words(kind: &BlifKind) -> &'static [u8]
    ensures { result.now ≡ spec.kind_words kind.now }
{
    match kind {
        BlifKind::BadByte => b"bad byte",
        BlifKind::UnknownWord => b"unknown word",
        BlifKind::Unsupported(_) => b"unsupported",
        BlifKind::RowOutsideTable => b"row outside a table",
        BlifKind::RowShape => b"row shape",
        BlifKind::RowChar => b"row character",
        BlifKind::MixedOutput => b"mixed output",
        BlifKind::NoTarget => b"table without target",
        BlifKind::SecondModel => b"second model",
        BlifKind::AfterEnd => b"text after end",
        BlifKind::DuplicateInput => b"duplicate input",
        BlifKind::DuplicateOutput => b"duplicate output",
        BlifKind::NameTooLong => b"name too long",
        BlifKind::TooManyInputs => b"too many inputs",
        BlifKind::TooManyOutputs => b"too many outputs",
        BlifKind::TooManyTables => b"too many tables",
        BlifKind::TooManyPins => b"too many pins",
    }
}

// What stands behind the words.
fn push_detail(out: &mut Vec<u8>, kind: &BlifKind) -> Result<(), NoMemory>
    ensures { OnOk result (out.new.items ≡ out.old.items ++ spec.kind_detail kind.now) }
{
    if let BlifKind::Unsupported(word) = kind {
        out.extend_from_slice(b" ")?;
        out.extend_from_slice(word.bytes())?;
    }
    Ok(())
}

// The number of a line and what is wrong with it.
fn line_note(alloc: Global, fault: &BlifFault) -> Result<Vec<u8>, NoMemory>
    ensures { IfOk result (λ note. note.items ≡ spec.line_note fault.now) }
{
    let mut out = Vec::new(alloc);
    out.extend_from_slice(b"line ")?;
    out.extend_from_slice(Buffer::new().format(fault.line).as_bytes())?;
    out.extend_from_slice(b": ")?;
    out.extend_from_slice(kind_words(&fault.kind))?;
    push_detail(&mut out, &fault.kind)?;
    out.extend_from_slice(b"\n")?;
    Ok(out)
}

// Some words, and the bytes behind them.
fn note_with(alloc: Global, words: &[u8], last: &[u8]) -> Result<Vec<u8>, NoMemory>
    ensures { IfOk result (λ note. note.items ≡ words.now ++ last.now ++ codes "\n") }
{
    let mut out = Vec::new(alloc);
    out.extend_from_slice(words)?;
    out.extend_from_slice(last)?;
    out.extend_from_slice(b"\n")?;
    Ok(out)
}

// Some words and a name.
fn name_note(alloc: Global, words: &[u8], name: &Name) -> Result<Vec<u8>, NoMemory>
    ensures { IfOk result (λ note. note.items ≡ words.now ++ name.now ++ codes "\n") }
{
    note_with(alloc, words, name.bytes())
}

// Some words and a number.
fn number_note(alloc: Global, words: &[u8], number: u64) -> Result<Vec<u8>, NoMemory>
    ensures { IfOk result (λ note. note.items ≡ words.now ++ decimal number ++ codes "\n") }
{
    note_with(alloc, words, Buffer::new().format(number).as_bytes())
}

/// The note of a text that has no netlist. Want of memory, which refuses no text, has none: it gives `NoMemory` again.
pub fn note_of(alloc: Global, fault: &SynthFault) -> Result<List<u8>, NoMemory>
    ensures { IfOk result (λ note. spec.note_of fault.now ≡ Some note) }
{
    let note = match fault {
        SynthFault::Blif(fault) => line_note(alloc, fault)?,
        SynthFault::DuplicateDriver(name) => name_note(alloc, b"duplicate driver ", name)?,
        SynthFault::Undriven(name) => name_note(alloc, b"undriven ", name)?,
        SynthFault::Cycle(line) => number_note(alloc, b"cycle at line ", u64::from(*line))?,
        SynthFault::TooManyNodes => note_with(alloc, b"too many nodes", b"")?,
        SynthFault::TooManyGates => note_with(alloc, b"too many gates", b"")?,
        SynthFault::TooManyDros(count) => number_note(alloc, b"too many dros ", *count)?,
        SynthFault::NoMemory => return Err(NoMemory),
    };
    Ok(List::from_vec(note))
}
