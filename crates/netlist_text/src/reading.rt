//! Reading a netlist text.

ghost use Rattle.std.specs.Prelude.{◌≡◌, ◌≤◌, ◌++◌, Ok, length, drop, IfOk, IfErr};
ghost use Rattle.net_base.specs.Answers.{Gives};
ghost use Rattle.pulse_net.specs.Formed.{IsFormed};
ghost use Rattle.netlist_text.specs.Faults.{IsRead, IsFaultOf, IsFaultOfPrefix};
ghost use Rattle.netlist_text.specs.Lines.{Ended};
ghost use Rattle.netlist_text.specs.Parsing.{parsed, parsed_prefix, told};
ghost use Rattle.netlist_text.specs.Read.{line_count, said};
ghost use Rattle.netlist_text.specs.Scanning.{unread as fault_at};
ghost use Rattle.netlist_text.specs.Spelling.{format_of as needed_format, spelling_of};

use crate::fault::{TextFault, TextKind, TextReadFault};
use crate::line::{model, number_line, word};
use crate::part::Part;
use crate::reader::Reader;
use crate::word::Word;
use crate::writing::format_of;
use flow_net::Flow;
use net_base::Name;
use pulse_net::{MAX_PHASES, PulseNet};
use std::alloc::Global;

/// The bytes of a text at most: 2^28, so that the number of each line fits 32 bits.
pub const MAX_BYTES: usize = 268_435_456;

/// What stands at the front of a text, up to and with the end line.
#[derive(Debug, Drop)]
pub struct Prefix {
    /// The netlist.
    pub net: PulseNet,
    /// The flow, without pins where there are no flow lines.
    pub flow: Flow,
    /// How many bytes it takes.
    pub bytes: usize,
    /// How many lines it takes.
    pub lines: u32,
}

// A text up to and with its end line, and what follows.
#[derive(Drop)]
struct Whole<'a> {
    reader: Reader,
    lines: u32,
    rest: Part<'a>,
}

// The fault where no line fits.
fn unread(rest: &Part, line: u32) -> TextReadFault
    ensures { result ≡ fault_at rest.now line }
{
    let kind = if rest.is_empty() {
        TextKind::NoEnd
    } else {
        TextKind::BadLine
    };
    TextReadFault::Text(TextFault { line, kind })
}

// The four lines of the header.
fn read_header<'a>(alloc: Global, text: &Part<'a>) -> Result<(Reader, Part<'a>), TextReadFault>
    ensures read { IfOk result (λ read. IsRead text.now 4 (said read.0) read.1) }
    ensures fault { IfErr result (λ fault. IsFaultOfPrefix text.now fault) }
{
    let Some((format, titled)) = number_line(text, b"rsfq", 1, 2) else {
        return Err(unread(text, 1));
    };
    let Some((name, clocked)) = model(&titled) else {
        return Err(unread(&titled, 2));
    };
    let Some((phases, timed)) = number_line(&clocked, b"phases", 1, MAX_PHASES) else {
        return Err(unread(&clocked, 3));
    };
    let Some((latency, body)) = number_line(&timed, b"latency", 1, u32::MAX) else {
        return Err(unread(&timed, 4));
    };
    let name = Name::of(alloc, name.bytes())?;
    Ok((Reader::new(alloc, format, name, phases, latency), body))
}

// All lines up to the end.
fn read_lines<'a>(alloc: Global, text: &Part<'a>) -> Result<Whole<'a>, TextReadFault>
    requires { length text.now ≤ MAX_BYTES }
    ensures read { IfOk result (λ whole. IsRead text.now whole.lines (Ended whole.reader.format whole.reader.net whole.reader.flow) whole.rest) }
    ensures fault { IfErr result (λ fault. IsFaultOfPrefix text.now fault) }
{
    let (mut reader, mut rest) = read_header(alloc, text)?;
    let mut lines = 4;
    loop {
        let Some((word, behind)) = word(&rest) else {
            return Err(unread(&rest, lines + 1));
        };
        let next = match word {
            Word::End => {
                let Some(rest) = behind.end() else {
                    return Err(unread(&rest, lines + 1));
                };
                return Ok(Whole {
                    reader,
                    lines: lines + 1,
                    rest,
                });
            }
            _ => reader.read_line(alloc, word, &behind)?,
        };
        let Some(next) = next else {
            return Err(unread(&rest, lines + 1));
        };
        rest = next;
        lines += 1;
    }
}

// The same, in the format that the elements need.
fn read_whole<'a>(alloc: Global, text: &Part<'a>) -> Result<Whole<'a>, TextReadFault>
    requires { length text.now ≤ MAX_BYTES }
    ensures read { IfOk result (λ whole. IsRead text.now whole.lines (Ended whole.reader.format whole.reader.net whole.reader.flow) whole.rest) }
    ensures format { IfOk result (λ whole. whole.reader.format ≡ needed_format whole.reader.net.elements) }
    ensures fault { IfErr result (λ fault. IsFaultOfPrefix text.now fault) }
{
    let whole = read_lines(alloc, text)?;
    if whole.reader.format != format_of(whole.reader.net.elements.as_slice()) {
        return Err(TextReadFault::Text(TextFault {
            line: 1,
            kind: TextKind::BadLine,
        }));
    }
    Ok(whole)
}

/// The netlist and the flow at the front of a text, up to and with the end line, or the first fault there.
pub fn read_prefix(alloc: Global, bytes: &[u8]) -> Result<Prefix, TextReadFault>
    requires { length bytes.now ≤ MAX_BYTES }
    ensures spelled { IfOk result (λ prefix. bytes.now ≡ spelling_of prefix.net prefix.flow ++ drop prefix.bytes bytes.now) }
    ensures formed { IfOk result (λ prefix. IsFormed prefix.net) }
    ensures bytes { IfOk result (λ prefix. prefix.bytes ≡ length (spelling_of prefix.net prefix.flow)) }
    ensures lines { IfOk result (λ prefix. prefix.lines ≡ line_count prefix.net prefix.flow) }
    ensures few { IfOk result (λ prefix. prefix.lines ≤ prefix.bytes) }
    ensures fault { IfErr result (λ fault. IsFaultOfPrefix bytes.now fault) }
    ensures answer { Gives Ok told result (parsed_prefix bytes.now) }
{
    let whole = read_whole(alloc, &Part::new(bytes))?;
    let Whole {
        reader,
        lines,
        rest,
    } = whole;
    Ok(Prefix {
        net: reader.net,
        flow: reader.flow,
        bytes: bytes.len() - rest.len(),
        lines,
    })
}

/// The netlist and the flow of a text, or its first fault.
pub fn read(alloc: Global, bytes: &[u8]) -> Result<(PulseNet, Flow), TextReadFault>
    requires { length bytes.now ≤ MAX_BYTES }
    ensures spelled { IfOk result (λ pair. bytes.now ≡ spelling_of pair.0 pair.1) }
    ensures formed { IfOk result (λ pair. IsFormed pair.0) }
    ensures few { IfOk result (λ pair. line_count pair.0 pair.1 ≤ length bytes.now) }
    ensures fault { IfErr result (λ fault. IsFaultOf bytes.now fault) }
    ensures answer { Gives Ok told result (parsed bytes.now) }
{
    let whole = read_whole(alloc, &Part::new(bytes))?;
    if !whole.rest.is_empty() {
        return Err(TextReadFault::Text(TextFault {
            line: whole.lines + 1,
            kind: TextKind::AfterEnd,
        }));
    }
    let Whole { reader, .. } = whole;
    Ok((reader.net, reader.flow))
}
