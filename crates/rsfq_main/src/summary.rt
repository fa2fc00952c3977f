//! The writer of a netlist's summary.

ghost use Rattle.std.specs.Prelude.{◌≡◌, ◌++◌, length, IfOk, OnOk, codes};
ghost use Rattle.netlist_text.specs.Spelling.{spelling_of as text_of};
ghost use Rattle.rsfq_main.specs.Summary as text;

use itoa::Buffer;
use net_base::{List, NoMemory};
use netlist_text::write;
use std::alloc::Global;
use synth::Made;

fn push_count(out: &mut Vec<u8>, word: &[u8], number: u64) -> Result<(), NoMemory>
    ensures { OnOk result (out.new.items ≡ out.old.items ++ text.count_line word.now number) }
{
    out.extend_from_slice(word)?;
    out.extend_from_slice(b" ")?;
    out.extend_from_slice(Buffer::new().format(number).as_bytes())?;
    out.extend_from_slice(b"\n")
}

/// A line of a word and a number.
pub fn count_line(alloc: Global, word: &[u8], number: u64) -> Result<List<u8>, NoMemory>
    ensures { IfOk result (λ bytes. bytes ≡ text.count_line word.now number) }
{
    let mut out = Vec::new(alloc);
    push_count(&mut out, word, number)?;
    Ok(List::from_vec(out))
}

// What the netlist was made from, and how many clocked elements of each kind and splitters it has.
#[tactic(auto, unfolding(crate::specs::Summary::part_lines))]
fn push_parts(out: &mut Vec<u8>, made: &Made) -> Result<(), NoMemory>
    ensures { OnOk result (out.new.items ≡ out.old.items ++ text.part_lines made.now) }
{
    push_count(out, b"tables", u64::from(made.tables))?;
    push_count(out, b"nodes", u64::from(made.nodes))?;
    push_count(out, b"gates", u64::from(made.gates))?;
    push_count(out, b"dros", made.dros)?;
    push_count(out, b"splits", made.splits)
}

// Its latency in epochs, its junctions, and the bytes of its text.
#[tactic(auto, unfolding(crate::specs::Summary::size_lines))]
fn push_sizes(out: &mut Vec<u8>, made: &Made, bytes: usize) -> Result<(), NoMemory>
    requires { bytes ≡ length (text_of made.now.net made.now.flow) }
    ensures { OnOk result (out.new.items ≡ out.old.items ++ text.size_lines made.now) }
{
    push_count(out, b"latency", u64::from(made.net.latency))?;
    push_count(out, b"junctions", made.junctions)?;
    push_count(out, b"bytes", bytes as u64)
}

/// The summary of a netlist, eight lines. Its text is spelled for its length, and given back.
pub fn summary_of(alloc: Global, made: &Made) -> Result<List<u8>, NoMemory>
    ensures { IfOk result (λ bytes. bytes ≡ text.summary_of made.now) }
{
    let bytes = write(alloc, &made.net, &made.flow)?.len();
    let mut out = Vec::new(alloc);
    push_parts(&mut out, made)?;
    push_sizes(&mut out, made, bytes)?;
    Ok(List::from_vec(out))
}
