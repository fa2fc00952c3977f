//! Designs of tables whose pins and rows are drawn at random.

ghost use Rattle.std.specs.Prelude.{◌≡◌, ◌++◌, ◌+◌, ◌≤◌, ◌<◌, ◌^◌, IfOk, OnOk, codes};
ghost use Rattle.rand_xoshiro.specs.SplitMix64.{mix_u64};
ghost use Rattle.gen_blif.specs.Random as spec;

use crate::lines::{Signal, push_names, push_signals};
use net_base::NoMemory;
use rand_core::SeedableRng;
use rand_core::utils::NextWord;
use rand_xoshiro::SplitMix64;
use std::alloc::Global;

/// The inputs of a generated design, and its outputs at most.
const INPUTS: u32 = 16;

/// The signals before a table from which a pin is drawn.
const REACH: u64 = 64;

/// The tables of a generated design at most, as many as a BLIF text may have.
pub const MAX_TABLES: u32 = 65_536;

// The signal of a number: the inputs come first, then the targets of the tables.
fn signal(number: u32) -> Signal
    ensures { result ≡ spec.signal number }
{
    if number < INPUTS {
        Signal {
            letter: b'i',
            number,
        }
    } else {
        Signal {
            letter: b't',
            number: number - INPUTS,
        }
    }
}

// A pin of a table: one of the signals before the table's target, as a number chooses.
fn pin(table: u32, choice: u64) -> Signal
    requires { table < MAX_TABLES }
    ensures { result ≡ spec.pin table choice }
{
    let before = u64::from(INPUTS + table);
    let back = choice % before.min(REACH);
    signal((before - 1 - back) as u32)
}

// The rows of a table, as a number below 4 chooses.
fn rows(choice: u64) -> &'static [u8]
    ensures { result.now ≡ spec.rows choice }
{
    match choice {
        0 => b"11 1\n",
        1 => b"00 0\n",
        2 => b"01 1\n10 1\n",
        _ => b"10 1\n",
    }
}

// A table, as a word chooses.
#[tactic(auto, unfolding(crate::specs::Random::table_text))]
fn push_table(out: &mut Vec<u8>, table: u32, word: u64) -> Result<(), NoMemory>
    requires { table < MAX_TABLES }
    ensures { OnOk result (out.new.items ≡ out.old.items ++ spec.table_text table word) }
{
    let first = pin(table, word % (1 << 32) / 4);
    let second = pin(table, word / (1 << 32));
    push_names(out, &[first, second, signal(INPUTS + table)])?;
    out.extend_from_slice(rows(word % 4))
}

// The tables, each by the next word.
fn push_tables(out: &mut Vec<u8>, seed: u64, tables: u32) -> Result<(), NoMemory>
    requires { tables ≤ MAX_TABLES }
    ensures { OnOk result (out.new.items ≡ out.old.items ++ spec.table_texts tables 0 seed) }
{
    let mut words = SplitMix64::seed_from_u64(seed);
    let mut table = 0;
    while table < tables {
        push_table(out, table, words.next_word())?;
        table += 1;
    }
    Ok(())
}

// The inputs, so many of them.
#[tactic(auto, unfolding(crate::specs::Random::input_line))]
fn push_inputs(out: &mut Vec<u8>, inputs: u32) -> Result<(), NoMemory>
    requires { inputs ≤ INPUTS }
    ensures { OnOk result (out.new.items ≡ out.old.items ++ spec.input_line inputs) }
{
    out.extend_from_slice(b".inputs")?;
    push_signals(out, b'i', 0, inputs)?;
    out.extend_from_slice(b"\n")
}

// The outputs: the targets of the last tables, 16 at most.
#[tactic(auto, unfolding(crate::specs::Random::output_line))]
fn push_outputs(out: &mut Vec<u8>, tables: u32) -> Result<(), NoMemory>
    requires { tables ≤ MAX_TABLES }
    ensures { OnOk result (out.new.items ≡ out.old.items ++ spec.output_line tables) }
{
    let count = tables.min(INPUTS);
    out.extend_from_slice(b".outputs")?;
    push_signals(out, b't', tables - count, count)?;
    out.extend_from_slice(b"\n")
}

/// The text of a design of 1 to `MAX_TABLES` tables, whose pins and rows the words of SplitMix64 from this seed on choose.
/// It has 16 inputs, and the targets of the last tables are its outputs, 16 of them where there are as many.
#[tactic(auto, unfolding(crate::specs::Random::gen_text))]
pub fn gen_(alloc: Global, seed: u64, tables: u32) -> Result<Vec<u8>, NoMemory>
    requires some { 1 ≤ tables }
    requires few { tables ≤ MAX_TABLES }
    ensures text { IfOk result (λ bytes. bytes.items ≡ spec.gen_text seed tables) }
{
    let mut out = Vec::new(alloc);
    out.extend_from_slice(b".model gen\n")?;
    push_inputs(&mut out, INPUTS)?;
    push_outputs(&mut out, tables)?;
    push_tables(&mut out, seed, tables)?;
    out.extend_from_slice(b".end\n")?;
    Ok(out)
}
