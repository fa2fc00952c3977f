//! Ripple-carry adders.

ghost use Rattle.std.specs.Prelude.{◌≡◌, ◌++◌, ◌+◌, ◌≤◌, ◌<◌, IfOk, OnOk, codes};
ghost use Rattle.gen_blif.specs.RippleCarry as spec;

use crate::lines::{Signal, push_names, push_signals};
use net_base::NoMemory;
use std::alloc::Global;

/// The bits of an adder at most: its two numbers are inputs, of which a BLIF text may have 4,096.
pub const MAX_BITS: u32 = 2_048;

// The carry out of a bit: the last one is the highest bit of the sum.
fn carry(bits: u32, bit: u32) -> Signal
    requires { bit < MAX_BITS }
    ensures { result ≡ spec.carry bits bit }
{
    let letter = if bit + 1 == bits { b's' } else { b'c' };
    Signal {
        letter,
        number: bit + 1,
    }
}

// The tables of the lowest bit: half an adder.
#[tactic(auto, unfolding(crate::specs::RippleCarry::first_bit))]
fn push_first(out: &mut Vec<u8>, bits: u32) -> Result<(), NoMemory>
    ensures { OnOk result (out.new.items ≡ out.old.items ++ spec.first_bit bits) }
{
    let a = Signal {
        letter: b'a',
        number: 0,
    };
    let b = Signal { letter: b'b', ..a };
    let sum = Signal { letter: b's', ..a };
    push_names(out, &[a, b, sum])?;
    out.extend_from_slice(b"10 1\n01 1\n")?;
    push_names(out, &[a, b, carry(bits, 0)])?;
    out.extend_from_slice(b"11 1\n")
}

// The tables of another bit: a full adder, of three pins that are odd in number for the sum, and two at least for the carry.
#[tactic(auto, unfolding(crate::specs::RippleCarry::next_bit))]
fn push_next(out: &mut Vec<u8>, bits: u32, bit: u32) -> Result<(), NoMemory>
    requires { bit < MAX_BITS }
    ensures { OnOk result (out.new.items ≡ out.old.items ++ spec.next_bit bits bit) }
{
    let a = Signal {
        letter: b'a',
        number: bit,
    };
    let b = Signal { letter: b'b', ..a };
    let c = Signal { letter: b'c', ..a };
    let sum = Signal { letter: b's', ..a };
    push_names(out, &[a, b, c, sum])?;
    out.extend_from_slice(b"100 1\n010 1\n001 1\n111 1\n")?;
    push_names(out, &[a, b, c, carry(bits, bit)])?;
    out.extend_from_slice(b"11- 1\n1-1 1\n-11 1\n")
}

fn push_bits(out: &mut Vec<u8>, bits: u32) -> Result<(), NoMemory>
    requires some { 1 ≤ bits }
    requires few { bits ≤ MAX_BITS }
    ensures { OnOk result (out.new.items ≡ out.old.items ++ spec.bit_texts bits) }
{
    push_first(out, bits)?;
    let mut bit = 1;
    while bit < bits {
        push_next(out, bits, bit)?;
        bit += 1;
    }
    Ok(())
}

#[tactic(auto, unfolding(crate::specs::RippleCarry::header))]
fn push_header(out: &mut Vec<u8>, bits: u32) -> Result<(), NoMemory>
    requires { bits ≤ MAX_BITS }
    ensures { OnOk result (out.new.items ≡ out.old.items ++ spec.header bits) }
{
    out.extend_from_slice(b".model adder\n.inputs")?;
    push_signals(out, b'a', 0, bits)?;
    push_signals(out, b'b', 0, bits)?;
    out.extend_from_slice(b"\n.outputs")?;
    push_signals(out, b's', 0, bits + 1)?;
    out.extend_from_slice(b"\n")
}

/// The text of a design that adds two numbers of 1 to `MAX_BITS` bits, the lowest bit at number 0: the inputs are `a` and
/// `b`, and the outputs their sum, which has one bit more.
#[tactic(auto, unfolding(crate::specs::RippleCarry::adder_text))]
pub fn adder(alloc: Global, bits: u32) -> Result<Vec<u8>, NoMemory>
    requires some { 1 ≤ bits }
    requires few { bits ≤ MAX_BITS }
    ensures text { IfOk result (λ bytes. bytes.items ≡ spec.adder_text bits) }
{
    let mut out = Vec::new(alloc);
    push_header(&mut out, bits)?;
    push_bits(&mut out, bits)?;
    out.extend_from_slice(b".end\n")?;
    Ok(out)
}
