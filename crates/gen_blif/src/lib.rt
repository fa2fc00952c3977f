//! Generated designs: BLIF texts made from a few numbers, for tests and for figures.
//!
//! In: a seed and a number of tables, or a number of bits. Out: the whole text of a design.
//! `gen_` makes tables of two pins, each a conjunction, a NOR, an exclusive or, or one pin without the other; the pins are
//! drawn from the 64 signals before the table by the words of SplitMix64, so the design is deep and its paths are uneven,
//! which is what costs DROs. `adder` makes a ripple-carry adder, whose sums can be worked by hand.
//!
//! Promised: each answers the text of its definition (`text`), or `NoMemory`, the only refusal.
//! Not promised: anything of what the designs are good for; that the words are random.
//!
//! Read `specs/Lines.antt` for lines of names, `specs/Random.antt` from `signal_name` to `gen_text`, and `specs/RippleCarry.antt`.
//! `proofs/Examples.antt` has small texts whole. The proofs are loops: the text so far, then the lines that are left, is the
//! whole.
//!
//! Source: SplitMix64 of Steele, Lea and Flood (2014), by `rand_xoshiro`. Which signals and rows its words choose is this
//! project's own.
#![tactic(auto)]

mod lines;
mod random;
mod ripple_carry;

pub use net_base::NoMemory;
pub use random::{MAX_TABLES, gen_};
pub use ripple_carry::{MAX_BITS, adder};
