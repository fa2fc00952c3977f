//! Splitter trees and wires: the netlist of gates with shared chains of DROs.
//!
//! A wire of a chip can be read once. A driver with more targets, the pins and the next DRO of its chain, needs a tree of
//! splitters, each of which makes two wires of one. Drivers are laid out in order, the used inputs and then the gates:
//! each driver's wire is spread over its targets, and so is the wire of each DRO of its chain, the DRO that follows first
//! and then the pins in order. Wires are numbered as they are made, from 0.
//!
//! Promised: `split` answers `elements_of`, that netlist with all its numbers. Its only refusal is `NoMemory`: the numbers
//! of wires always fit. Where the chains keep time (`KeepsTime`) the netlist is valid (`valid`, `layout_is_valid`).
//! `can_split` tells exactly which chains it takes: well-formed gates with fewer than 2 ^ 31 pins, stages that fit 32 bits,
//! and few wires, by a count of DROs, pins and gates (`FewWires`).
//! *Chains that mean a netlist* are what `chains` answers where `HasChains` holds: each gate has a use, there are 1 to 16
//! phases and each gate's is below their number, the epochs are balanced, and the latency is 1 or more, and 1 where there
//! is no pin. They can be split (`chains_can_be_split`) and keep time (`chains_keep_time`), so the netlist is valid
//! (`chains_are_valid`). It has as many DROs as the chain lengths sum up to, the DRO count of the epochs
//! (`dros_are_the_count`), and it unfolds to the gates, phases and epochs that the chains were made for (`unfolds`,
//! `chains_unfold`).
//! Only tested, in `trials` and by runs of the program: that memory suffices where it is ample, up to 224,998 elements.
//! Not promised: that `NoMemory` comes only where memory is short, and how long `split` takes. It doesn't read the lengths
//! of chains, since a chain is as long as the largest need of its pins.
//!
//! Read `specs/Spread.antt` for the tree, `specs/Taps.antt` for who takes from which DRO, and `specs/Elements.antt` from
//! `elements_of` down; `proofs/Examples.antt` evaluates them on small netlists. Central proofs: validity by a frontier, how
//! often each wire waits for a user (`proofs/valid/`, from `Frontier.antt` to `Whole.antt`), unfolding by the same induction
//! with drivers (`proofs/unfolds/Whole.antt`), the count of DROs by the law on driver numbers (`proofs/dros/Count.antt`), and
//! that the wires are no more than their count (`proofs/wires/Count.antt`).
#![tactic(auto)]

mod build;
mod drivers;
mod fits;
mod laws;
mod layout;
mod spread;
mod table;
mod taps;

pub use build::split;
pub use fits::can_split;
pub use laws::{
    chains_are_valid, chains_can_be_split, chains_keep_time, chains_unfold, dros_are_the_chains,
    dros_are_the_count, layout_is_valid,
};
