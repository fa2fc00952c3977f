//! Shared DRO chains (path balancing).
//!
//! In: gates, their phases, and epochs. Out: a need per pin, a chain length per driver, and a stage per gate.
//! A pin whose user comes later than its weight asks for needs a DRO for each further epoch. The pins of one driver tap
//! one chain: a pin of need 0 takes from the driver, a pin of need k from DRO k. So the chain is as long as the largest
//! need, not the sum, and all chains together are the DRO count of the epochs.
//!
//! Promised: `chains` answers `chains_of`, these needs, lengths and stages with the gates and the latency as they were
//! given, or `TooManyDros` exactly where the DRO count is above `MAX_DROS`, with the count, unless memory fails.
//! `can_chain` tells exactly where it may be called: the netlist has a network, there is an epoch for each gate, and each
//! stage and the latency in ticks fit 32 bits.
//! Only tested, in `trials`: that memory suffices for as many DROs as the limit allows.
//! Not promised: that the epochs are the best, nor, without `HasChains`, that the chains balance anything.
//!
//! Read `specs/Chains.antt` from `chained_of`. `chain_lengths` and `dro_count` are those of the network's epochs. That a
//! need is also the gap in stages over n, rounded up, less 1, is the law `gaps_agree` on phases.
#![tactic(auto)]

mod chain;
mod parts;

pub use chain::{ChainFault, Chained, MAX_DROS, can_chain, chains};
