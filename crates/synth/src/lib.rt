//! From a BLIF text to a netlist: all layers, one after the other.
//!
//! A text is read, its tables are put in order, the design becomes a graph, each node of the graph chooses its cells, the
//! needed nodes become gates, the gates get their levels and phases, rounds of units over their network give a full flow and the
//! least epochs that need the fewest DROs, and chains of DROs and trees of splitters make the netlist. In: a text and a number
//! of phases. Out: the netlist and the flow, with the numbers of what the netlist is made of and of what it was made from
//! (`Made`), or the cause of the first layer that refuses the text (`SynthFault`).
//!
//! Promised by `synth`: its answer is the composition of the layers' definitions, and a fault tells the definition's cause
//! (`made`): the first faulty line, else what refuses the order of the tables, else too many nodes, too many gates, too many
//! DROs. The netlist means the text (`means`): it is valid, with this many phases and the design's names, and for every list
//! of input rows the value read at each output is the value of the text's tables. It needs the fewest DROs (`fewest`): no balanced
//! epochs of its gates at its phases need fewer than it has, and the flow, which is full, is worth as many. The law
//! `refusals_have_causes` says that the definition refuses no text for want of memory, though its refusals have the faults' type.
//! Only tested, by runs of the program: that memory suffices where it is ample.
//! Not promised: that other gates, or the same at other phases, wouldn't need fewer DROs; and time.
//!
//! Read `specs/Meaning.antt` for `MeansText` and `NeedsFewest`, then `specs/Synth.antt` from `synth_of`; `specs/Clocking.antt` has the chains and
//! `specs/Counts.antt` the numbers. No definition of a layer is said again here. The meaning is put together from the laws and
//! clauses of the layers (`proofs/NetlistMeans.antt`, `proofs/TextMeans.antt`). What is left to show is that the numbers fit:
//! at most `MAX_GATES` gates have few vertices, and no epoch is above their number, so stages and latency are small
//! (`proofs/ClockChains.antt`).
#![tactic(auto)]

mod clocking;
mod counts;
mod fault;
mod laws;
mod made;
mod mapping;
mod names;
mod netlist;
mod reading;
mod synthesis;

pub use fault::SynthFault;
pub use laws::refusals_have_causes;
pub use made::{MAX_GATES, Made};
pub use synthesis::synth;
