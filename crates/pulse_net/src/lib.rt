//! Netlists of pulse elements: when they are valid, the pulses that run on them, and the gates that they unfold to.
//!
//! A netlist has inputs, elements in order and outputs, joined by wires that go by number. An element is a clocked cell
//! at a stage, the tick of its first clock, or a splitter, which has no clock. With n phases an epoch has n ticks, and a
//! cell has its clock at the ticks that are its stage modulo n. It then looks at what pulsed on its pins in the n ticks
//! before. So a wire can be read 1 to n ticks after it was made, and each wire can be read once: these are the rules of
//! a valid netlist.
//!
//! Promised: where `valid` answers `Ok` the netlist is valid (`valid`), and where it names a place and a cause, that rule
//! is broken, and none before (`broken`); its only other answer is `NoMemory`. `unbroken_is_wired` says the rules once
//! more, of the netlist as it stands, and `least_unused_is_named` which wire is named at the close.
//! `pulses_are_row_values` and `reads_are_row_values` say that in a valid netlist what pulses, and what is read at the
//! outputs, is what the cells compute of each row of inputs, for every number of phases and every list of rows.
//! `unfold` answers the gates of a valid netlist, which are its clocked cells that are no DROs, each pin traced back
//! through DROs and splitters (`value`); they are a gate netlist (`net`), each gate's wire pulses as the gate is
//! valued, and each output is read so (`pulses`, and the law `pulses_are_gate_values`). `unfolds_its_dros` says that it
//! counts the DROs among the elements. `stages_follow_depths` says how far behind its driver a wire can stand: n ticks
//! for each DRO that it passed, for n phases; and `dros_follow_depths` says that its driver has k DROs at least where the
//! wire passed k of them.
//! Of every valid netlist `unfold` promises what its DROs are measured by: each gate has a use (`used`) and a phase
//! (`phased`), the epochs are balanced (`balanced`), there are at least as many DROs as these epochs cost (`at_least`),
//! and the latency is 1 where nothing is used (`unused`). The same stand as laws. So where some epochs need the fewest
//! DROs, no valid netlist with the same gates and phases has fewer (`no_netlist_has_fewer_dros`), however its DROs and
//! splitters are placed.
//! Only `valid` and `unfold` take memory.
//! Only tested, in `trials`: that memory suffices where it is ample, up to 224,998 elements.
//! Not promised: that a chip behaves so. There are no picoseconds, bias currents or clock skew in this model.
//!
//! Read `specs/Formed.antt` and `specs/Validity.antt` for the rules in order, `specs/Wires.antt` for the fold that says
//! what each wire carries, `specs/Pulses.antt` for signals and readings, `specs/RowValues.antt` for values without ticks,
//! and `specs/Laws.antt` for what is proved; `specs/Unfolding.antt` for the gates, `specs/GatePulses.antt` for their law,
//! `specs/Dros.antt` for the count of DROs, `specs/Depths.antt` for depths and theirs, and `specs/Balance.antt` for the
//! network of the gates, with its epochs and DROs. `proofs/Examples.antt`, `proofs/UnfoldExamples.antt` and
//! `proofs/MajorityExamples.antt` evaluate the definitions on netlists made by hand.
//! Each law is proved in the file of `proofs/` that is named for it, what is read at outputs beside what pulses, and the
//! laws of `specs/Balance.antt` in `proofs/EachGateIsUsed.antt` and `proofs/BalancedUnfolding.antt`;
//! `proofs/UnfoldedNetwork.antt` has them for other crates, with the size at which the gates have a network. Central
//! proofs: the window lemma (`proofs/PulsesAreRowValues/WindowLemma.antt`), and the inductions over elements, for pulses
//! against values (`proofs/PulsesAreRowValues/PulseInduction.antt`), for values against gates
//! (`proofs/PulsesAreGateValues/UnfoldingInduction.antt`), for stages and DROs against depths
//! (`proofs/StagesAndDrosFollowDepths.antt`), for what elements add to the gates (`proofs/UnfoldedElements.antt`), and,
//! from the last element to the first, for their uses (`proofs/EachGateIsUsed.antt`); and the sum of DROs over drivers
//! (`proofs/BalancedUnfolding.antt`).
#![tactic(auto)]

mod fault;
mod formed;
mod laws;
mod net;
mod trace;
mod unfolding;
mod validity;
mod wires;

pub use fault::{Invalid, Place, ValidFault, Wrong};
pub use flow_net::MAX_PHASES;
pub use formed::is_formed;
pub use laws::{
    dros_are_at_least_the_count, dros_follow_depths, least_unused_is_named,
    no_netlist_has_fewer_dros, pulses_are_gate_values, pulses_are_row_values, reads_are_row_values,
    stages_follow_depths, unbroken_is_wired, unfolded_epochs_are_balanced,
    unfolded_gates_are_phased, unfolded_gates_are_used, unfolds_its_dros,
    unused_netlists_have_latency_one,
};
pub use net::{Element, Names, Outlet, PulseNet};
pub use unfolding::{Unfolded, unfold};
pub use validity::valid;
