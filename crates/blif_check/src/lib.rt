//! The order of a design's tables, or what refuses it.
//!
//! A regular design goes in, and comes out with the places of its tables by level and place, so that each table stands
//! behind those that drive its pins. Where there is no such order, the first cause comes out: a table that drives what an
//! input or an earlier table drives already, else a signal that is used and not driven, else a table on a cycle.
//!
//! Promised by `order`: its answer is `table_order` of the design, an order or a refusal, unless memory fails (`ordered`);
//! the design is handed on as it was (`design`). What an order means, the laws of `blif_model` say.
//! Not promised: how long it takes. It takes time in proportion to pins and tables, since the ranks and the order that a
//! search by depth leaves are right; no proof says so, so both are tested, and a slow exact way stands behind each.
//!
//! Read `specs/Check.antt` for what a fault tells; the definitions that it cites are those of `blif_model`. Each step has
//! its module: `drivers` marks what is driven; `lookup` finds the table that drives a signal; `ranks` searches by depth;
//! `cycles` names the first table on a cycle; `levels` and `by_level` make the order; `check` puts them together.
//! The ideas of the proofs: ranks that never fall along a walk rule cycles out (`proofs/RanksRise.antt`); what was reached,
//! with its pins, is all that walks lead to (`proofs/Reached.antt`); levels that fit those of the pins are the only ones
//! where there is no cycle (`proofs/LevelsFound.antt`).
//!
//! Source of the search: D. J. Pearce, A space-efficient algorithm for finding strongly connected components (2016).
#![tactic(auto)]

mod by_level;
mod check;
mod cycles;
mod drivers;
mod fault;
mod levels;
mod lookup;
mod ranks;

pub use check::order;
pub use fault::OrderFault;
