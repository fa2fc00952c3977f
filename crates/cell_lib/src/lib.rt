//! The cell library: six clocked cells, each with its pins, its rank and its cost in Josephson junctions.
//!
//! In RSFQ logic each cell waits for its clock: what pulsed on its pins in the window before decides whether it pulses.
//! DRO (destructive read-out) is the cell that only waits: it passes its pin on, one clock later. A splitter is no
//! cell here, since it has no clock and no value of its own.
//!
//! Promised: `arity`, `rank`, `cost`, `apply` and `is_dro` are the tables of `specs/Cell.antt`, for every cell. No call
//! takes memory, and none can fail.
//! Not promised: that a maker's cells cost these junctions. The numbers are this library's own.
//!
//! Read `specs/Cell.antt`. `cell_value` is the one meaning of a cell, over the list of its pins' values: gates, pulses
//! and netlists all cite it. `proofs/Examples.antt` evaluates it at all pins of each cell, and `proofs/CallerLemmas.antt`
//! has what the crates above cite: a cell has 1 to 3 pins, and its value doesn't depend on their order.
#![tactic(auto)]

mod cell;

pub use cell::{Cell, SPLITTER_COST, apply, arity, cost, is_dro, rank};
