//! Gate netlists: distinct gates in order, each behind its drivers.
//!
//! A gate is a clocked cell with a driver for each pin, an input or an earlier gate. The netlist has no DRO: when a
//! value waits is settled by the layers above, so two gates with the same cell and the same drivers are one.
//!
//! Promised: `gate` answers the first gate equal to the one asked for, or adds one at the end (`place`, `first`, `ok`),
//! and all else stays; `output` adds at the end of the outputs (`ok`); after `NoMemory` the netlist is as it was
//! (`err`); a well-formed netlist stays one (`net`). `Gates::push` admits equal gates, since a netlist that was read
//! may have them; `find` then answers the first. `ascending` puts pins in the order of their drivers, however many there
//! are, so that gates which differ in it alone become one; a cell's value is the same in any order of its pins.
//! `is_each_gate_used` tells whether each gate drives a pin or an output.
//! The laws are `gates_follow_drivers`, `later_gates_keep_values`, `added_gates_keep_nets` and
//! `ascending_keeps_drivers`.
//! Only tested, in `trials`: that memory suffices where it is ample.
//! Not promised: that every gate has a use, that `gate` puts pins in order, and how fast the index finds a gate
//! (expected constant time).
//!
//! Read `specs/Net.antt` for `IsGateNet`, `pin_drivers` and `EachGateIsUsed`, `specs/Rows.antt` for equal gates and
//! their places, `specs/Order.antt` for pins in order, and `specs/Values.antt` for the value of a gate over an input
//! row, a fold that appends one value per gate. The index's invariant is `FindsFirst`; that a push keeps it is proved in
//! `proofs/RowLemmas.antt`. `proofs/OrderLemmas.antt` shows that lists in ascending order with the same pins are one, so
//! that std's sort answers the defined list.
#![tactic(auto)]

mod entries;
mod gates;
mod laws;
mod net;
mod order;
mod pins;
mod row;
mod uses;

pub use entries::entry;
pub use gates::Gates;
pub use laws::{
    added_gates_keep_nets, ascending_keeps_drivers, gates_follow_drivers, later_gates_keep_values,
};
pub use net::GateNet;
pub use order::ascending;
pub use pins::pin_drivers;
pub use row::{Driver, End, GateRow};
pub use uses::is_each_gate_used;
