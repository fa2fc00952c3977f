//! Designs: what a BLIF text says, by numbered names (BLIF 1992), and what it means.
//!
//! A signal is the number of its name. A table drives its target with a value made of those of its pins, as its rows say.
//! A `Design` has its tables in the order of the text, which may be any; an `Ordered` has beside it an order in which each
//! table stands behind those that drive its pins. Both are plain data; only the names have code, since they are numbered
//! in order of first appearance, and a test tells which designs are regular.
//!
//! Promised: `number` of `NameTable` answers the place of a name, which goes last where it is new (`number`, `named`,
//! `ok`), or leaves the names as they were (`err`); `name` and `find` go from a number to its name and back; no name
//! stands twice (`distinct` of `as_slice`). `is_regular` tells regular designs, in expected linear time. The only refusal
//! is `NoMemory`. On order: `cycles_are_found`, a table is found on a cycle exactly where a walk through pins, however
//! long, leads from it to itself; `order_lists_tables`, an order has each table once; `order_is_by_level`, by level and
//! then by place; `levels_follow_drivers`; `order_follows_drivers`, each table stands behind those that drive its pins.
//! On value: `inputs_have_bits`; `values_follow_tables`, the target of a table has the table's value over the values of
//! its pins; `values_are_determined`, no other values do this, so they don't hang on the order.
//! Not promised: anything on the order or the values of a design whose order something refuses; here no order is found,
//! and no table is evaluated by code.
//!
//! Read `specs/Values.antt` for what a row, a table and a signal are worth over a row of input bits, `specs/Order.antt`
//! from `driver_of` to `table_order` for walks, cycles, levels and refusals, `specs/Regular.antt` and `specs/Names.antt`.
//! The laws stand in `specs/Laws.antt`. Two proofs carry them: in `proofs/Walks.antt` a walk that comes back to no signal
//! has no more signals than there are tables, so without a cycle no level is above their number; in `proofs/Values.antt`
//! no table behind another changes what that one read.
#![tactic(auto)]

mod design;
mod laws;
mod names;
mod regular;

pub use design::{
    Bit, Cube, Design, MAX_INPUTS, MAX_OUTPUTS, MAX_PINS, MAX_TABLES, Ordered, Table,
};
pub use laws::{
    cycles_are_found, inputs_have_bits, levels_follow_drivers, order_follows_drivers,
    order_is_by_level, order_lists_tables, values_are_determined, values_follow_tables,
};
pub use names::NameTable;
pub use regular::is_regular;
