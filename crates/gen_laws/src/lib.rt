//! Generated texts are accepted: each reads as a design whose tables have an order.
//!
//! Laws alone, over the definitions of generated texts (`gen_blif`), of reading (`blif_read`) and of order (`blif_model`).
//! They need all three, so they stand in a crate above them, and take nothing and do nothing.
//!
//! Promised: the text of a design whose tables stand behind those that drive their pins is accepted, where its names are
//! plain and the limits are kept (`designs_in_order_are_accepted`); so is each text of `gen_` (`generated_texts_are_accepted`)
//! and of `adder` (`adders_are_accepted`). What such a text means is said by the values of the design that it reads as.
//! Not promised: anything of texts whose tables stand in another order, which may be accepted too.
//!
//! Read `specs/Named.antt` from `NamedDesign` to `IsAccepted`: a design by its names, as its text says it. `specs/Random.antt`
//! and `specs/RippleCarry.antt` have the designs of generated texts. The ideas: numbered in order of first appearance, such a
//! design is spelled by its text, so it is read (`proofs/AcceptedDesigns.antt`); each step of a walk through pins goes to a
//! signal that stands before, so no table is on a cycle (`proofs/AcceptedOrders.antt`); names are a letter and a number, and
//! different numbers have different decimals (`proofs/RandomNames.antt`, `proofs/RippleCarryNames.antt`).
#![tactic(auto)]

mod laws;

pub use laws::{adders_are_accepted, designs_in_order_are_accepted, generated_texts_are_accepted};
