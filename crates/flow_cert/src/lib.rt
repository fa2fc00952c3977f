//! Certificates: whether a flow shows that epochs need the fewest DROs.
//!
//! In: a network, epochs, and a flow that somebody claims for them. Out: `Fewest` with the DRO count, or `Bad` with the
//! first cause why the flow shows nothing. Nothing of the search for flow or epochs is used here: the flow is looked at
//! once, pin by pin, in time and memory linear in the network.
//!
//! Promised by `verify`: it answers `verdict_of` (`value`), with the causes in the order `Length`, `Unbalanced`, `Balance`,
//! `Value`, and each at its first pin or vertex. Where it answers `Fewest`, the epochs are balanced, the number is
//! their DRO count, and no balanced epochs have a lower one (`fewest`, and the law `a_yes_means_fewest`).
//! The only refusal is `NoMemory`.
//! A full flow that is worth what balanced epochs cost gets a yes (the law `full_flows_get_a_yes`).
//! Not promised: that best epochs have a flow that shows it.
//!
//! Read `specs/Verdicts.antt` from `verdict_of`, then `specs/Meaning.antt` for `HasFewestDros`; `specs/Sums.antt` has what
//! keeps sums of units in 64 bits. `proofs/Examples.antt` evaluates a small network. Central proof: `proofs/Meaning.antt`.
//! Where no cause holds the flow is full and worth the DRO count, and by weak duality no full flow is worth more than any
//! balanced epochs cost. `proofs/FullFlows.antt` has the other direction.
#![tactic(auto)]

mod check;
mod laws;
mod pins;
mod value;
mod verdict;
mod vertices;

pub use check::verify;
pub use laws::{a_yes_means_fewest, full_flows_get_a_yes};
pub use verdict::{Cause, Verdict};
