//! The machine that fills cut lists, in one thread: claims, puts and publications, event by event.
//!
//! Several actors share a store of cut lists. An actor claims a free node whose fan-ins are published, puts the words of the
//! node's cut list one by one, and publishes the node. This crate has the rules of that as a machine without threads, memory
//! words or time, and a core that follows it; the store is judged by it, since each of its steps is an event here or none.
//!
//! In: a proper graph and events, in any order and by any actors. Out: which events are allowed, and the state after them.
//!
//! Promised: `Core::new` has the inputs published and all other nodes free. `Core::step` takes no memory; it answers whether
//! the machine allows the event (`allowed`), the state is then the one after it and else unchanged (`state`), and the core
//! stays the graph's (`core`). `run` is in the state after all events, those that aren't allowed being skipped. `state` shows
//! a node's state. Laws, over each list of events: the state is sound (`states_are_sound`); what was put of a node are the
//! first words of its list, and all of them once it is published (`puts_are_the_words`); each node that is published and is
//! no input was published once, and no other (`publications_are_once`).
//! Not promised: that a claim is ever followed by a publication, or that every node comes to be published.
//!
//! Read `specs/Machine.antt` from its end, then `specs/Sound.antt` and `specs/Laws.antt`. Central proofs: an allowed event
//! leaves a sound state sound (`proofs/Soundness.antt`); the laws are then inductions over the events, in which what a state
//! shows of a node and what the events did to it grow together (`proofs/Histories.antt`). A core keeps the row of each node
//! that isn't free and the actors with a claim beside the states; `specs/Cores.antt` says how they belong together, and that
//! there is room for one more actor while a node is free, so no step takes memory. `proofs/Examples.antt` has a worked run.
#![tactic(auto)]

mod event;
mod laws;
mod machine;
mod runs;
mod start;

pub use event::{Event, NodeState};
pub use laws::{publications_are_once, puts_are_the_words, states_are_sound};
pub use machine::Core;
pub use runs::run;
