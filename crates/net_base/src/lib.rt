//! Lists, names and graphs: the plain data that all other crates hold, and how an answer that may be a fault is said.
//!
//! `List<T>` is what contracts see as a list, and `Name` what they see as 1 to 255 bytes that may stand in a name.
//! Both are small types over `Vec`: a contract that speaks of a list of names speaks of lists of bytes, and never of
//! buffers or allocators. `Graph` and `Subject` are the graph of AND and NOT nodes that a design becomes, and what stands
//! at its outputs: fields without any code of their own.
//!
//! Promised: `push` adds at the end, or leaves the list as it was; `get` answers the item at a place; `from_slice` copies
//! the items; `Name::of` keeps the bytes, and each `Name` in the program is one (`bytes` says so to its caller). Only
//! `push`, `from_slice`, `Name::of` and the clones take memory, and want of it, `NoMemory`, is their only refusal.
//! `is_proper` and `is_subject` tell which graphs are proper and which outputs they may have. `nodes_follow_fan_ins` says
//! that in a proper graph each node has the value that its fan-ins give it, and `later_nodes_keep_values` that nodes which
//! are added later change no value.
//! Only tested, in `trials`: that memory suffices where it is ample, and how a name is printed.
//! Not promised: anything on capacity; that equal nodes of a graph are one.
//!
//! Read `specs/Name.antt` for what a name is, `specs/Graph.antt` for proper graphs, `specs/NodeValues.antt` for the value of
//! a node over an input row, `specs/PerItem.antt` for the fold behind it, which makes one answer per item from the answers
//! before it, and `specs/Answers.antt` for `Gives`: a call gives what a definition says, or a fault that tells the
//! definition's cause, or want of memory. `proofs/CallerLemmas.antt` has what the crates above cite: on such folds, on
//! look-ups by key, and on answers.
#![tactic(auto)]

mod graph;
mod laws;
mod list;
mod name;

pub use graph::{GNode, Graph, MAX_NODES, Ref, Subject, is_proper, is_subject};
pub use laws::{later_nodes_keep_values, nodes_follow_fan_ins};
pub use list::List;
pub use name::{MAX_NAME_BYTES, Name, is_name};
pub use std::alloc::AllocError as NoMemory;
