//! What actors do, and what a node's state is.

/// What an actor does with a node. The first number is the actor, the second the node.
#[derive(Clone, Copy, Debug, PartialEq, Eq, Hash)]
pub enum Event {
    /// Claims a free node.
    Claim(u32, u32),
    /// Puts a word of the node's cut list: its place, counted from 0, and the word.
    Put(u32, u32, u32, u64),
    /// Publishes a node with all its words put.
    Publish(u32, u32),
}

/// The state of a node.
#[derive(Clone, Copy, Debug, PartialEq, Eq, Hash)]
pub enum NodeState {
    /// No actor has claimed the node.
    Free,
    /// An actor has claimed the node.
    Claimed {
        /// The actor.
        actor: u32,
        /// How many words of the node's cut list it has put.
        put: u32,
    },
    /// The node's cut list is there to be read.
    Published,
}
