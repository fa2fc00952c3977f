//! Why a graph is not made.

ghost use Rattle.std.specs.Prelude.{◌≡◌};
ghost use Rattle.subject_graph.specs.declared.fault.GraphFault.TheVariants.{NoMemory as OutOfMemory};

use net_base::NoMemory;
use thiserror::Error;

/// Why there is no further node, or no graph.
#[derive(Clone, Copy, Debug, PartialEq, Eq, Error)]
pub enum GraphFault {
    /// There would be more than `net_base::MAX_NODES` nodes.
    #[error("too many nodes")]
    TooManyNodes,
    /// There was no memory.
    #[error("out of memory")]
    NoMemory,
}

impl From<NoMemory> for GraphFault {
    ghost from_gives = { λ _ fault. fault ≡ OutOfMemory };

    fn from(_: NoMemory) -> Self {
        GraphFault::NoMemory
    }
}
