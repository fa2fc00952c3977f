//! Why a graph has no cover.

ghost use Rattle.std.specs.Prelude.{◌≡◌};
ghost use Rattle.balance_map.specs.declared.fault.MapFault.TheVariants.{NoMemory as OutOfMemory};

use net_base::NoMemory;
use thiserror::Error;

/// Why there are no gates.
#[derive(Clone, Copy, Debug, PartialEq, Eq, Error)]
pub enum MapFault {
    /// There would be more gates than the most.
    #[error("too many gates")]
    TooManyGates,
    /// There was no memory.
    #[error("out of memory")]
    NoMemory,
}

impl From<NoMemory> for MapFault {
    ghost from_gives = { λ _ fault. fault ≡ OutOfMemory };

    fn from(_: NoMemory) -> Self {
        MapFault::NoMemory
    }
}
