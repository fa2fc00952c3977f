//! Why a design's tables have no order.

ghost use Rattle.std.specs.Prelude.{◌≡◌};
ghost use Rattle.blif_check.specs.declared.fault.OrderFault.TheVariants.{NoMemory as OutOfMemory};

use net_base::{Name, NoMemory};
use thiserror::Error;

/// Why the tables of a design have no order.
#[derive(Debug, PartialEq, Eq, Error, Drop)]
pub enum OrderFault {
    /// A table drives the signal of this name, which an input or an earlier table drives already.
    #[error("driven twice: {0}")]
    DuplicateDriver(Name),
    /// The signal of this name is a pin or an output, and nothing drives it.
    #[error("not driven: {0}")]
    Undriven(Name),
    /// The table of this line is on a cycle, and no table before it in the text is.
    #[error("on a cycle: line {0}")]
    Cycle(u32),
    /// There was no memory.
    #[error("out of memory")]
    NoMemory,
}

impl From<NoMemory> for OrderFault {
    ghost from_gives = { λ _ fault. fault ≡ OutOfMemory };

    fn from(_: NoMemory) -> Self {
        OrderFault::NoMemory
    }
}
