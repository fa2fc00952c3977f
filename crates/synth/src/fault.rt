//! Why a text has no netlist.

ghost use Rattle.std.specs.Prelude.{◌≡◌};
ghost use Rattle.synth.specs.Faults.{of_read, of_order, of_graph, of_map, of_chain};
ghost use Rattle.synth.specs.declared.fault.SynthFault.TheVariants.{NoMemory as OutOfMemory};

use balance_map::MapFault;
use blif_check::OrderFault;
use blif_read::{BlifFault, ReadFault};
use dro_chains::ChainFault;
use net_base::{Name, NoMemory};
use subject_graph::GraphFault;

/// Why there is no netlist for a text. Of all causes the first in this order is told.
#[derive(Debug, PartialEq, Eq, Drop)]
pub enum SynthFault {
    /// The first line that has a fault, and which.
    Blif(BlifFault),
    /// A table drives the signal of this name, which an input or an earlier table drives already.
    DuplicateDriver(Name),
    /// The signal of this name is a pin or an output, and nothing drives it.
    Undriven(Name),
    /// The table of this line is on a cycle, and no table before it in the text is.
    Cycle(u32),
    /// The graph has more than `net_base::MAX_NODES` nodes.
    TooManyNodes,
    /// There are more than `MAX_GATES` gates.
    TooManyGates,
    /// The chains have so many DROs, more than `dro_chains::MAX_DROS`.
    TooManyDros(u64),
    /// There was no memory.
    NoMemory,
}

impl From<NoMemory> for SynthFault {
    ghost from_gives = { λ _ fault. fault ≡ OutOfMemory };

    fn from(_: NoMemory) -> Self {
        SynthFault::NoMemory
    }
}

impl From<ReadFault> for SynthFault {
    ghost from_gives = { λ given fault. fault ≡ of_read given };

    fn from(fault: ReadFault) -> Self {
        match fault {
            ReadFault::Blif(fault) => SynthFault::Blif(fault),
            ReadFault::NoMemory => SynthFault::NoMemory,
        }
    }
}

impl From<OrderFault> for SynthFault {
    ghost from_gives = { λ given fault. fault ≡ of_order given };

    fn from(fault: OrderFault) -> Self {
        match fault {
            OrderFault::DuplicateDriver(name) => SynthFault::DuplicateDriver(name),
            OrderFault::Undriven(name) => SynthFault::Undriven(name),
            OrderFault::Cycle(line) => SynthFault::Cycle(line),
            OrderFault::NoMemory => SynthFault::NoMemory,
        }
    }
}

impl From<GraphFault> for SynthFault {
    ghost from_gives = { λ given fault. fault ≡ of_graph given };

    fn from(fault: GraphFault) -> Self {
        match fault {
            GraphFault::TooManyNodes => SynthFault::TooManyNodes,
            GraphFault::NoMemory => SynthFault::NoMemory,
        }
    }
}

impl From<MapFault> for SynthFault {
    ghost from_gives = { λ given fault. fault ≡ of_map given };

    fn from(fault: MapFault) -> Self {
        match fault {
            MapFault::TooManyGates => SynthFault::TooManyGates,
            MapFault::NoMemory => SynthFault::NoMemory,
        }
    }
}

impl From<ChainFault> for SynthFault {
    ghost from_gives = { λ given fault. fault ≡ of_chain given };

    fn from(fault: ChainFault) -> Self {
        match fault {
            ChainFault::TooManyDros(count) => SynthFault::TooManyDros(count),
            ChainFault::NoMemory => SynthFault::NoMemory,
        }
    }
}
