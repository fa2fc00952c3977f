//! What can be wrong with a netlist: a place and a kind.

ghost use Rattle.std.specs.Prelude.{◌≡◌};
ghost use Rattle.pulse_net.specs.declared.fault.Stop.TheVariants.{Wrong, NoMemory};
ghost use Rattle.pulse_net.specs.declared.fault.ValidFault.TheVariants.{NoMemory as NoRoom};

use std::alloc::{AllocError, AllocFailed};

/// Where a netlist breaks a rule. Places are counted from 0.
#[derive(Clone, Copy, Debug, PartialEq, Eq)]
pub enum Place {
    /// The input at this place.
    Input(u32),
    /// The element at this place.
    Element(u32),
    /// The output at this place.
    Output(u32),
    /// The latency.
    Latency,
    /// The whole netlist, once all its parts are read.
    Close,
}

/// Which rule is broken there.
#[derive(Clone, Copy, Debug, PartialEq, Eq)]
pub enum Wrong {
    /// No input and no earlier element made this wire.
    Unmade(u32),
    /// An input or an earlier element made this wire already.
    MadeTwice(u32),
    /// A pin or an output used this wire already.
    UsedTwice(u32),
    /// The gap of this wire, the stage of its user minus its own, in ticks: it isn't 1 to n, for n phases.
    Gap(u32, i64),
    /// This wire was made and isn't used. It is the least one.
    Unused(u32),
    /// No output has a wire, so the latency is to be 1, and not this one.
    NoWires(u32),
}

/// The first broken rule of a netlist.
#[derive(Clone, Copy, Debug, PartialEq, Eq)]
pub struct Invalid {
    /// Where it is broken.
    pub place: Place,
    /// Which rule it is.
    pub cause: Wrong,
}

/// Why a netlist isn't found valid.
#[derive(Clone, Copy, Debug, PartialEq, Eq)]
pub enum ValidFault {
    /// It breaks this rule, and none before.
    Invalid(Invalid),
    /// Want of memory, which says nothing of the netlist.
    NoMemory,
}

impl From<AllocError> for ValidFault {
    ghost from_gives = { λ _ fault. fault ≡ NoRoom };

    fn from(_failed: AllocError) -> ValidFault {
        ValidFault::NoMemory
    }
}

/// Why a step of the rules stops, wherever it stands.
#[derive(Clone, Copy)]
pub(crate) enum Stop {
    /// It breaks this rule.
    Wrong(Wrong),
    /// Want of memory.
    NoMemory,
}

impl From<Wrong> for Stop {
    ghost from_gives = { λ cause stop. stop ≡ Wrong cause };

    fn from(cause: Wrong) -> Stop {
        Stop::Wrong(cause)
    }
}

impl<T: Drop> From<AllocFailed<T>> for Stop {
    ghost from_gives = { λ _ stop. stop ≡ NoMemory };

    fn from(_failed: AllocFailed<T>) -> Stop {
        Stop::NoMemory
    }
}
