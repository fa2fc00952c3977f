//! Why the answer of `check` is no.

ghost use Rattle.std.specs.Prelude.{◌≡◌};
ghost use Rattle.rsfq_main.specs.declared.objection.ExamineFault.TheVariants.{NoMemory as OutOfMemory};
ghost use Rattle.rsfq_main.specs.Objections.{of_valid};

use flow_cert::Cause;
use net_base::NoMemory;
use pulse_net::{Invalid, ValidFault};

/// Why a netlist isn't known to have the fewest DROs: the first of these that holds.
#[derive(Clone, Copy, Debug, PartialEq, Eq)]
pub enum Objection {
    /// It breaks this rule.
    Breaks(Invalid),
    /// The flow shows nothing of its epochs, for this cause.
    Shows(Cause),
    /// Its epochs need the fewest DROs, but it has others.
    Differs {
        /// The DROs that it has.
        dros: u64,
        /// The DROs that its epochs need.
        count: u64,
    },
}

/// Why a netlist couldn't be examined, or isn't known to have the fewest DROs.
#[derive(Clone, Copy, Debug, PartialEq, Eq)]
pub enum ExamineFault {
    /// There is an objection.
    Objects(Objection),
    /// There was no memory.
    NoMemory,
}

impl From<NoMemory> for ExamineFault {
    ghost from_gives = { λ _ fault. fault ≡ OutOfMemory };

    fn from(_: NoMemory) -> Self {
        ExamineFault::NoMemory
    }
}

impl From<ValidFault> for ExamineFault {
    ghost from_gives = { λ given fault. fault ≡ of_valid given };

    fn from(fault: ValidFault) -> Self {
        match fault {
            ValidFault::Invalid(invalid) => ExamineFault::Objects(Objection::Breaks(invalid)),
            ValidFault::NoMemory => ExamineFault::NoMemory,
        }
    }
}
