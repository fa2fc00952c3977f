//! The chains of a gate netlist.

ghost use Rattle.std.specs.Prelude.{◌≡◌, ◌↔◌, IsTrue, Ok};
ghost use Rattle.net_base.specs.Answers.{Gives};
ghost use Rattle.gate_net.specs.Net.{IsGateNet};
ghost use Rattle.dro_chains.specs.Chains.{CanChain, chains_of, told};
ghost use Rattle.dro_chains.specs.declared.chain.ChainFault.TheVariants.{NoMemory as OutOfMemory};

use crate::parts::{do_stages_fit, needs, stages};
use flow_net::{Epochs, MAX_PINS, chain_lengths, net_of, pin_count, total_length};
use gate_net::GateNet;
use net_base::{List, NoMemory};
use std::alloc::Global;
use thiserror::Error;

/// The DROs of a netlist at most.
pub const MAX_DROS: u64 = 1_048_576;

/// Gates with their stages and the chains of DROs behind their drivers.
#[derive(Debug, Drop)]
pub struct Chained {
    /// The gates, as they were given.
    pub gates: GateNet,
    /// How many phases there are.
    pub n: u32,
    /// The stage of each gate, in ticks.
    pub stages: List<u32>,
    /// The sink's epoch.
    pub latency: u32,
    /// For each driver how many DROs its chain has.
    pub lengths: List<u32>,
    /// For each pin which DRO of its driver's chain it taps, 0 for the driver itself.
    pub needs: List<u32>,
}

/// Why there are no chains.
#[derive(Clone, Copy, Debug, PartialEq, Eq, Error)]
pub enum ChainFault {
    /// There would be this many DROs, more than `MAX_DROS`.
    #[error("too many DROs: {0}")]
    TooManyDros(u64),
    /// There was no memory.
    #[error("out of memory")]
    NoMemory,
}

impl From<NoMemory> for ChainFault {
    ghost from_gives = { λ _ fault. fault ≡ OutOfMemory };

    fn from(_: NoMemory) -> Self {
        ChainFault::NoMemory
    }
}

/// Whether the chains of a well-formed netlist can be told: it has a network, an epoch per gate, and each stage and the
/// latency fit 32 bits.
pub fn can_chain(gates: &GateNet, phases: &List<u32>, n: u32, epochs: &Epochs) -> bool
    requires { IsGateNet gates.now }
    ensures { IsTrue result ↔ CanChain gates.now phases.now n epochs.now }
{
    phases.len() == gates.gates.len()
        && pin_count(gates) < MAX_PINS
        && epochs.gates.len() == gates.gates.len()
        && do_stages_fit(n, epochs.gates.as_slice(), phases.as_slice())
        && u64::from(n) * u64::from(epochs.sink) < 1 << 32
}

/// The chains of DROs behind the drivers of a netlist whose gates have these phases and epochs.
pub fn chains(
    alloc: Global,
    gates: GateNet,
    phases: &List<u32>,
    n: u32,
    epochs: &Epochs,
) -> Result<Chained, ChainFault>
    requires { CanChain gates phases.now n epochs.now }
    ensures { Gives Ok told result (chains_of gates phases.now n epochs.now) }
{
    let net = net_of(alloc, &gates, phases)?;
    let lengths = chain_lengths(alloc, &net, epochs)?;
    let count = total_length(&lengths);
    if count > MAX_DROS {
        return Err(ChainFault::TooManyDros(count));
    }
    let needs = needs(alloc, epochs, net.pins.as_slice())?;
    let stages = stages(alloc, n, epochs.gates.as_slice(), phases.as_slice())?;
    Ok(Chained {
        gates,
        n,
        stages: List::from_vec(stages),
        latency: epochs.sink,
        lengths,
        needs: List::from_vec(needs),
    })
}
