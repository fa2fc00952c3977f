//! The parts of chains: needs and stages.

ghost use Rattle.std.specs.Prelude.{◌≡◌, ◌<◌, ◌^◌, ◌↔◌, ℕ, IsTrue, IfOk, length, map, slice_index};
ghost use Rattle.phase_rule.specs.Stages.{stage_of};
ghost use Rattle.flow_net.specs.Epochs.{need_of};
ghost use Rattle.dro_chains.specs.Chains.{stages_of};

use flow_net::{Epochs, Pin, need};
use net_base::NoMemory;
use std::alloc::Global;

/// The need of each pin.
pub(crate) fn needs(alloc: Global, epochs: &Epochs, pins: &[Pin]) -> Result<Vec<u32>, NoMemory>
    ensures { IfOk result (λ needs. needs.items ≡ map (need_of epochs.now) pins.now) }
{
    let mut needs = Vec::with_capacity(alloc, pins.len())?;
    for pin in pins {
        needs.push(need(epochs, pin))?;
    }
    Ok(needs)
}

/// Whether each stage fits 32 bits.
pub(crate) fn do_stages_fit(n: u32, epochs: &[u32], phases: &[u32]) -> bool
    requires { length phases.now ≡ length epochs.now }
    ensures { IsTrue result ↔ ((k : ℕ) → k < length epochs.now → stage_of n (slice_index epochs.now k) (slice_index phases.now k) < 2 ^ 32) }
{
    for i in 0..epochs.len() {
        if u64::from(n) * u64::from(epochs[i]) + u64::from(phases[i]) >= 1 << 32 {
            return false;
        }
    }
    true
}

/// The stage of each gate.
pub(crate) fn stages(
    alloc: Global,
    n: u32,
    epochs: &[u32],
    phases: &[u32],
) -> Result<Vec<u32>, NoMemory>
    requires each { length phases.now ≡ length epochs.now }
    requires fit { (k : ℕ) → k < length epochs.now → stage_of n (slice_index epochs.now k) (slice_index phases.now k) < 2 ^ 32 }
    ensures { IfOk result (λ stages. stages.items ≡ stages_of n epochs.now phases.now) }
{
    let mut stages = Vec::with_capacity(alloc, epochs.len())?;
    for i in 0..epochs.len() {
        stages.push(n * epochs[i] + phases[i])?;
    }
    Ok(stages)
}
