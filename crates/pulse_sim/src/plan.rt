//! All that a simulator does tick by tick, laid out once: it is linear in elements and outputs.

ghost use Rattle.std.specs.Prelude.{◌≡◌, ◌≤◌, ◌+◌, IfOk};
ghost use Rattle.pulse_sim.specs.declared.layout.TheConstants.{MAX_WIRES};
ghost use Rattle.pulse_sim.specs.Sites.{site_wires};
ghost use Rattle.pulse_sim.specs.Roots.{parts_of};
ghost use Rattle.pulse_sim.specs.Wakes.{plan_of};

use crate::root::{Shown, all_shown, roots_of};
use crate::site::{Site, Tap};
use crate::wakes::{Delivery, Wakes, all_wakes, deliveries_of};
use net_base::{List, NoMemory};
use std::alloc::Global;

/// What a simulator does in its ticks.
#[derive(Drop)]
pub(crate) struct Plan {
    /// What is done in the ticks of each phase.
    pub(crate) wakes: List<Wakes>,
    /// The deliveries from inputs, whose pulses may come in each tick.
    pub(crate) from_inputs: List<Delivery>,
    /// What each output shows, by the root of its wire.
    pub(crate) shown: List<Shown>,
}

/// The plan of sites and taps, behind so many used inputs.
pub(crate) fn plan_of(
    alloc: Global,
    phases: u32,
    inputs: usize,
    sites: &[Site],
    taps: &[Tap],
) -> Result<Plan, NoMemory>
    requires { inputs + site_wires sites.now ≤ MAX_WIRES }
    ensures { IfOk result (λ plan. plan ≡ plan_of phases inputs (parts_of sites.now) taps.now) }
{
    let wakes = all_wakes(alloc, phases, inputs, sites)?;
    let from_inputs = deliveries_of(alloc, None, inputs, sites)?;
    let roots = roots_of(alloc, inputs, sites)?;
    let shown = all_shown(alloc, &roots, taps)?;
    Ok(Plan {
        wakes,
        from_inputs,
        shown,
    })
}
