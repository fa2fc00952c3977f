//! From gates to their netlist.

ghost use Rattle.std.specs.Prelude.{◌≡◌, ◌≤◌, ◌<◌, ◌^◌, length, Ok, IfOk};
ghost use Rattle.net_base.specs.Answers.{Gives};
ghost use Rattle.blif_model.specs.Regular.{IsRegular};
ghost use Rattle.phase_rule.specs.declared.level.TheConstants.{MAX_PHASES};
ghost use Rattle.gate_net.specs.Net.{IsGateNet, EachGateIsUsed};
ghost use Rattle.synth.specs.declared.made.TheConstants.{MAX_GATES};
ghost use Rattle.synth.specs.Clocking.{clock_flow};
ghost use Rattle.synth.specs.Meaning.{Means, NeedsFewest, gates_value};
ghost use Rattle.synth.specs.Meaning as meaning;
ghost use Rattle.synth.specs.Synth.{told, nets_within};

use crate::clocking::{Clocked, chained};
use crate::fault::SynthFault;
use crate::names::names_of;
use blif_model::Design;
use flow_net::Flow;
use gate_net::GateNet;
use pulse_net::{PulseNet, pulses_are_gate_values};
use splitters::{chains_are_valid, chains_can_be_split, chains_unfold, dros_are_the_count, split};
use stage_flow::{rounds_are_full, rounds_give_least_epochs};
use std::alloc::Global;

/// A netlist, and the flow that shows that it needs the fewest DROs.
#[derive(Debug, Drop)]
pub(crate) struct Laid {
    /// The netlist.
    pub net: PulseNet,
    /// The flow.
    pub flow: Flow,
}

/// The netlist of gates with n phases, with the names of a design: it means the values of the gates, and needs the fewest DROs.
pub(crate) fn netlist_of(
    alloc: Global,
    gates: GateNet,
    design: &Design,
    n: u32,
) -> Result<Laid, SynthFault>
    requires net { IsGateNet gates }
    requires used { EachGateIsUsed gates }
    requires few_gates { length gates.gates ≤ MAX_GATES }
    requires regular { IsRegular design.now }
    requires inputs { gates.inputs ≡ length design.now.inputs }
    requires outputs { length gates.outputs ≡ length design.now.outputs }
    requires some { 1 ≤ n }
    requires few { n ≤ MAX_PHASES }
    ensures net { Gives (λ laid. Ok laid.net) told result (nets_within n design.now gates) }
    ensures flow { IfOk result (λ laid. laid.flow ≡ clock_flow n gates) }
    ensures few { IfOk result (λ laid. length laid.net.elements < 2 ^ 32) }
    ensures means { IfOk result (λ laid. Means n (meaning.names_of design.now) (gates_value gates) laid.net) }
    ensures fewest { IfOk result (λ laid. NeedsFewest laid.net laid.flow) }
{
    // The laws of the layers: the meaning is put together from them.
    chains_can_be_split();
    chains_are_valid();
    chains_unfold();
    dros_are_the_count();
    pulses_are_gate_values();
    rounds_are_full();
    rounds_give_least_epochs();
    let Clocked { chained, flow } = chained(alloc, gates, n)?;
    let names = names_of(alloc, design)?;
    let net = split(alloc, chained, names)?;
    Ok(Laid { net, flow })
}
