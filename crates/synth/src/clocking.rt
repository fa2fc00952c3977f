//! From gates to chains: levels, phases, the flow of the rounds, the least optimal epochs.

ghost use Rattle.std.specs.Prelude.{◌≡◌, ◌≤◌, length, Ok, IfOk};
ghost use Rattle.net_base.specs.Answers.{Gives};
ghost use Rattle.phase_rule.specs.declared.level.TheConstants.{MAX_PHASES};
ghost use Rattle.gate_net.specs.Net.{IsGateNet, EachGateIsUsed};
ghost use Rattle.dro_chains.specs.declared.chain.TheConstants.{MAX_DROS};
ghost use Rattle.blif_model.specs.declared.design.TheConstants.{MAX_OUTPUTS};
ghost use Rattle.synth.specs.declared.made.TheConstants.{MAX_GATES};
ghost use Rattle.synth.specs.Clocking.{clocked, HasClock, clock_dros, clock_flow};
ghost use Rattle.synth.specs.Synth.{told, chains_within};

use crate::fault::SynthFault;
use dro_chains::{Chained, chains};
use flow_net::{Flow, net_of};
use gate_net::GateNet;
use phase_rule::{levels, phases};
use stage_flow::{rounds_give_least_epochs, solve};
use std::alloc::Global;

/// Chains, and the flow that shows that no epochs need fewer DROs.
#[derive(Debug, Drop)]
pub(crate) struct Clocked {
    /// The chains.
    pub chained: Chained,
    /// The flow of the rounds.
    pub flow: Flow,
}

/// The chains of gates with n phases, from their levels and the least optimal epochs, and the flow of the rounds.
pub(crate) fn chained(alloc: Global, gates: GateNet, n: u32) -> Result<Clocked, SynthFault>
    requires net { IsGateNet gates }
    requires used { EachGateIsUsed gates }
    requires few_gates { length gates.gates ≤ MAX_GATES }
    requires few_outputs { length gates.outputs ≤ MAX_OUTPUTS }
    requires some { 1 ≤ n }
    requires few { n ≤ MAX_PHASES }
    ensures chains { Gives (λ clock. Ok clock.chained) told result (chains_within n gates) }
    ensures value { IfOk result (λ clock. clock.chained ≡ clocked n gates) }
    ensures flow { IfOk result (λ clock. clock.flow ≡ clock_flow n gates) }
    ensures clock { IfOk result (λ _. HasClock n gates) }
    ensures few { IfOk result (λ _. clock_dros n gates ≤ MAX_DROS) }
{
    rounds_give_least_epochs();
    let levels = levels(alloc, &gates)?;
    let phases = phases(alloc, &levels, n)?;
    let net = net_of(alloc, &gates, &phases)?;
    let solved = solve(alloc, &net)?;
    let chained = chains(alloc, gates, &phases, n, &solved.epochs)?;
    Ok(Clocked {
        chained,
        flow: solved.flow,
    })
}
