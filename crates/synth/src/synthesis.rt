//! From text to netlist.

ghost use Rattle.std.specs.Prelude.{◌≡◌, ◌≤◌, ◌<◌, ◌^◌, length, Ok, IfOk};
ghost use Rattle.net_base.specs.Answers.{Gives};
ghost use Rattle.blif_lex.specs.declared.lines.TheConstants.{MAX_TEXT_BYTES};
ghost use Rattle.phase_rule.specs.declared.level.TheConstants.{MAX_PHASES};
ghost use Rattle.blif_model.specs.Regular.{IsRegular};
ghost use Rattle.net_base.specs.Graph.{IsSubject};
ghost use Rattle.synth.specs.Synth.{made_of, synth_of, told};
ghost use Rattle.synth.specs.Meaning.{MeansText, NeedsFewest};

use crate::counts::counts_of;
use crate::fault::SynthFault;
use crate::made::Made;
use crate::mapping::gates_of;
use crate::netlist::{Laid, netlist_of};
use crate::reading::{ordered_in, subject_of};
use blif_model::Design;
use blif_read::MAX_TEXT_BYTES;
use net_base::Subject;
use std::alloc::Global;

// A netlist and its flow with the numbers of what the netlist is made of, and of what it was made from.
fn made_with(design: &Design, subject: &Subject, laid: Laid) -> Made
    requires regular { IsRegular design.now }
    requires subject { IsSubject subject.now }
    requires few { length laid.net.elements < 2 ^ 32 }
    ensures { result ≡ made_of design.now subject.now laid.net laid.flow }
{
    let counts = counts_of(laid.net.elements.as_slice());
    Made {
        net: laid.net,
        flow: laid.flow,
        tables: design.tables.len() as u32,
        nodes: subject.graph.nodes.len() as u32,
        gates: counts.gates as u32,
        dros: counts.dros,
        splits: counts.splits,
        junctions: counts.junctions,
    }
}

/// The netlist of a text with n phases, 1 to `MAX_PHASES`, and its numbers, or what refuses it first: a line, then the whole
/// text, then the number of nodes, of gates, of DROs. On the netlist pulses mean what the text's tables say, and no stage
/// assignment of its gates at its phases needs fewer DROs, as the flow shows.
#[tactic(auto, unfolding(crate::specs::Synth::synth_of))]
pub fn synth(alloc: Global, text: &[u8], phases: u32) -> Result<Made, SynthFault>
    requires text { length text.now ≤ MAX_TEXT_BYTES }
    requires some { 1 ≤ phases }
    requires few { phases ≤ MAX_PHASES }
    ensures made { Gives (λ made. Ok made) told result (synth_of phases text.now) }
    ensures means { IfOk result (λ made. MeansText phases text.now made.net) }
    ensures fewest { IfOk result (λ made. NeedsFewest made.net made.flow) }
{
    let ordered = ordered_in(alloc, text)?;
    let subject = subject_of(alloc, &ordered)?;
    let gates = gates_of(alloc, &subject)?;
    let laid = netlist_of(alloc, gates, &ordered.design, phases)?;
    Ok(made_with(&ordered.design, &subject, laid))
}
