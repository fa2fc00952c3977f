//! From the graph to its gates.

ghost use Rattle.std.specs.Prelude.{◌≡◌, ◌≤◌, ◌<◌, ◌^◌, List, Bool, length, map, Ok, IfOk};
ghost use Rattle.net_base.specs.Answers.{Gives};
ghost use Rattle.net_base.specs.Graph.{IsSubject};
ghost use Rattle.net_base.specs.NodeValues.{ref_value};
ghost use Rattle.gate_net.specs.Net.{IsGateNet, EachGateIsUsed};
ghost use Rattle.gate_net.specs.Values.{end_value};
ghost use Rattle.balance_map.specs.Choices.{choices_of};
ghost use Rattle.synth.specs.declared.made.TheConstants.{MAX_GATES};
ghost use Rattle.synth.specs.Synth.{told, covers};

use crate::fault::SynthFault;
use crate::made::MAX_GATES;
use balance_map::{Choices, choose, cover};
use cut_lists::all_rows;
use gate_net::GateNet;
use net_base::{NoMemory, Subject};
use pattern_table::Patterns;
use std::alloc::Global;

// The choices of all nodes. The rows of cuts, the largest table of a run, are gone with the call.
fn chosen(alloc: Global, subject: &Subject, patterns: &Patterns) -> Result<Choices, NoMemory>
    requires { IsSubject subject.now }
    ensures { IfOk result (λ choices. choices ≡ choices_of subject.now) }
{
    let rows = all_rows(alloc, &subject.graph)?;
    choose(alloc, subject, &rows, patterns)
}

/// The gates of a subject.
pub(crate) fn gates_of(alloc: Global, subject: &Subject) -> Result<GateNet, SynthFault>
    requires subject { IsSubject subject.now }
    requires few { length subject.now.outputs < 2 ^ 31 }
    ensures gates { Gives (λ gates. Ok gates) told result (covers subject.now) }
    ensures net { IfOk result IsGateNet }
    ensures used { IfOk result EachGateIsUsed }
    ensures few { IfOk result (λ gates. length gates.gates ≤ MAX_GATES) }
    ensures outputs { IfOk result (λ gates. length gates.outputs ≡ length subject.now.outputs) }
    ensures inputs { IfOk result (λ gates. gates.inputs ≡ subject.now.graph.inputs) }
    ensures value { IfOk result (λ gates. (row : List Bool) → map (end_value gates row) gates.outputs ≡ map (ref_value subject.now.graph row) subject.now.outputs) }
{
    let patterns = Patterns::new(alloc)?;
    let choices = chosen(alloc, subject, &patterns)?;
    let gates = cover(alloc, subject, &choices, &patterns, MAX_GATES)?;
    Ok(gates)
}
