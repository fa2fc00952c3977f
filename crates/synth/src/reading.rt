//! From the text to its graph.

ghost use Rattle.std.specs.Prelude.{◌≡◌, ◌≤◌, List, Bool, length, map, Ok, IfOk};
ghost use Rattle.net_base.specs.Answers.{Gives};
ghost use Rattle.net_base.specs.Graph.{IsSubject};
ghost use Rattle.net_base.specs.NodeValues.{ref_value};
ghost use Rattle.blif_lex.specs.declared.lines.TheConstants.{MAX_TEXT_BYTES};
ghost use Rattle.blif_model.specs.Regular.{IsRegular};
ghost use Rattle.blif_model.specs.Order.{table_order};
ghost use Rattle.blif_model.specs.Values.{signal_value};
ghost use Rattle.blif_read.specs.Reading.{design_of};
ghost use Rattle.subject_graph.specs.Tables.{subject_of};
ghost use Rattle.synth.specs.Synth as spec;
ghost use Rattle.synth.specs.Synth.{told, within_nodes};

use crate::fault::SynthFault;
use blif_check::order;
use blif_model::Ordered;
use blif_read::{MAX_TEXT_BYTES, read};
use net_base::Subject;
use std::alloc::Global;
use subject_graph::build;

/// The design of a text, with the order of its tables.
pub(crate) fn ordered_in(alloc: Global, text: &[u8]) -> Result<Ordered, SynthFault>
    requires { length text.now ≤ MAX_TEXT_BYTES }
    ensures ordered { Gives (λ ordered. Ok ordered) told result (spec.ordered_in text.now) }
    ensures regular { IfOk result (λ ordered. IsRegular ordered.design) }
    ensures order { IfOk result (λ ordered. table_order ordered.design ≡ Ok ordered.order) }
    ensures design { IfOk result (λ ordered. design_of text.now ≡ Ok ordered.design) }
{
    let design = read(alloc, text)?;
    let ordered = order(alloc, design)?;
    Ok(ordered)
}

/// The subject of an ordered design.
pub(crate) fn subject_of(alloc: Global, ordered: &Ordered) -> Result<Subject, SynthFault>
    requires regular { IsRegular ordered.now.design }
    requires order { table_order ordered.now.design ≡ Ok ordered.now.order }
    ensures subject { Gives (λ subject. Ok subject) told result (within_nodes (subject_of ordered.now)) }
    ensures proper { IfOk result IsSubject }
    ensures inputs { IfOk result (λ subject. subject.graph.inputs ≡ length ordered.now.design.inputs) }
    ensures outputs { IfOk result (λ subject. length subject.outputs ≡ length ordered.now.design.outputs) }
    ensures value { IfOk result (λ subject. (row : List Bool) → map (ref_value subject.graph row) subject.outputs ≡ map (signal_value ordered.now row) ordered.now.design.outputs) }
{
    let subject = build(alloc, ordered)?;
    Ok(subject)
}
