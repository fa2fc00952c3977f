//! The subject of a design.

ghost use Rattle.std.specs.Prelude.{◌≡◌, ◌<◌, ◌≤◌, Bool, false, List as Listed, length, map, replicate, All, IfOk, IfErr, OnOk, Ok};
ghost use Rattle.net_base.specs.declared.graph.Ref.TheVariants.{Const};
ghost use Rattle.blif_model.specs.declared.design.TheConstants.{MAX_INPUTS};
ghost use Rattle.net_base.specs.declared.graph.TheConstants.{MAX_NODES};
ghost use Rattle.net_base.specs.Graph.{IsRefThere, IsSubject};
ghost use Rattle.net_base.specs.NodeValues.{ref_value};
ghost use Rattle.blif_model.specs.Order.{table_order};
ghost use Rattle.blif_model.specs.Regular.{IsRegular, IsTable};
ghost use Rattle.blif_model.specs.Values.{signal_value, tables_at};
ghost use Rattle.subject_graph.specs.Answers.{Fills, GivesOutputs, Refuses};
ghost use Rattle.subject_graph.specs.Nodes.{input_graph};
ghost use Rattle.subject_graph.specs.Tables as spec;

use crate::rows::table_signal;
use crate::{Builder, GraphFault};
use blif_model::{Ordered, Table};
use net_base::{List, NoMemory, Ref, Subject};
use std::alloc::Global;

// What signals are.
fn refs_of(alloc: Global, refs: &[Ref], signals: &[u32]) -> Result<List<Ref>, NoMemory>
    requires { All (λ signal. signal < length refs.now) signals.now }
    ensures { IfOk result (λ found. found ≡ map (spec.ref_at refs.now) signals.now) }
{
    let mut found = List::new(alloc);
    for signal in signals {
        found.push(refs[*signal as usize])?;
    }
    Ok(found)
}

// Inputs are the first nodes, from the last to the first, so that each is what the definition says.
fn set_inputs(refs: &mut [Ref], inputs: &[u32])
    requires named { All (λ input. input < length refs.old) inputs.now }
    requires few { length inputs.now ≤ MAX_INPUTS }
    ensures { refs.new ≡ spec.input_refs 0 inputs.now refs.old }
{
    let mut place = inputs.len();
    while place > 0 {
        place -= 1;
        refs[inputs[place] as usize] = Ref::Node(place as u32);
    }
}

// What the signals of a design are before its tables.
fn input_refs(alloc: Global, signals: usize, inputs: &[u32]) -> Result<Vec<Ref>, NoMemory>
    requires named { All (λ input. input < signals) inputs.now }
    requires few { length inputs.now ≤ MAX_INPUTS }
    ensures { IfOk result (λ refs. refs.items ≡ spec.input_refs 0 inputs.now (replicate signals (Const false))) }
{
    let mut refs = vec![in alloc; Ref::Const(false); signals]?;
    set_inputs(refs.as_mut_slice(), inputs);
    Ok(refs)
}

// The target of a table is what the table gives.
fn drive(
    alloc: Global,
    builder: &mut Builder,
    refs: &mut [Ref],
    table: &Table,
) -> Result<(), GraphFault>
    requires table { IsTable (length refs.old) table.now }
    requires refs { All (IsRefThere (length builder.old.nodes)) refs.old }
    ensures made { Fills result builder.new refs.new (spec.with_target (record { graph = builder.old; answer = refs.old }) table.now) }
    ensures there { OnOk result (All (IsRefThere (length builder.new.nodes)) refs.new) }
{
    let pins = refs_of(alloc, refs, table.pins.as_slice())?;
    let signal = table_signal(alloc, builder, pins.as_slice(), table)?;
    refs[table.target as usize] = signal;
    Ok(())
}

// The same of the tables at these places, in order.
fn drive_all(
    alloc: Global,
    builder: &mut Builder,
    refs: &mut [Ref],
    tables: &[Table],
    order: &[u32],
) -> Result<(), GraphFault>
    requires tables { All (IsTable (length refs.old)) tables.now }
    requires order { All (λ place. place < length tables.now) order.now }
    requires refs { All (IsRefThere (length builder.old.nodes)) refs.old }
    ensures made { Fills result builder.new refs.new (spec.with_targets (record { graph = builder.old; answer = refs.old }) (tables_at tables.now order.now)) }
    ensures there { OnOk result (All (IsRefThere (length builder.new.nodes)) refs.new) }
{
    for place in order {
        drive(alloc, builder, refs, &tables[*place as usize])?;
    }
    Ok(())
}

// The tables of a design, from its inputs on, and what its outputs are then.
fn outputs_from(
    alloc: Global,
    builder: &mut Builder,
    refs: &mut [Ref],
    ordered: &Ordered,
) -> Result<List<Ref>, GraphFault>
    requires regular { IsRegular ordered.now.design }
    requires order { table_order ordered.now.design ≡ Ok ordered.now.order }
    requires graph { builder.old ≡ input_graph (length ordered.now.design.inputs) }
    requires refs { refs.old ≡ (spec.with_inputs ordered.now.design).answer }
    ensures made { GivesOutputs result builder.new (spec.subject_of ordered.now) }
    ensures there { IfOk result (All (IsRefThere (length builder.new.nodes))) }
{
    let design = &ordered.design;
    drive_all(
        alloc,
        builder,
        refs,
        design.tables.as_slice(),
        ordered.order.as_slice(),
    )?;
    Ok(refs_of(alloc, refs, design.outputs.as_slice())?)
}

// The same from a graph of inputs alone.
fn outputs_of(
    alloc: Global,
    builder: &mut Builder,
    ordered: &Ordered,
) -> Result<List<Ref>, GraphFault>
    requires regular { IsRegular ordered.now.design }
    requires order { table_order ordered.now.design ≡ Ok ordered.now.order }
    requires graph { builder.old ≡ input_graph (length ordered.now.design.inputs) }
    ensures made { GivesOutputs result builder.new (spec.subject_of ordered.now) }
    ensures there { IfOk result (All (IsRefThere (length builder.new.nodes))) }
{
    let design = &ordered.design;
    let mut refs = input_refs(alloc, design.names.len(), design.inputs.as_slice())?;
    outputs_from(alloc, builder, refs.as_mut_slice(), ordered)
}

/// The subject of a regular design whose tables are in order: its graph of nodes that are each there once, with what each
/// output is in it. Where that has more than `net_base::MAX_NODES` nodes it answers `TooManyNodes`, and there alone.
pub fn build(alloc: Global, ordered: &Ordered) -> Result<Subject, GraphFault>
    requires regular { IsRegular ordered.now.design }
    requires order { table_order ordered.now.design ≡ Ok ordered.now.order }
    ensures built { IfOk result (λ subject. subject ≡ spec.subject_of ordered.now) }
    ensures few { OnOk result (length (spec.subject_of ordered.now).graph.nodes ≤ MAX_NODES) }
    ensures too_many { IfErr result (λ fault. Refuses fault (spec.subject_of ordered.now).graph) }
    ensures subject { IfOk result IsSubject }
    ensures value { IfOk result (λ subject. (row : Listed Bool) → map (ref_value subject.graph row) subject.outputs ≡ map (signal_value ordered.now row) ordered.now.design.outputs) }
{
    let mut builder = Builder::new(alloc, ordered.design.inputs.len() as u32)?;
    let outputs = outputs_of(alloc, &mut builder, ordered)?;
    Ok(builder.finish(outputs))
}
