//! The gates of the needed nodes.

ghost use Rattle.std.specs.Prelude.{◌≡◌, ◌≤◌, ◌<◌, ◌+◌, ◌^◌, ◌++◌, List, Bool, All, length, map, slice_index_or, Some, Err, IfOk, OnOk};
ghost use Rattle.std.specs.List.{range_with_len};
ghost use Rattle.net_base.specs.Answers.{Gives};
ghost use Rattle.net_base.specs.Graph.{IsSubject};
ghost use Rattle.net_base.specs.NodeValues.{ref_value};
ghost use Rattle.cut_word.specs.Word.{IsWords, leaves_in};
ghost use Rattle.gate_net.specs.declared.row.Driver.TheVariants.{Input};
ghost use Rattle.gate_net.specs.Net.{IsGateNet, IsEndThere, EachGateIsUsed, bare_net};
ghost use Rattle.gate_net.specs.Values.{end_value};
ghost use Rattle.balance_map.specs.declared.fault.MapFault.TheVariants.{TooManyGates};
ghost use Rattle.balance_map.specs.Choices.{choices_of};
ghost use Rattle.balance_map.specs.Cover as spec;
ghost use Rattle.balance_map.specs.Cover.{cover_of, told};
ghost use Rattle.balance_map.specs.Walks.{most_gates, IsReady};

use crate::choice::{Choice, Choices};
use crate::fault::MapFault;
use crate::leaves::chosen_cut;
use crate::needed::needed;
use crate::walking::walk;
use gate_net::{Driver, End, GateNet};
use net_base::{NoMemory, Ref, Subject};
use pattern_table::Patterns;
use std::alloc::Global;

// At first each node drives itself, as inputs do.
fn own_drivers(alloc: Global, nodes: u32) -> Result<Vec<Driver>, NoMemory>
    ensures { IfOk result (λ drivers. drivers.items ≡ map Input (range_with_len 0 nodes)) }
{
    (0..nodes).map(|node| Driver::Input(node)).collect(alloc)
}

// What drives a node.
fn driver_of(drivers: &[Driver], node: u32) -> Driver
    ensures { result ≡ slice_index_or drivers.now node (Input node) }
{
    drivers
        .get(node as usize)
        .copied()
        .unwrap_or(Driver::Input(node))
}

// What drives these leaves.
fn leaf_drivers(alloc: Global, drivers: &[Driver], leaves: &[u32]) -> Result<Vec<Driver>, NoMemory>
    ensures { IfOk result (λ found. found.items ≡ map (λ leaf. slice_index_or drivers.now leaf (Input leaf)) leaves.now) }
{
    leaves
        .iter()
        .map(|leaf| driver_of(drivers, *leaf))
        .collect(alloc)
}

// Adds the gates of a node's chosen formula, and notes what drives the node from now on.
fn cover_node(
    alloc: Global,
    net: &mut GateNet,
    drivers: &mut [Driver],
    p: &Patterns,
    choice: &Choice,
    node: u32,
) -> Result<(), NoMemory>
    requires net { IsGateNet net.old }
    requires words { IsWords choice.now.leaves choice.now.table }
    requires ready { IsReady net.old.inputs (length net.old.gates) (map (λ leaf. slice_index_or drivers.old leaf (Input leaf)) (leaves_in choice.now.leaves)) choice.now.depth choice.now.table }
    requires room { length net.old.gates + most_gates choice.now.depth < 2 ^ 31 }
    requires node { node < length drivers.old }
    ensures ok { OnOk result (record { gates = net.new.gates; by = drivers.new } ≡ spec.with_driver drivers.old node (spec.with_choice drivers.old net.old.gates choice.now)) }
    ensures rest { OnOk result (net.new ≡ record net.old { gates = net.new.gates }) }
    ensures net { OnOk result (IsGateNet net.new) }
{
    let cut = chosen_cut(choice);
    let leaves = leaf_drivers(alloc, drivers, &cut.leaves[..cut.size as usize])?;
    drivers[node as usize] = walk(alloc, net, p, leaves.as_slice(), choice.table, choice.depth)?;
    Ok(())
}

// An output: a constant, or what drives its node.
fn end_of(drivers: &[Driver], output: Ref) -> End
    ensures { result ≡ spec.end_of drivers.now output }
{
    match output {
        Ref::Const(false) => End::Zero,
        Ref::Const(true) => End::One,
        Ref::Node(node) => End::From(driver_of(drivers, node)),
    }
}

// Adds the outputs.
fn push_outputs(net: &mut GateNet, drivers: &[Driver], outputs: &[Ref]) -> Result<(), NoMemory>
    requires net { IsGateNet net.old }
    requires there { All (λ output. IsEndThere net.old.inputs (length net.old.gates) (spec.end_of drivers.now output)) outputs.now }
    requires room { length net.old.outputs + length outputs.now < 2 ^ 31 }
    ensures ok { OnOk result (net.new ≡ record net.old { outputs = net.old.outputs ++ map (spec.end_of drivers.now) outputs.now }) }
    ensures net { IsGateNet net.new }
{
    for output in outputs {
        net.output(end_of(drivers, *output))?;
    }
    Ok(())
}

// The gates of all needed nodes, in a netlist without gates, and what drives each node.
fn cover_nodes(
    alloc: Global,
    net: &mut GateNet,
    s: &Subject,
    c: &Choices,
    p: &Patterns,
    most: u32,
) -> Result<Vec<Driver>, MapFault>
    requires subject { IsSubject s.now }
    requires choices { c.now ≡ choices_of s.now }
    requires net { net.old ≡ bare_net s.now.graph.inputs }
    ensures gates { IfOk result (λ drivers. record { gates = net.new.gates; by = drivers.items } ≡ spec.covered s.now) }
    ensures few { IfOk result (λ drivers. length (spec.covered s.now).gates ≤ most) }
    ensures many { result ≡ Err TooManyGates → most < length (spec.covered s.now).gates }
    ensures rest { IfOk result (λ drivers. net.new ≡ record net.old { gates = net.new.gates }) }
    ensures net { IfOk result (λ drivers. IsGateNet net.new) }
{
    let nodes = needed(alloc, s, c, p)?;
    let mut drivers = own_drivers(alloc, s.graph.nodes.len() as u32)?;
    for node in nodes.as_slice() {
        cover_node(
            alloc,
            net,
            drivers.as_mut_slice(),
            p,
            c.get(*node as usize),
            *node,
        )?;
        if net.gates.len() > most as usize {
            return Err(MapFault::TooManyGates);
        }
    }
    Ok(drivers)
}

// Fills a netlist without gates and outputs.
fn fill(
    alloc: Global,
    net: &mut GateNet,
    s: &Subject,
    c: &Choices,
    p: &Patterns,
    most: u32,
) -> Result<(), MapFault>
    requires subject { IsSubject s.now }
    requires few { length s.now.outputs < 2 ^ 31 }
    requires choices { c.now ≡ choices_of s.now }
    requires net { net.old ≡ bare_net s.now.graph.inputs }
    ensures ok { OnOk result (net.new ≡ spec.gates_of s.now) }
    ensures few { OnOk result (length (spec.covered s.now).gates ≤ most) }
    ensures many { result ≡ Err TooManyGates → most < length (spec.covered s.now).gates }
{
    let drivers = cover_nodes(alloc, net, s, c, p, most)?;
    push_outputs(net, drivers.as_slice(), s.outputs.as_slice())?;
    Ok(())
}

/// The gates of the needed nodes' chosen formulas, or `TooManyGates` exactly where they are more than `most`.
pub fn cover(
    alloc: Global,
    s: &Subject,
    c: &Choices,
    p: &Patterns,
    most: u32,
) -> Result<GateNet, MapFault>
    requires subject { IsSubject s.now }
    requires few { length s.now.outputs < 2 ^ 31 }
    requires choices { c.now ≡ choices_of s.now }
    ensures gates { Gives (λ net. Some net) told result (cover_of most s.now) }
    ensures net { IfOk result IsGateNet }
    ensures used { IfOk result EachGateIsUsed }
    ensures value { IfOk result (λ net. (row : List Bool) → map (end_value net row) net.outputs ≡ map (ref_value s.now.graph row) s.now.outputs) }
{
    let mut net = GateNet::new(alloc, s.graph.inputs);
    fill(alloc, &mut net, s, c, p, most)?;
    Ok(net)
}
