//! Chains that can't be laid out, and a netlist of more than 200,000 elements: laid out, found valid, and unfolded to the
//! gates that it was made of.

ghost use Rattle.std.specs.Prelude.{IfSome};
ghost use Rattle.gate_net.specs.Net.{IsGateNet};

use crate::gate_rows::{add, give};
use crate::pulse_rows::{names, unfolded};
use cell_lib::Cell;
use dro_chains::{Chained, can_chain, chains};
use flow_net::{Epochs, earliest_epochs};
use gate_net::{Driver, End, GateNet};
use net_base::List;
use phase_rule::{levels, phases};
use pulse_net::{Names, PulseNet, Unfolded};
use splitters::{can_split, split};
use std::alloc::Global;

const INPUT: Driver = Driver::Input(0);

// Phases, what the one pin needs, and whether its chain can be laid out: 2 ^ 32 wires are too many, and so are as many ticks.
static NEEDS: [(u32, u32, bool); 3] = [(1, 0, true), (1, u32::MAX, false), (2, u32::MAX, false)];

// An input that is an output, by way of `need` DROs.
fn delayed(alloc: Global, n: u32, need: u32) -> Option<Chained>
    ensures { IfSome result (λ chained. IsGateNet chained.gates) }
{
    let mut gates = GateNet::new(alloc, 1);
    give(&mut gates, End::From(INPUT))?;
    let needs = List::from_slice(alloc, &[need]).ok()?;
    Some(Chained {
        gates,
        n,
        stages: List::new(alloc),
        latency: 1,
        lengths: List::new(alloc),
        needs,
    })
}

fn can(alloc: Global, n: u32, need: u32) -> Option<bool> {
    let chained = delayed(alloc, n, need)?;
    can_split(alloc, &chained).ok()
}

#[test]
fn chains_whose_stages_or_wires_pass_32_bits_cannot_be_laid_out(rt: HostRuntime) {
    let alloc = rt.alloc();
    assert!(rt;
        NEEDS
            .iter()
            .all(|(n, need, wanted)| can(alloc, *n, *need) == Some(*wanted))
    );
}

const RUNGS: u32 = 50_000;

const READS: u32 = 50_000;

const PHASES: u32 = 4;

// A ladder: each NOT takes the last gate, and each AND takes the input and the NOT. So the input's chain is tapped all along.
fn climb(alloc: Global, net: &mut GateNet) -> Option<Driver>
    requires { IsGateNet net.old }
    ensures { IsGateNet net.new }
{
    let mut last = INPUT;
    for _ in 0..RUNGS {
        let not = Driver::Gate(add(alloc, net, Cell::Not, &[last])?);
        last = Driver::Gate(add(alloc, net, Cell::And, &[INPUT, not])?);
    }
    Some(last)
}

// The last gate of the ladder is read many times over.
fn give_many(net: &mut GateNet, last: Driver) -> Option<()>
    requires { IsGateNet net.old }
    ensures { IsGateNet net.new }
{
    for _ in 0..READS {
        give(net, End::From(last))?;
    }
    Some(())
}

fn ladder(alloc: Global) -> Option<GateNet>
    ensures { IfSome result IsGateNet }
{
    let mut net = GateNet::new(alloc, 1);
    let last = climb(alloc, &mut net)?;
    give_many(&mut net, last)?;
    Some(net)
}

// The phases and earliest epochs of gates.
fn clocked(alloc: Global, net: &GateNet) -> Option<(List<u32>, Epochs)>
    requires { IsGateNet net.now }
{
    let levels = levels(alloc, net).ok()?;
    let epochs = earliest_epochs(alloc, net, &levels, PHASES).ok()?;
    let phases = phases(alloc, &levels, PHASES).ok()?;
    Some((phases, epochs))
}

fn chained(alloc: Global, net: GateNet, phases: &List<u32>, epochs: &Epochs) -> Option<Chained>
    requires { IsGateNet net }
    ensures { IfSome result (λ chained. IsGateNet chained.gates) }
{
    if !can_chain(&net, phases, PHASES, epochs) {
        return None;
    }
    chains(alloc, net, phases, PHASES, epochs).ok()
}

fn laid_out(alloc: Global, chained: Chained, names: Names) -> Option<PulseNet>
    requires { IsGateNet chained.gates }
{
    let named = names.inputs.len() == chained.gates.inputs as usize
        && names.outputs.len() == chained.gates.outputs.len();
    if !named || can_split(alloc, &chained) != Ok(true) {
        return None;
    }
    split(alloc, chained, names).ok()
}

fn netlist(alloc: Global, phases: &List<u32>, epochs: &Epochs) -> Option<PulseNet> {
    let names = names(alloc, 1, READS as usize)?;
    let chained = chained(alloc, ladder(alloc)?, phases, epochs)?;
    laid_out(alloc, chained, names)
}

// The last gate stands 100,000 ticks behind the input, and the last DRO 4 ticks before it.
fn is_ladder(unfolded: &Unfolded, gates: &GateNet, phases: &List<u32>, epochs: &Epochs) -> bool {
    unfolded.gates.gates.len() == 100_000
        && unfolded.gates.gates.as_slice() == gates.gates.as_slice()
        && unfolded.gates.outputs == gates.outputs
        && unfolded.phases == *phases
        && unfolded.epochs == *epochs
        && epochs.sink == 25_001
        && unfolded.dros == 24_999
}

fn is_unfolded(
    alloc: Global,
    net: &PulseNet,
    gates: &GateNet,
    phases: &List<u32>,
    epochs: &Epochs,
) -> Option<bool> {
    let unfolded = unfolded(alloc, net)?;
    Some(net.elements.len() == 224_998 && is_ladder(&unfolded, gates, phases, epochs))
}

fn is_kept(alloc: Global, gates: &GateNet, phases: &List<u32>, epochs: &Epochs) -> Option<bool> {
    let net = netlist(alloc, phases, epochs)?;
    is_unfolded(alloc, &net, gates, phases, epochs)
}

fn is_laid_out(alloc: Global) -> Option<bool> {
    let gates = ladder(alloc)?;
    let (phases, epochs) = clocked(alloc, &gates)?;
    is_kept(alloc, &gates, &phases, &epochs)
}

#[test]
fn two_hundred_thousand_elements_are_soon_laid_out_and_unfolded(rt: HostRuntime) {
    assert!(rt; is_laid_out(rt.alloc()) == Some(true));
}
