//! The limit of DROs: as many are chained, and one more is refused with the count.

ghost use Rattle.std.specs.Prelude.{IfSome};
ghost use Rattle.gate_net.specs.Net.{IsGateNet};

use crate::gate_rows::{add, give};
use cell_lib::Cell;
use dro_chains::{ChainFault, Chained, can_chain, chains};
use flow_net::Epochs;
use gate_net::{Driver, End, GateNet};
use net_base::List;
use std::alloc::Global;

// Two inputs are read at the sink in epoch 524,289, in one phase: their chains have the 1,048,576 DROs of the limit. A NOT
// takes the third input, and has no use itself. In epoch 1 it needs no DRO, and in epoch 2 it needs one.
fn fill(alloc: Global, net: &mut GateNet) -> Option<()>
    requires { IsGateNet net.old }
    ensures { IsGateNet net.new }
{
    add(alloc, net, Cell::Not, &[Driver::Input(2)])?;
    give(net, End::From(Driver::Input(0)))?;
    give(net, End::From(Driver::Input(1)))
}

fn gates(alloc: Global) -> Option<GateNet>
    ensures { IfSome result IsGateNet }
{
    let mut net = GateNet::new(alloc, 3);
    fill(alloc, &mut net)?;
    Some(net)
}

// The epochs where the NOT has this one.
fn epochs(alloc: Global, epoch: u32) -> Option<Epochs> {
    let gates = List::from_slice(alloc, &[epoch]).ok()?;
    Some(Epochs {
        gates,
        sink: 524_289,
    })
}

fn is_at_the_limit(chained: &Chained) -> bool {
    chained.lengths.as_slice() == [524_288u32, 524_288, 0, 0].as_slice()
        && chained.needs.as_slice() == [0u32, 524_288, 524_288].as_slice()
        && chained.stages.as_slice() == [1u32].as_slice()
        && chained.latency == 524_289
        && chained.n == 1
        && chained.gates.gates.len() == 1
}

// Whether the chains are those of the limit, or their count is too many, as it is wanted.
fn is_wanted(chained: &Result<Chained, ChainFault>, too_many: Option<u64>) -> bool {
    match (chained, too_many) {
        (Ok(chained), None) => is_at_the_limit(chained),
        (Err(ChainFault::TooManyDros(count)), Some(wanted)) => *count == wanted,
        _ => false,
    }
}

fn is_chained(
    alloc: Global,
    net: GateNet,
    epochs: &Epochs,
    phases: &List<u32>,
    too_many: Option<u64>,
) -> bool
    requires { IsGateNet net }
{
    can_chain(&net, phases, 1, epochs)
        && is_wanted(&chains(alloc, net, phases, 1, epochs), too_many)
}

// The epoch of the NOT, and the count that is too many.
static EPOCHS: [(u32, Option<u64>); 2] = [(1, None), (2, Some(1_048_577))];

fn is_kept(alloc: Global, epoch: u32, too_many: Option<u64>) -> Option<bool> {
    let phases = List::from_slice(alloc, &[0u32]).ok()?;
    let epochs = epochs(alloc, epoch)?;
    let net = gates(alloc)?;
    Some(is_chained(alloc, net, &epochs, &phases, too_many))
}

#[test]
fn as_many_dros_as_the_limit_are_chained_and_one_more_is_refused_with_the_count(rt: HostRuntime) {
    let alloc = rt.alloc();
    assert!(rt; EPOCHS.iter().all(|(epoch, count)| is_kept(alloc, *epoch, *count) == Some(true)));
}
