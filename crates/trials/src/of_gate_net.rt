//! Equal gates, by number and by place, and whether each gate has a use.

ghost use Rattle.gate_net.specs.Net.{IsGateNet};

use crate::gate_rows::{Row, add, give_all};
use cell_lib::Cell;
use gate_net::{Driver, End, GateNet, GateRow, Gates, is_each_gate_used, pin_drivers};
use net_base::List;
use std::alloc::Global;

fn inverter(alloc: Global, input: u32) -> Option<GateRow> {
    let pins = List::from_slice(alloc, &[Driver::Input(input)]).ok()?;
    Some(GateRow {
        cell: Cell::Not,
        pins,
    })
}

fn find(alloc: Global, gates: &Gates, input: u32) -> Option<Option<u32>> {
    Some(gates.find(&inverter(alloc, input)?))
}

// The inverters of these inputs, equal ones too.
fn push_all(alloc: Global, gates: &mut Gates, inputs: &[u32]) -> Option<()> {
    for input in inputs {
        if gates.len() >= 100 {
            return None;
        }
        gates.push(inverter(alloc, *input)?).ok()?;
    }
    Some(())
}

fn is_first_found(alloc: Global, gates: &Gates) -> Option<bool> {
    Some(
        find(alloc, gates, 1)? == Some(0)
            && find(alloc, gates, 0)? == Some(1)
            && find(alloc, gates, 2)?.is_none()
            && gates.len() == 3
            && gates.as_slice().len() == 3
            && gates.get(2).pins.as_slice() == [Driver::Input(1)].as_slice(),
    )
}

fn is_first_of_equal_found(alloc: Global) -> Option<bool> {
    let mut gates = Gates::new(alloc);
    push_all(alloc, &mut gates, &[1, 0, 1])?;
    is_first_found(alloc, &gates)
}

#[test]
fn the_first_of_equal_gates_is_found(rt: HostRuntime) {
    assert!(rt; is_first_of_equal_found(rt.alloc()) == Some(true));
}

const A: Driver = Driver::Input(0);

const B: Driver = Driver::Input(1);

// Gates as they are asked for, each with its number. Only an equal gate, with its pins in the same order, is found.
static ASKED: [(Row, u32); 4] = [
    ((Cell::And, &[A, B]), 0),
    ((Cell::Or, &[A, B]), 1),
    ((Cell::And, &[A, B]), 0),
    ((Cell::And, &[B, A]), 2),
];

fn are_numbered(alloc: Global, net: &mut GateNet) -> Option<bool>
    requires { IsGateNet net.old }
    ensures { IsGateNet net.new }
{
    let mut right = true;
    for ((cell, pins), wanted) in &ASKED {
        right = add(alloc, net, *cell, pins)? == *wanted && right;
    }
    Some(right)
}

// What the outputs give, and whether each of the three gates has a use then.
static USES: [(&[End], bool); 2] = [
    (&[End::From(Driver::Gate(0)), End::One], false),
    (
        &[
            End::From(Driver::Gate(2)),
            End::From(Driver::Gate(0)),
            End::From(Driver::Gate(1)),
        ],
        true,
    ),
];

fn are_drivers(alloc: Global, net: &GateNet, ends: &[End], used: bool) -> Option<bool> {
    let drivers = pin_drivers(alloc, net).ok()?;
    let is_used = is_each_gate_used(alloc, net).ok()?;
    Some(
        net.gates.len() == 3
            && net.outputs.as_slice() == ends
            && drivers.len() >= 7
            && drivers.as_slice()[..6] == [A, B, A, B, B, A]
            && is_used == used,
    )
}

fn is_right(alloc: Global, net: &mut GateNet, ends: &[End], used: bool) -> Option<bool>
    requires { IsGateNet net.old }
{
    let right = are_numbered(alloc, net)?;
    give_all(net, ends)?;
    Some(right && are_drivers(alloc, net, ends, used)?)
}

fn is_used(alloc: Global, ends: &[End], used: bool) -> Option<bool> {
    let mut net = GateNet::new(alloc, 2);
    is_right(alloc, &mut net, ends, used)
}

#[test]
fn an_equal_gate_is_found_and_not_added_again(rt: HostRuntime) {
    let alloc = rt.alloc();
    assert!(rt;
        USES.iter()
            .all(|(ends, used)| is_used(alloc, ends, *used) == Some(true))
    );
}
