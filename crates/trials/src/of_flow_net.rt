//! The network of a netlist, and the DRO count of epochs.

ghost use Rattle.gate_net.specs.Net.{IsGateNet};

use crate::gate_rows::{Row, add_all, give_all};
use cell_lib::Cell;
use flow_net::{Epochs, MAX_PINS, Net, Pin, dro_count, is_balanced, need, net_of, pin_count};
use gate_net::{Driver, End, GateNet};
use net_base::List;
use std::alloc::Global;

const USED: Driver = Driver::Input(1);

// The first of two inputs has no use, so it is no driver.
static THREE: [Row; 3] = [
    (Cell::Not, &[USED]),
    (Cell::And, &[USED, Driver::Gate(0)]),
    (Cell::Or, &[Driver::Gate(1), USED]),
];

// A pin from a vertex to another, in one phase.
fn pin(driver: u32, from: u32, to: u32) -> Pin {
    Pin {
        driver,
        from,
        to,
        weight: 1,
    }
}

fn are_six_pins(net: &Net) -> bool {
    let wanted = [
        pin(0, 0, 1),
        pin(0, 0, 2),
        pin(1, 1, 2),
        pin(2, 2, 3),
        pin(0, 0, 3),
        pin(3, 3, 4),
    ];
    net.gates == 3 && net.drivers == 4 && net.pins.as_slice() == wanted.as_slice()
}

fn is_network(alloc: Global, gates: &GateNet) -> Option<bool>
    requires { IsGateNet gates.now }
{
    let phases = List::from_slice(alloc, &[0u32, 0, 0]).ok()?;
    if gates.gates.len() != 3 || pin_count(gates) >= MAX_PINS {
        return None;
    }
    let net = net_of(alloc, gates, &phases).ok()?;
    Some(pin_count(gates) == 6 && are_six_pins(&net))
}

fn is_network_of_three(alloc: Global) -> Option<bool> {
    let mut gates = GateNet::new(alloc, 2);
    add_all(alloc, &mut gates, &THREE)?;
    give_all(&mut gates, &[End::From(Driver::Gate(2)), End::Zero])?;
    is_network(alloc, &gates)
}

#[test]
fn a_row_of_three_gates_has_six_pins_and_four_drivers(rt: HostRuntime) {
    assert!(rt; is_network_of_three(rt.alloc()) == Some(true));
}

// The sink, whether that is balanced, what the input needs on its way there, and what both chains have.
static SINKS: [(u32, bool, u32, u64); 3] = [(1, false, 0, 0), (2, true, 1, 1), (3, true, 2, 3)];

fn is_count(alloc: Global, net: &Net, row: &(u32, bool, u32, u64)) -> Option<bool> {
    let (sink, balanced, dros, all) = *row;
    let gates = List::from_slice(alloc, &[1u32]).ok()?;
    let epochs = Epochs { gates, sink };
    let count = dro_count(alloc, net, &epochs).ok()?;
    Some(
        is_balanced(net, &epochs) == balanced
            && need(&epochs, &pin(0, 0, 2)) == dros
            && count == all,
    )
}

// A gate in the first epoch reads the one input. The sink reads the gate, and the input too.
fn are_counts(alloc: Global) -> Option<bool> {
    let pins = [pin(0, 0, 1), pin(1, 1, 2), pin(0, 0, 2)];
    let pins = List::from_slice(alloc, &pins).ok()?;
    let net = Net {
        gates: 1,
        drivers: 2,
        pins,
    };
    Some(
        SINKS
            .iter()
            .all(|row| is_count(alloc, &net, row) == Some(true)),
    )
}

#[test]
fn the_sink_is_balanced_from_one_epoch_behind_the_gate_on(rt: HostRuntime) {
    assert!(rt; are_counts(rt.alloc()) == Some(true));
}
