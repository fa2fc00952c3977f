//! The rounds, one after the other, and what comes of them all, on small networks worked by hand.

ghost use Rattle.std.specs.Prelude.{IfSome};
ghost use Rattle.gate_net.specs.Net.{IsGateNet};
ghost use Rattle.stage_flow.specs.Given.{IsNetwork};

use crate::gate_rows::{Row, add_all, give_all};
use cell_lib::Cell;
use flow_net::{Flow, MAX_PINS, Net, net_of, pin_count};
use gate_net::{Driver, End, GateNet, is_each_gate_used};
use net_base::List;
use stage_flow::{Progress, solve};
use std::alloc::Global;

static GATES: [Row; 2] = [
    (Cell::Not, &[Driver::Input(1)]),
    (Cell::And, &[Driver::Input(0), Driver::Gate(0)]),
];

// The units of each pin, forward and back, after one, two and four rounds in one phase.
static ONE: [(u32, u32); 4] = [(1, 0), (0, 0), (1, 0), (1, 1)];

static TWO: [(u32, u32); 4] = [(2, 0), (0, 1), (2, 0), (1, 1)];

static FOUR: [(u32, u32); 4] = [(2, 1), (0, 1), (2, 1), (1, 1)];

// What comes of all rounds: the phase of either gate, the units of each pin, the epoch of either gate, that of the sink, and
// how many DROs there are.
#[derive(Drop)]
struct Case {
    phases: [u32; 2],
    units: [(u32, u32); 4],
    gates: [u32; 2],
    sink: u32,
    count: u64,
}

const CASES: [Case; 2] = [
    Case {
        phases: [0, 0],
        units: [(2, 1), (0, 1), (2, 1), (1, 1)],
        gates: [1, 2],
        sink: 3,
        count: 1,
    },
    Case {
        phases: [1, 0],
        units: [(0, 1), (2, 1), (0, 1), (1, 1)],
        gates: [0, 1],
        sink: 2,
        count: 0,
    },
];

fn are_units(flow: &Flow, wanted: &[(u32, u32)]) -> bool {
    let units = flow.pins.as_slice();
    units.len() == wanted.len()
        && units.iter().zip(wanted.iter()).all(|(units, wanted)| units.forward == wanted.0
            && units.back == wanted.1)
}

fn are_rounds(alloc: Global, net: &Net) -> Option<bool>
    requires { IsNetwork net.now }
{
    if net.drivers != 4 {
        return None;
    }
    let mut progress = Progress::start(alloc, net).ok()?;
    progress.round(alloc, net).ok()?;
    let one = are_units(&progress.flow, &ONE);
    progress.round(alloc, net).ok()?;
    let two = are_units(&progress.flow, &TWO);
    progress.round(alloc, net).ok()?;
    progress.round(alloc, net).ok()?;
    let four = are_units(&progress.flow, &FOUR);
    Some(one && two && four && progress.sent == 4 && progress.potentials.len() == 8)
}

fn is_solved(alloc: Global, net: &Net, case: &Case) -> Option<bool>
    requires { IsNetwork net.now }
{
    let solved = solve(alloc, net).ok()?;
    Some(
        are_units(&solved.flow, case.units.as_slice())
            && solved.epochs.gates.as_slice() == case.gates.as_slice()
            && solved.epochs.sink == case.sink
            && solved.count == case.count,
    )
}

/// The network of the gates in these phases, if each has a use.
pub(crate) fn network(alloc: Global, gates: &GateNet, phases: &[u32]) -> Option<Net>
    requires { IsGateNet gates.now }
    ensures { IfSome result (λ net. IsNetwork net) }
{
    let phases = List::from_slice(alloc, phases).ok()?;
    let may_be = gates.gates.len() == phases.len()
        && pin_count(gates) < MAX_PINS
        && is_each_gate_used(alloc, gates).ok()?;
    if !may_be {
        return None;
    }
    net_of(alloc, gates, &phases).ok()
}

/// Not b, and a and not b.
pub(crate) fn gates(alloc: Global) -> Option<GateNet>
    ensures { IfSome result (λ gates. IsGateNet gates) }
{
    let mut gates = GateNet::new(alloc, 2);
    add_all(alloc, &mut gates, &GATES)?;
    give_all(&mut gates, &[End::From(Driver::Gate(1))])?;
    Some(gates)
}

fn is_case(alloc: Global, case: &Case) -> Option<bool> {
    let gates = gates(alloc)?;
    let net = network(alloc, &gates, case.phases.as_slice())?;
    is_solved(alloc, &net, case)
}

fn are_case_rounds(alloc: Global) -> Option<bool> {
    let gates = gates(alloc)?;
    let net = network(alloc, &gates, &[0, 0])?;
    are_rounds(alloc, &net)
}

fn are_solved(alloc: Global) -> bool {
    let cases = CASES;
    cases.iter().all(|case| is_case(alloc, case) == Some(true))
}

#[test]
fn units_go_round_by_round_to_the_least_of_the_farthest_mirrors(rt: HostRuntime) {
    let alloc = rt.alloc();
    assert!(rt; are_case_rounds(alloc) == Some(true) && are_solved(alloc));
}
