//! Verdicts on flows that are claimed for epochs, on the network of the rounds.

ghost use Rattle.stage_flow.specs.Given.{IsNetwork};

use crate::of_stage_flow::{gates, network};
use flow_cert::{Cause, Verdict, verify};
use flow_net::{Epochs, Flow, Net, Units};
use net_base::List;
use std::alloc::Global;

// The flow of all rounds in one phase, and one whose first unit is missing.
static ROUNDS: [(u32, u32); 4] = [(2, 1), (0, 1), (2, 1), (1, 1)];

static LESS: [(u32, u32); 4] = [(1, 1), (0, 1), (2, 1), (1, 1)];

fn flow(alloc: Global, pairs: &[(u32, u32)]) -> Option<Flow> {
    let mut pins = Vec::new(alloc);
    for (forward, back) in pairs {
        pins.push(Units {
            forward: *forward,
            back: *back,
        })
        .ok()?;
    }
    Some(Flow {
        pins: List::from_vec(pins),
    })
}

// What is said of a flow for gates at 1 and 2, with the sink at 3 or later.
fn verdict(alloc: Global, net: &Net, sink: u32, pairs: &[(u32, u32)]) -> Option<Verdict>
    requires { IsNetwork net.now }
{
    let epochs = Epochs {
        gates: List::from_slice(alloc, &[1, 2]).ok()?,
        sink,
    };
    if net.gates != 2 {
        return None;
    }
    verify(alloc, net, &epochs, &flow(alloc, pairs)?).ok()
}

fn are_verdicts(alloc: Global) -> Option<bool> {
    let gates = gates(alloc)?;
    let net = network(alloc, &gates, &[0, 0])?;
    let fewest = verdict(alloc, &net, 3, &ROUNDS)?;
    let none = verdict(alloc, &net, 3, &[])?;
    let early = verdict(alloc, &net, 2, &ROUNDS)?;
    let less = verdict(alloc, &net, 3, &LESS)?;
    let late = verdict(alloc, &net, 4, &ROUNDS)?;
    Some(
        fewest == Verdict::Fewest(1)
            && none == Verdict::Bad(Cause::Length { lines: 0, pins: 4 })
            && early
                == Verdict::Bad(Cause::Unbalanced {
                    pin: 3,
                    gap: 0,
                    weight: 1,
                })
            && less
                == Verdict::Bad(Cause::Balance {
                    vertex: 0,
                    has: 1,
                    wants: 2,
                })
            && late == Verdict::Bad(Cause::Value { value: 1, count: 2 }),
    )
}

#[test]
fn a_flow_shows_the_fewest_dros_or_why_it_does_not(rt: HostRuntime) {
    assert!(rt; are_verdicts(rt.alloc()) == Some(true));
}
