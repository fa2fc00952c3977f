//! Netlists made by hand, one for each place and cause of a fault. Those that `unfolding` has are found valid there.

use crate::pulse_rows::{Drawing, Part, drawn, found};
use cell_lib::Cell;
use pulse_net::{Invalid, Outlet, Place, PulseNet, ValidFault, Wrong};
use std::alloc::Global;

// A netlist, and where it breaks which rule; None where it is valid.
type Row = (Drawing, Option<(Place, Wrong)>);

static ROWS: [Row; 14] = [
    // A and not b, with two phases.
    (
        Drawing {
            phases: 2,
            latency: 2,
            inputs: &[Some(0), Some(1)],
            parts: &[
                Part::Cell(Cell::Not, 1, &[1], 2),
                Part::Cell(Cell::And, 2, &[0, 2], 3),
            ],
            outputs: &[Outlet::Wire(3)],
        },
        None,
    ),
    // A gap of n and one more.
    (
        Drawing {
            phases: 4,
            latency: 2,
            inputs: &[Some(0)],
            parts: &[Part::Cell(Cell::Not, 5, &[0], 1)],
            outputs: &[Outlet::Wire(1)],
        },
        Some((Place::Element(0), Wrong::Gap(0, 5))),
    ),
    // A gap below 1, behind a splitter.
    (
        Drawing {
            phases: 2,
            latency: 2,
            inputs: &[Some(0)],
            parts: &[
                Part::Cell(Cell::Dro, 2, &[0], 1),
                Part::Split(1, 2, 3),
                Part::Cell(Cell::Xor, 1, &[2, 3], 4),
            ],
            outputs: &[Outlet::Wire(4)],
        },
        Some((Place::Element(2), Wrong::Gap(2, -1))),
    ),
    // Constants and an unused input.
    (
        Drawing {
            phases: 4,
            latency: 1,
            inputs: &[None],
            parts: &[],
            outputs: &[Outlet::One, Outlet::Zero],
        },
        None,
    ),
    // Two inputs with one wire.
    (
        Drawing {
            phases: 1,
            latency: 1,
            inputs: &[Some(7), Some(7)],
            parts: &[],
            outputs: &[Outlet::Wire(7)],
        },
        Some((Place::Input(1), Wrong::MadeTwice(7))),
    ),
    // An input's wire made again, by a splitter's right side.
    (
        Drawing {
            phases: 1,
            latency: 1,
            inputs: &[Some(0)],
            parts: &[Part::Split(0, 1, 0)],
            outputs: &[Outlet::Wire(1)],
        },
        Some((Place::Element(0), Wrong::MadeTwice(0))),
    ),
    // Pins come before the output of an element.
    (
        Drawing {
            phases: 1,
            latency: 2,
            inputs: &[Some(0)],
            parts: &[Part::Cell(Cell::Dro, 1, &[9], 0)],
            outputs: &[Outlet::Wire(0)],
        },
        Some((Place::Element(0), Wrong::Unmade(9))),
    ),
    // Both pins on one wire.
    (
        Drawing {
            phases: 1,
            latency: 2,
            inputs: &[Some(0)],
            parts: &[Part::Cell(Cell::And, 1, &[0, 0], 1)],
            outputs: &[Outlet::Wire(1)],
        },
        Some((Place::Element(0), Wrong::UsedTwice(0))),
    ),
    // Two outputs on one wire.
    (
        Drawing {
            phases: 1,
            latency: 1,
            inputs: &[Some(0)],
            parts: &[],
            outputs: &[Outlet::Wire(0), Outlet::Wire(0)],
        },
        Some((Place::Output(1), Wrong::UsedTwice(0))),
    ),
    // An output without its wire.
    (
        Drawing {
            phases: 1,
            latency: 1,
            inputs: &[Some(0)],
            parts: &[],
            outputs: &[Outlet::Zero, Outlet::Wire(3)],
        },
        Some((Place::Output(1), Wrong::Unmade(3))),
    ),
    // An output read a tick too late.
    (
        Drawing {
            phases: 1,
            latency: 3,
            inputs: &[Some(0)],
            parts: &[Part::Cell(Cell::Dro, 1, &[0], 1)],
            outputs: &[Outlet::Wire(1)],
        },
        Some((Place::Output(0), Wrong::Gap(1, 2))),
    ),
    // No output has a wire.
    (
        Drawing {
            phases: 4,
            latency: 2,
            inputs: &[None],
            parts: &[],
            outputs: &[Outlet::One],
        },
        Some((Place::Latency, Wrong::NoWires(2))),
    ),
    // Of two unused wires the least, whichever was made first.
    (
        Drawing {
            phases: 1,
            latency: 1,
            inputs: &[Some(0), Some(9)],
            parts: &[Part::Split(9, 5, 4)],
            outputs: &[Outlet::Wire(5)],
        },
        Some((Place::Close, Wrong::Unused(0))),
    ),
    // The same where the least is made last.
    (
        Drawing {
            phases: 1,
            latency: 1,
            inputs: &[Some(8), Some(9)],
            parts: &[Part::Split(9, 5, 4)],
            outputs: &[Outlet::Wire(5)],
        },
        Some((Place::Close, Wrong::Unused(4))),
    ),
];

fn wanted_of(broken: Option<(Place, Wrong)>) -> Result<(), ValidFault> {
    match broken {
        None => Ok(()),
        Some((place, cause)) => Err(ValidFault::Invalid(Invalid { place, cause })),
    }
}

fn is_found(alloc: Global, net: &PulseNet, broken: Option<(Place, Wrong)>) -> Option<bool> {
    Some(found(alloc, net)? == wanted_of(broken))
}

fn is_right(alloc: Global, row: &Row) -> Option<bool> {
    let (drawing, broken) = row;
    let net = drawn(alloc, drawing)?;
    is_found(alloc, &net, *broken)
}

#[test]
fn the_first_broken_rule_is_named(rt: HostRuntime) {
    let alloc = rt.alloc();
    assert!(rt; ROWS.iter().all(|row| is_right(alloc, row) == Some(true)));
}
