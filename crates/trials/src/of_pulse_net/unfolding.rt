//! Valid netlists made by hand, with the gates that they unfold to.

use crate::gate_rows::Row as Gate;
use crate::pulse_rows::{Drawing, Part, drawn, unfolded};
use cell_lib::Cell;
use gate_net::{Driver, End, GateRow};
use pulse_net::{Outlet, PulseNet, Unfolded};
use std::alloc::Global;

// A netlist with one output, and what it unfolds to.
#[derive(Clone, Copy)]
struct Row {
    drawing: Drawing,
    gates: &'static [Gate],
    end: End,
    phase_of_each: &'static [u32],
    epoch_of_each: &'static [u32],
    dros: u64,
}

static ROWS: [Row; 5] = [
    // A and not b, with one phase: a waits in a DRO.
    Row {
        drawing: Drawing {
            phases: 1,
            latency: 3,
            inputs: &[Some(0), Some(1)],
            parts: &[
                Part::Cell(Cell::Dro, 1, &[0], 2),
                Part::Cell(Cell::Not, 1, &[1], 3),
                Part::Cell(Cell::And, 2, &[2, 3], 4),
            ],
            outputs: &[Outlet::Wire(4)],
        },
        gates: &[
            (Cell::Not, &[Driver::Input(1)]),
            (Cell::And, &[Driver::Input(0), Driver::Gate(0)]),
        ],
        end: End::From(Driver::Gate(1)),
        phase_of_each: &[0, 0],
        epoch_of_each: &[1, 2],
        dros: 1,
    },
    // Four phases and a gap of four: the next epoch, at phase 0.
    Row {
        drawing: Drawing {
            phases: 4,
            latency: 2,
            inputs: &[Some(0)],
            parts: &[Part::Cell(Cell::Not, 4, &[0], 1)],
            outputs: &[Outlet::Wire(1)],
        },
        gates: &[(Cell::Not, &[Driver::Input(0)])],
        end: End::From(Driver::Gate(0)),
        phase_of_each: &[0],
        epoch_of_each: &[1],
        dros: 0,
    },
    // A gap of five, by way of a DRO.
    Row {
        drawing: Drawing {
            phases: 4,
            latency: 2,
            inputs: &[Some(0)],
            parts: &[
                Part::Cell(Cell::Dro, 4, &[0], 1),
                Part::Cell(Cell::Not, 5, &[1], 2),
            ],
            outputs: &[Outlet::Wire(2)],
        },
        gates: &[(Cell::Not, &[Driver::Input(0)])],
        end: End::From(Driver::Gate(0)),
        phase_of_each: &[1],
        epoch_of_each: &[1],
        dros: 1,
    },
    // Both sides of a splitter have its driver, a gate.
    Row {
        drawing: Drawing {
            phases: 1,
            latency: 3,
            inputs: &[Some(0)],
            parts: &[
                Part::Cell(Cell::Not, 1, &[0], 1),
                Part::Split(1, 2, 3),
                Part::Cell(Cell::Xor, 2, &[2, 3], 4),
            ],
            outputs: &[Outlet::Wire(4)],
        },
        gates: &[
            (Cell::Not, &[Driver::Input(0)]),
            (Cell::Xor, &[Driver::Gate(0), Driver::Gate(0)]),
        ],
        end: End::From(Driver::Gate(1)),
        phase_of_each: &[0, 0],
        epoch_of_each: &[1, 2],
        dros: 0,
    },
    // Two equal gates stay two.
    Row {
        drawing: Drawing {
            phases: 1,
            latency: 3,
            inputs: &[Some(0)],
            parts: &[
                Part::Split(0, 1, 2),
                Part::Cell(Cell::Not, 1, &[1], 3),
                Part::Cell(Cell::Not, 1, &[2], 4),
                Part::Cell(Cell::Or, 2, &[3, 4], 5),
            ],
            outputs: &[Outlet::Wire(5)],
        },
        gates: &[
            (Cell::Not, &[Driver::Input(0)]),
            (Cell::Not, &[Driver::Input(0)]),
            (Cell::Or, &[Driver::Gate(0), Driver::Gate(1)]),
        ],
        end: End::From(Driver::Gate(2)),
        phase_of_each: &[0, 0, 0],
        epoch_of_each: &[1, 1, 2],
        dros: 0,
    },
];

fn are_gates(gates: &[GateRow], wanted: &[Gate]) -> bool {
    gates.len() == wanted.len()
        && gates.iter().zip(wanted).all(|(gate, (cell, pins))| gate.cell == *cell
            && gate.pins.as_slice() == *pins)
}

fn is_wanted(unfolded: &Unfolded, row: &Row) -> bool {
    unfolded.gates.inputs as usize == row.drawing.inputs.len()
        && are_gates(unfolded.gates.gates.as_slice(), row.gates)
        && unfolded.gates.outputs.as_slice() == [row.end].as_slice()
        && unfolded.phases.as_slice() == row.phase_of_each
        && unfolded.epochs.gates.as_slice() == row.epoch_of_each
        && unfolded.epochs.sink == row.drawing.latency
        && unfolded.dros == row.dros
}

fn is_unfolded(alloc: Global, net: &PulseNet, row: &Row) -> Option<bool> {
    let unfolded = unfolded(alloc, net)?;
    Some(is_wanted(&unfolded, row))
}

fn is_right(alloc: Global, row: &Row) -> Option<bool> {
    let net = drawn(alloc, &row.drawing)?;
    is_unfolded(alloc, &net, row)
}

#[test]
fn pins_are_traced_back_to_their_drivers(rt: HostRuntime) {
    let alloc = rt.alloc();
    assert!(rt; ROWS.iter().all(|row| is_right(alloc, row) == Some(true)));
}
