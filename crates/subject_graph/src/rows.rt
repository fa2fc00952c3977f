//! Rows and tables over the signals of their pins.

ghost use Rattle.std.specs.Prelude.{◌≡◌, ◌≤◌, [], length, All, IfOk, OnOk};
ghost use Rattle.net_base.specs.Graph.{IsRefThere};
ghost use Rattle.subject_graph.specs.Answers.{Fills, Makes};
ghost use Rattle.subject_graph.specs.Tables.{with_any_row, with_literal, with_literals, with_row, with_rows, with_table};

use crate::folds::{Folding, fold};
use crate::{Builder, GraphFault};
use blif_model::{Bit, Cube, Table};
use net_base::{List, Ref};
use std::alloc::Global;

// Adds the literal of a bit.
fn push_literal(
    builder: &mut Builder,
    literals: &mut List<Ref>,
    bit: Bit,
    pin: Ref,
) -> Result<(), GraphFault>
    requires pin { IsRefThere (length builder.old.nodes) pin }
    requires literals { All (IsRefThere (length builder.old.nodes)) literals.old }
    ensures made { Fills result builder.new literals.new (with_literal (record { graph = builder.old; answer = literals.old }) bit pin) }
    ensures there { OnOk result (All (IsRefThere (length builder.new.nodes)) literals.new) }
    ensures grows { length builder.old.nodes ≤ length builder.new.nodes }
{
    match bit {
        Bit::One => literals.push(pin)?,
        Bit::Zero => {
            let complement = builder.neg(pin)?;
            literals.push(complement)?;
        }
        Bit::Any => {}
    }
    Ok(())
}

// Adds the literals of bits, from the left.
fn push_literals(
    builder: &mut Builder,
    literals: &mut List<Ref>,
    bits: &[Bit],
    pins: &[Ref],
) -> Result<(), GraphFault>
    requires fit { length bits.now ≡ length pins.now }
    requires pins { All (IsRefThere (length builder.old.nodes)) pins.now }
    requires literals { All (IsRefThere (length builder.old.nodes)) literals.old }
    ensures made { Fills result builder.new literals.new (with_literals (record { graph = builder.old; answer = literals.old }) bits.now pins.now) }
    ensures there { OnOk result (All (IsRefThere (length builder.new.nodes)) literals.new) }
    ensures grows { length builder.old.nodes ≤ length builder.new.nodes }
{
    for (place, bit) in bits.iter().enumerate() {
        push_literal(builder, literals, *bit, pins[place])?;
    }
    Ok(())
}

// The conjunction of the literals of a row.
fn row_signal(
    alloc: Global,
    builder: &mut Builder,
    pins: &[Ref],
    row: &Cube,
) -> Result<Ref, GraphFault>
    requires fit { length row.now.bits ≡ length pins.now }
    requires pins { All (IsRefThere (length builder.old.nodes)) pins.now }
    ensures made { Makes result builder.new (with_row pins.now builder.old row.now) }
    ensures there { IfOk result (IsRefThere (length builder.new.nodes)) }
    ensures grows { length builder.old.nodes ≤ length builder.new.nodes }
{
    let mut literals = List::new(alloc);
    push_literals(builder, &mut literals, row.bits.as_slice(), pins)?;
    fold(builder, Folding::All, literals.as_slice())
}

// Adds the signals of rows, in order.
fn push_rows(
    alloc: Global,
    builder: &mut Builder,
    signals: &mut List<Ref>,
    pins: &[Ref],
    rows: &[Cube],
) -> Result<(), GraphFault>
    requires fit { All (λ row. length row.bits ≡ length pins.now) rows.now }
    requires pins { All (IsRefThere (length builder.old.nodes)) pins.now }
    requires signals { All (IsRefThere (length builder.old.nodes)) signals.old }
    ensures made { Fills result builder.new signals.new (with_rows pins.now (record { graph = builder.old; answer = signals.old }) rows.now) }
    ensures there { OnOk result (All (IsRefThere (length builder.new.nodes)) signals.new) }
    ensures grows { length builder.old.nodes ≤ length builder.new.nodes }
{
    for row in rows {
        let signal = row_signal(alloc, builder, pins, row)?;
        signals.push(signal)?;
    }
    Ok(())
}

// The disjunction of rows.
fn any_row(
    alloc: Global,
    builder: &mut Builder,
    pins: &[Ref],
    rows: &[Cube],
) -> Result<Ref, GraphFault>
    requires fit { All (λ row. length row.bits ≡ length pins.now) rows.now }
    requires pins { All (IsRefThere (length builder.old.nodes)) pins.now }
    ensures made { Makes result builder.new (with_any_row pins.now builder.old rows.now) }
    ensures there { IfOk result (IsRefThere (length builder.new.nodes)) }
    ensures grows { length builder.old.nodes ≤ length builder.new.nodes }
{
    let mut signals = List::new(alloc);
    push_rows(alloc, builder, &mut signals, pins, rows)?;
    fold(builder, Folding::Any, signals.as_slice())
}

/// What a table gives over the signals of its pins.
pub(crate) fn table_signal(
    alloc: Global,
    builder: &mut Builder,
    pins: &[Ref],
    table: &Table,
) -> Result<Ref, GraphFault>
    requires fit { All (λ row. length row.bits ≡ length pins.now) table.now.rows }
    requires pins { All (IsRefThere (length builder.old.nodes)) pins.now }
    ensures made { Makes result builder.new (with_table pins.now builder.old table.now) }
    ensures there { IfOk result (IsRefThere (length builder.new.nodes)) }
    ensures grows { length builder.old.nodes ≤ length builder.new.nodes }
{
    let signal = any_row(alloc, builder, pins, table.rows.as_slice())?;
    if table.on {
        return Ok(signal);
    }
    builder.neg(signal)
}
