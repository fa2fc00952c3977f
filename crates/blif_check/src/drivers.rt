//! What drives the signals: the first that is driven twice, and the first that is used and not driven.

ghost use Rattle.std.specs.Prelude.{◌≡◌, ◌<◌, ◌++◌, ◌||◌, ℕ, false, not, None, All, IfSome, IfNone, IfOk, length, find, slice_index_or, nat_eq};
ghost use Rattle.std.specs.List.{flat_map};
ghost use Rattle.net_base.specs.Answers.{Gives};
ghost use Rattle.net_base.specs.Keys.{is_among};
ghost use Rattle.blif_model.specs.Regular.{IsRegular, IsTable};
ghost use Rattle.blif_model.specs.Order.{targets_of, driven_twice, name_of};
ghost use Rattle.blif_check.specs.Check.{first_unmarked, tells, driver_refusal};

use crate::fault::OrderFault;
use blif_model::{Design, Table};
use net_base::{Name, NoMemory};
use std::alloc::Global;

fn mark_all(marks: &mut [bool], signals: &[u32])
    requires { All (λ signal. signal < length marks.old) signals.now }
    ensures { (signal : ℕ) → slice_index_or marks.new signal false ≡ (slice_index_or marks.old signal false || is_among nat_eq signal signals.now) }
{
    for signal in signals {
        marks[*signal as usize] = true;
    }
}

// Marks each input and each target, up to the first target that is marked already, and answers it.
fn mark_drivers(marks: &mut [bool], inputs: &[u32], tables: &[Table]) -> Option<u32>
    requires clear { (signal : ℕ) → slice_index_or marks.old signal false ≡ false }
    requires inputs { All (λ signal. signal < length marks.old) inputs.now }
    requires tables { All (IsTable (length marks.old)) tables.now }
    ensures twice { result ≡ driven_twice inputs.now (targets_of tables.now) }
    ensures named { IfSome result (λ signal. signal < length marks.old) }
    ensures marked { IfNone result ((signal : ℕ) → slice_index_or marks.new signal false ≡ is_among nat_eq signal (inputs.now ++ targets_of tables.now)) }
{
    mark_all(marks, inputs);
    for table in tables {
        if marks[table.target as usize] {
            return Some(table.target);
        }
        marks[table.target as usize] = true;
    }
    None
}

fn first_unmarked(marks: &[bool], signals: &[u32]) -> Option<u32>
    requires { All (λ signal. signal < length marks.now) signals.now }
    ensures first { result ≡ first_unmarked marks.now signals.now }
    ensures named { IfSome result (λ signal. signal < length marks.now) }
{
    for signal in signals {
        if !marks[*signal as usize] {
            return Some(*signal);
        }
    }
    None
}

// The first pin or output that isn't marked.
fn undriven_signal(marks: &[bool], tables: &[Table], outputs: &[u32]) -> Option<u32>
    requires tables { All (IsTable (length marks.now)) tables.now }
    requires outputs { All (λ signal. signal < length marks.now) outputs.now }
    ensures first { result ≡ first_unmarked marks.now (flat_map (λ table. table.pins) tables.now ++ outputs.now) }
    ensures named { IfSome result (λ signal. signal < length marks.now) }
{
    for table in tables {
        let signal = first_unmarked(marks, table.pins.as_slice());
        if signal.is_some() {
            return signal;
        }
    }
    first_unmarked(marks, outputs)
}

fn name_of(alloc: Global, design: &Design, signal: u32) -> Result<Name, NoMemory>
    requires { signal < length design.now.names }
    ensures { IfOk result (λ name. name ≡ name_of design.now signal) }
{
    Name::of(alloc, design.names.name(signal).bytes())
}

fn check_marked(alloc: Global, design: &Design, marks: &mut [bool]) -> Result<(), OrderFault>
    requires regular { IsRegular design.now }
    requires each { length marks.old ≡ length design.now.names }
    requires clear { (signal : ℕ) → slice_index_or marks.old signal false ≡ false }
    ensures { Gives (λ _. None) tells result (driver_refusal design.now) }
{
    let tables = design.tables.as_slice();
    if let Some(signal) = mark_drivers(marks, design.inputs.as_slice(), tables) {
        return Err(OrderFault::DuplicateDriver(name_of(alloc, design, signal)?));
    }
    if let Some(signal) = undriven_signal(marks, tables, design.outputs.as_slice()) {
        return Err(OrderFault::Undriven(name_of(alloc, design, signal)?));
    }
    Ok(())
}

/// Refuses a design in which a signal is driven twice, or used and not driven.
pub(crate) fn check_drivers(alloc: Global, design: &Design) -> Result<(), OrderFault>
    requires { IsRegular design.now }
    ensures { Gives (λ _. None) tells result (driver_refusal design.now) }
{
    let mut marks = vec![in alloc; false; design.names.len()]?;
    check_marked(alloc, design, &mut marks)
}
