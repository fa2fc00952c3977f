//! Whether a design is regular, in linear time.

ghost use Rattle.std.specs.Prelude.{◌≡◌, ◌<◌, ◌≤◌, ◌↔◌, IsTrue, All, IfOk, OnOk, length, not, nat_eq};
ghost use Rattle.std.specs.List.{IsDistinct};
ghost use Rattle.blif_model.specs.Regular.{AreListed, IsRegular, IsTable};

use crate::design::{Cube, Design, MAX_INPUTS, MAX_OUTPUTS, MAX_PINS, MAX_TABLES, Table};
use indexmap::IndexSet;
use net_base::NoMemory;
use std::alloc::Global;

fn are_named(names: usize, signals: &[u32]) -> bool
    ensures { IsTrue result ↔ All (λ signal. signal < names) signals.now }
{
    signals.iter().all(|signal| (*signal as usize) < names)
}

// Whether no signal stands twice.
fn are_distinct(alloc: Global, signals: &[u32]) -> Result<bool, NoMemory>
    ensures { IfOk result (λ distinct. IsTrue distinct ↔ IsDistinct nat_eq signals.now) }
{
    let mut seen = IndexSet::with_capacity(alloc, signals.len())?;
    for signal in signals {
        let (_, is_new) = seen.insert_full(*signal)?;
        if !is_new {
            return Ok(false);
        }
    }
    Ok(true)
}

fn are_listed(alloc: Global, names: usize, most: u32, signals: &[u32]) -> Result<bool, NoMemory>
    ensures { IfOk result (λ listed. IsTrue listed ↔ AreListed names most signals.now) }
{
    Ok(signals.len() <= most as usize && are_named(names, signals) && are_distinct(alloc, signals)?)
}

fn are_rows(pins: usize, rows: &[Cube]) -> bool
    ensures { IsTrue result ↔ All (λ row. length row.bits ≡ pins) rows.now }
{
    rows.iter().all(|row| row.bits.len() == pins)
}

fn is_table(names: usize, table: &Table) -> bool
    ensures { IsTrue result ↔ IsTable names table.now }
{
    (table.target as usize) < names
        && table.pins.len() <= MAX_PINS as usize
        && are_named(names, table.pins.as_slice())
        && are_rows(table.pins.len(), table.rows.as_slice())
}

fn are_tables(names: usize, tables: &[Table]) -> bool
    ensures { IsTrue result ↔ All (IsTable names) tables.now }
{
    tables.iter().all(|table| is_table(names, table))
}

/// Whether a design is regular: every signal has a name, the inputs are distinct and so are the outputs, each row has a
/// bit for each pin of its table, and the limits are kept.
pub fn is_regular(alloc: Global, design: &Design) -> Result<bool, NoMemory>
    ensures { IfOk result (λ regular. IsTrue regular ↔ IsRegular design.now) }
{
    let names = design.names.len();
    Ok(
        design.tables.len() <= MAX_TABLES as usize
            && are_tables(names, design.tables.as_slice())
            && are_listed(alloc, names, MAX_INPUTS, design.inputs.as_slice())?
            && are_listed(alloc, names, MAX_OUTPUTS, design.outputs.as_slice())?,
    )
}
