//! The level of each signal.

ghost use Rattle.std.specs.Prelude.{◌≡◌, ◌<◌, ◌≤◌, ◌^◌, ℕ, IfOk, IsTrue, map, length, slice_index};
ghost use Rattle.blif_model.specs.Order.{driver_of, largest, level_behind, level_of};
ghost use Rattle.blif_model.specs.declared.design.TheConstants.{MAX_TABLES};
ghost use Rattle.blif_model.proofs.CallerLemmas.{HasNoCycle};
ghost use Rattle.blif_check.specs.Lookup.{AreDrivers};
ghost use Rattle.blif_check.specs.Levels.{AreFew, AreAbovePins, AreLevels};

use crate::lookup::{driver, entry};
use blif_model::Table;
use net_base::NoMemory;
use std::alloc::Global;

fn largest_level(levels: &[u32], pins: &[u32]) -> u32
    requires { AreFew levels.now }
    ensures value { result ≡ largest (map (slice_index levels.now) pins.now) }
    ensures few { result < 2 ^ 31 }
{
    let mut most = 0;
    for pin in pins {
        most = most.max(entry(levels, *pin));
    }
    most
}

// The level of a signal, from those of the pins of the table that drives it.
fn level(drivers: &[Option<u32>], tables: &[Table], levels: &[u32], signal: usize) -> u32
    requires drivers { AreDrivers drivers.now tables.now }
    requires few { AreFew levels.now }
    ensures { result ≡ level_behind (slice_index levels.now) (driver_of tables.now signal) }
{
    match driver(drivers, tables, signal) {
        Some(table) => largest_level(levels, table.pins.as_slice()) + 1,
        None => 0,
    }
}

// The levels of all signals in this order of them, each from those that were found before it.
fn levels_in_order(drivers: &[Option<u32>], tables: &[Table], order: &[u32], levels: &mut [u32])
    requires drivers { AreDrivers drivers.now tables.now }
    requires tables { length tables.now ≤ MAX_TABLES }
    requires few { (signal : ℕ) → slice_index levels.old signal ≤ length tables.now }
    ensures { (signal : ℕ) → slice_index levels.new signal ≤ length tables.now }
{
    for signal in order {
        let signal = *signal as usize;
        let level = level(drivers, tables, levels, signal);
        if signal < levels.len() && level as usize <= tables.len() {
            levels[signal] = level;
        }
    }
}

// Whether each level is the one that those of the pins give.
fn are_levels(drivers: &[Option<u32>], tables: &[Table], levels: &[u32]) -> bool
    requires drivers { AreDrivers drivers.now tables.now }
    requires each { length levels.now ≡ length drivers.now }
    requires few { AreFew levels.now }
    ensures { IsTrue result → AreAbovePins levels.now tables.now }
{
    for signal in 0..levels.len() {
        if levels[signal] != level(drivers, tables, levels, signal) {
            return false;
        }
    }
    true
}

// The levels that other levels give.
fn next_levels(
    alloc: Global,
    drivers: &[Option<u32>],
    tables: &[Table],
    levels: &[u32],
) -> Result<Vec<u32>, NoMemory>
    requires drivers { AreDrivers drivers.now tables.now }
    requires few { AreFew levels.now }
    ensures { IfOk result (λ next. (signal : ℕ) → slice_index next.items signal ≡ level_behind (slice_index levels.now) (driver_of tables.now signal)) }
{
    let mut next = Vec::with_capacity(alloc, drivers.len())?;
    for signal in 0..drivers.len() {
        next.push(level(drivers, tables, levels, signal))?;
    }
    Ok(next)
}

// The levels by as many rounds as there are tables.
fn levels_by_rounds(
    alloc: Global,
    drivers: &[Option<u32>],
    tables: &[Table],
) -> Result<Vec<u32>, NoMemory>
    requires drivers { AreDrivers drivers.now tables.now }
    requires tables { length tables.now ≤ MAX_TABLES }
    ensures { IfOk result (λ levels. AreLevels levels.items tables.now) }
{
    let mut levels = vec![in alloc; 0; drivers.len()]?;
    for _round in 0..tables.len() {
        levels = next_levels(alloc, drivers, tables, levels.as_slice())?;
    }
    Ok(levels)
}

/// The levels of all signals where no table is on a cycle. `order` should list signals behind those of their drivers' pins;
/// then one round finds all levels. Levels that fit their pins are right, which is tested; if the order didn't do, rounds
/// find them.
pub(crate) fn levels(
    alloc: Global,
    drivers: &[Option<u32>],
    tables: &[Table],
    order: &[u32],
) -> Result<Vec<u32>, NoMemory>
    requires drivers { AreDrivers drivers.now tables.now }
    requires tables { length tables.now ≤ MAX_TABLES }
    requires no_cycle { HasNoCycle tables.now }
    ensures { IfOk result (λ levels. AreLevels levels.items tables.now) }
{
    let mut levels = vec![in alloc; 0; drivers.len()]?;
    levels_in_order(drivers, tables, order, &mut levels);
    if are_levels(drivers, tables, levels.as_slice()) {
        return Ok(levels);
    }
    levels_by_rounds(alloc, drivers, tables)
}
