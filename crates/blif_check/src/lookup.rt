//! Look-ups by the number of a signal: the table that drives it, and numbers that stand for it.

ghost use Rattle.std.specs.Prelude.{◌≡◌, ◌<◌, All, IfOk, length, slice_index};
ghost use Rattle.std.specs.Option.{option_copied};
ghost use Rattle.blif_model.specs.Regular.{IsTable};
ghost use Rattle.blif_model.specs.Order.{driver_of, pins_of};
ghost use Rattle.blif_check.specs.Lookup.{AreDrivers};

use blif_model::Table;
use net_base::NoMemory;
use std::alloc::Global;

/// The place of the table that drives each of so many signals, where one does. Of two tables that drive a signal it is the
/// first.
pub(crate) fn drivers(
    alloc: Global,
    names: usize,
    tables: &[Table],
) -> Result<Vec<Option<u32>>, NoMemory>
    requires named { All (IsTable names) tables.now }
    requires few { length tables.now < 4294967296 }
    ensures drivers { IfOk result (λ drivers. AreDrivers drivers.items tables.now) }
    ensures each { IfOk result (λ drivers. length drivers.items ≡ names) }
{
    let mut drivers = vec![in alloc; None; names]?;
    for (place, table) in tables.iter().enumerate() {
        let target = table.target as usize;
        if drivers[target].is_none() {
            drivers[target] = Some(place as u32);
        }
    }
    Ok(drivers)
}

/// The table that drives a signal.
pub(crate) fn driver<'a>(
    drivers: &[Option<u32>],
    tables: &'a [Table],
    signal: usize,
) -> Option<&'a Table>
    requires { AreDrivers drivers.now tables.now }
    ensures { option_copied result ≡ driver_of tables.now signal }
{
    let place = drivers.get(signal).copied().flatten()?;
    tables.get(place as usize)
}

/// The pins of the table that drives a signal, and none where no table does.
pub(crate) fn pins<'a>(drivers: &[Option<u32>], tables: &'a [Table], signal: u32) -> &'a [u32]
    requires { AreDrivers drivers.now tables.now }
    ensures { result.now ≡ pins_of (driver_of tables.now signal) }
{
    match driver(drivers, tables, signal as usize) {
        Some(table) => table.pins.as_slice(),
        None => &[],
    }
}

/// The number that stands for a signal, 0 past the last.
pub(crate) fn entry(numbers: &[u32], signal: u32) -> u32
    ensures { result ≡ slice_index numbers.now signal }
{
    numbers.get(signal as usize).copied().unwrap_or(0)
}
