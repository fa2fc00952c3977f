//! The first table on a cycle.

ghost use Rattle.std.specs.Prelude.{[], ◌≡◌, ◌<◌, ◌≤◌, ◌↔◌, ℕ, true, IsTrue, All, IfOk, OnOk, find, slice_index, length, nat_eq};
ghost use Rattle.std.specs.List.{IsDistinct};
ghost use Rattle.net_base.specs.Keys.{is_among};
ghost use Rattle.indexmap.specs.IndexSet.{insert_all};
ghost use Rattle.blif_model.specs.Order.{targets_of};
ghost use Rattle.blif_check.specs.Lookup.{AreDrivers};
ghost use Rattle.blif_check.specs.Cycles.{IsBelow, IsAtMost, AreRanks, ComesBack, AreReached, all_pins, first_cycle};

use crate::lookup::{entry, pins};
use blif_model::Table;
use indexmap::IndexSet;
use net_base::NoMemory;
use std::alloc::Global;

// Whether no pin of a table has a lower rank than the table.
fn is_at_most(ranks: &[u32], table: &Table) -> bool
    ensures { IsTrue result ↔ IsAtMost ranks.now table.now }
{
    let rank = entry(ranks, table.target);
    table
        .pins
        .as_slice()
        .iter()
        .all(|pin| rank <= entry(ranks, *pin))
}

// Whether each pin of a table has a higher rank than the table.
fn is_below(ranks: &[u32], table: &Table) -> bool
    ensures { IsTrue result ↔ IsBelow ranks.now table.now }
{
    let rank = entry(ranks, table.target);
    table
        .pins
        .as_slice()
        .iter()
        .all(|pin| rank < entry(ranks, *pin))
}

// Makes all ranks 0, unless no table has a higher rank than a pin of it.
fn check_ranks(ranks: &mut [u32], tables: &[Table])
    ensures { AreRanks ranks.new tables.now }
{
    if !tables.iter().all(|table| is_at_most(ranks, table)) {
        for rank in ranks.iter_mut() {
            *rank = 0;
        }
    }
}

fn reach_all(reached: &mut IndexSet<u32>, signals: &[u32]) -> Result<(), NoMemory>
    ensures { OnOk result (reached.new.keys ≡ insert_all nat_eq reached.old.keys signals.now) }
{
    for signal in signals {
        reached.insert(*signal)?;
    }
    Ok(())
}

// Adds what can be reached from what was reached, until nothing new comes.
fn reach_on(
    reached: &mut IndexSet<u32>,
    drivers: &[Option<u32>],
    tables: &[Table],
) -> Result<(), NoMemory>
    requires drivers { AreDrivers drivers.now tables.now }
    requires listed { (signal : ℕ) → is_among nat_eq signal reached.old.keys ≡ true → is_among nat_eq signal (all_pins tables.now) ≡ true }
    ensures { OnOk result (AreReached tables.now reached.old.keys reached.new.keys) }
{
    let mut next = 0;
    while next < reached.len() {
        let signal = reached.as_slice()[next];
        reach_all(reached, pins(drivers, tables, signal))?;
        next += 1;
    }
    Ok(())
}

fn reaches_itself(
    reached: &mut IndexSet<u32>,
    drivers: &[Option<u32>],
    tables: &[Table],
    signal: u32,
) -> Result<bool, NoMemory>
    requires empty { reached.old.keys ≡ [] }
    requires drivers { AreDrivers drivers.now tables.now }
    ensures { IfOk result (λ back. IsTrue back ↔ ComesBack tables.now signal) }
{
    reach_all(reached, pins(drivers, tables, signal))?;
    reach_on(reached, drivers, tables)?;
    Ok(reached.contains(&signal))
}

// Whether a walk of one step or more leads from a signal to itself.
fn comes_back(
    alloc: Global,
    drivers: &[Option<u32>],
    tables: &[Table],
    signal: u32,
) -> Result<bool, NoMemory>
    requires { AreDrivers drivers.now tables.now }
    ensures { IfOk result (λ back. IsTrue back ↔ ComesBack tables.now signal) }
{
    let mut reached = IndexSet::new(alloc);
    reaches_itself(&mut reached, drivers, tables, signal)
}

/// The line of the first table on a cycle. A table all of whose pins have higher ranks is on none, since ranks never fall
/// along a walk; from any other a search tells. Where ranks are those of components, the first search finds a cycle.
pub(crate) fn first_cycle(
    alloc: Global,
    drivers: &[Option<u32>],
    tables: &[Table],
    ranks: &mut [u32],
) -> Result<Option<u32>, NoMemory>
    requires drivers { AreDrivers drivers.now tables.now }
    requires distinct { IsDistinct nat_eq (targets_of tables.now) }
    ensures { IfOk result (λ line. line ≡ first_cycle tables.now) }
{
    check_ranks(ranks, tables);
    for table in tables {
        if !is_below(ranks, table) && comes_back(alloc, drivers, tables, table.target)? {
            return Ok(Some(table.line));
        }
    }
    Ok(None)
}
