//! The order of a design.

ghost use Rattle.std.specs.Prelude.{◌≡◌, ◌≤◌, Ok, All, IfOk, length, nat_eq};
ghost use Rattle.std.specs.List.{IsDistinct};
ghost use Rattle.net_base.specs.Answers.{Gives};
ghost use Rattle.blif_model.specs.declared.design.TheConstants.{MAX_TABLES};
ghost use Rattle.blif_model.specs.Regular.{IsRegular, IsTable};
ghost use Rattle.blif_model.specs.Order.{targets_of, places_by_level, table_order, unless};
ghost use Rattle.blif_check.specs.Check.{told, cycle_refusal};
ghost use Rattle.blif_check.specs.Lookup.{AreDrivers};

use crate::by_level::by_level;
use crate::cycles::first_cycle;
use crate::drivers::check_drivers;
use crate::fault::OrderFault;
use crate::levels::levels;
use crate::lookup::drivers;
use crate::ranks::{Search, search_by_depth};
use blif_model::{Design, Ordered, Table};
use net_base::List;
use std::alloc::Global;

// The places of all tables by what a search left, unless a table is on a cycle.
fn places_by_search(
    alloc: Global,
    drivers: &[Option<u32>],
    tables: &[Table],
    search: &mut Search,
) -> Result<List<u32>, OrderFault>
    requires drivers { AreDrivers drivers.now tables.now }
    requires few { length tables.now ≤ MAX_TABLES }
    requires distinct { IsDistinct nat_eq (targets_of tables.now) }
    ensures { Gives (λ places. Ok places) told result (unless (cycle_refusal tables.now) (places_by_level tables.now)) }
{
    if let Some(line) = first_cycle(alloc, drivers, tables, &mut search.ranks)? {
        return Err(OrderFault::Cycle(line));
    }
    let levels = levels(alloc, drivers, tables, search.done.as_slice())?;
    Ok(by_level(alloc, levels.as_slice(), tables)?)
}

// The places of tables of which no two drive one signal, unless a table is on a cycle.
fn places(alloc: Global, names: usize, tables: &[Table]) -> Result<List<u32>, OrderFault>
    requires named { All (IsTable names) tables.now }
    requires few { length tables.now ≤ MAX_TABLES }
    requires distinct { IsDistinct nat_eq (targets_of tables.now) }
    ensures { Gives (λ places. Ok places) told result (unless (cycle_refusal tables.now) (places_by_level tables.now)) }
{
    let drivers = drivers(alloc, names, tables)?;
    let mut search = search_by_depth(alloc, drivers.as_slice(), tables)?;
    places_by_search(alloc, drivers.as_slice(), tables, &mut search)
}

fn order_of(alloc: Global, design: &Design) -> Result<List<u32>, OrderFault>
    requires { IsRegular design.now }
    ensures { Gives (λ places. Ok places) told result (table_order design.now) }
{
    check_drivers(alloc, design)?;
    places(alloc, design.names.len(), design.tables.as_slice())
}

/// A regular design with the places of its tables by level, and within a level in the order of the text, so that each table
/// stands behind those that drive its pins; or what refuses an order first: a table whose target is an input or an earlier
/// table's, else a signal that is used and not driven, else a table on a cycle. It takes linear time in pins and tables.
pub fn order(alloc: Global, design: Design) -> Result<Ordered, OrderFault>
    requires { IsRegular design }
    ensures ordered { Gives (λ ordered. Ok ordered.order) told result (table_order design) }
    ensures design { IfOk result (λ ordered. ordered.design ≡ design) }
{
    let order = order_of(alloc, &design)?;
    Ok(Ordered { design, order })
}
