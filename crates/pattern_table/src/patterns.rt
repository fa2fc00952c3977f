//! The table of least formulas.

ghost use Rattle.std.specs.Prelude.{◌≡◌, ◌≤◌, ◌*◌, ◌-◌, IfOk, OnOk, option_copied};
ghost use Rattle.pattern_table.specs.Least.{least_formula};
ghost use Rattle.pattern_table.specs.Least as spec;
ghost use Rattle.pattern_table.specs.Steps.{parts_in};
ghost use Rattle.pattern_table.specs.Levels.{AreLevels};

use crate::Formula;
use crate::heads::Part;
use crate::level::{Level, level_over};
use net_base::NoMemory;
use std::alloc::Global;
use std::marker::Model;

/// Leaves of a formula at most.
pub const MAX_SIZE: u32 = 3;
/// The depth of a formula at most.
pub const MAX_DEPTH: u32 = 4;

// The levels of all sizes and depths.
const LEVELS: usize = 12;

/// The least uniform formulas over 1 to 3 leaves of depths 1 to 4, by their tables: 72 kilobytes. Contracts see nothing of it,
/// since there is but one.
#[derive(Debug, Drop)]
pub struct Patterns {
    // By size, then by depth.
    levels: Vec<Level>,
}

impl Model for Patterns {
    ghost use Rattle.pattern_table.specs.Levels.{AreLevels};

    ghost Value = { Unit {0} };

    ghost view = { λ patterns. tt };

    ghost invariant = { λ patterns. AreLevels 12 patterns.levels.items };
}

impl Patterns {
    /// Builds the table, each depth from the one below. There may be no memory.
    pub fn new(alloc: Global) -> Result<Patterns, NoMemory> {
        let mut levels = Vec::with_capacity(alloc, LEVELS)?;
        for size in 1..=MAX_SIZE {
            add_size(alloc, &mut levels, size)?;
        }
        Ok(Patterns { levels })
    }

    /// The least uniform formula with this table of `size` leaves, 1 to 3, and of this depth, 1 to 4: its head. None exactly where no
    /// uniform formula of that depth over that many leaves has the table. It takes no memory.
    pub fn least(&self, size: u32, table: u8, depth: u32) -> Option<&Formula>
        requires size { (1 ≤ size) × (size ≤ 3) }
        requires depth { (1 ≤ depth) × (depth ≤ 4) }
        ensures { option_copied result ≡ least_formula size table depth }
    {
        let level = (size - 1) * MAX_DEPTH + (depth - 1);
        self.levels[level as usize][table as usize].as_ref()
    }
}

// Adds the levels of a size, each over the depth below.
fn add_size(alloc: Global, levels: &mut Vec<Level>, size: u32) -> Result<(), NoMemory>
    requires size { (1 ≤ size) × (size ≤ 3) }
    requires levels { AreLevels ((size - 1) * 4) levels.old.items }
    ensures { OnOk result (AreLevels (size * 4) levels.new.items) }
{
    let mut parts = leaf_parts(alloc, size)?;
    for depth in 0..MAX_DEPTH {
        let level = level_over(parts.as_slice());
        parts = parts_of(alloc, &level)?;
        levels.push(level)?;
    }
    Ok(())
}

// The leaves, which cost nothing.
fn leaf_parts(alloc: Global, size: u32) -> Result<Vec<Part>, NoMemory>
    requires { size ≤ 3 }
    ensures { IfOk result (λ parts. parts.items ≡ spec.leaf_parts size) }
{
    let mut parts = Vec::with_capacity(alloc, 3)?;
    for table in &[0xAA, 0xCC, 0xF0][..size as usize] {
        parts.push(Part {
            table: *table,
            cost: 0,
        })?;
    }
    Ok(parts)
}

// The tables that a level has, with their least costs.
fn parts_of(alloc: Global, level: &Level) -> Result<Vec<Part>, NoMemory>
    ensures { IfOk result (λ parts. parts.items ≡ parts_in level.now) }
{
    let mut parts = Vec::with_capacity(alloc, 256)?;
    for (table, least) in level.iter().enumerate() {
        if let Some(head) = least {
            parts.push(Part {
                table: table as u8,
                cost: head.cost,
            })?;
        }
    }
    Ok(parts)
}
