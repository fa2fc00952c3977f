//! The gates of a netlist in order, with an index that finds the first gate equal to a given one.

ghost use Rattle.std.specs.Prelude.{◌≡◌, ◌<◌, ◌^◌, ◌↔◌, [], ◌∷◌, ◌++◌, length, IsTrue, Some, IfOk, OnOk, OnErr, slice_get};
ghost use Rattle.std.specs.HashMap.{spare};
ghost use Rattle.gate_net.specs.Rows.{first_place, NotesPlace};

use crate::GateRow;
use net_base::List;
use std::alloc::{AllocError, Global};
use std::collections::HashMap;
use std::marker::Model;

/// Gates in order, equal ones allowed, which contracts see as the list of rows.
#[derive(Debug, Drop)]
pub struct Gates {
    rows: List<GateRow>,
    // From a row to its first place.
    index: HashMap<GateRow, u32>,
}

impl Model for Gates {
    ghost use Rattle.std.specs.Prelude.{List as Listed};
    ghost use Rattle.gate_net.specs.declared.row.GateRow.{GateRow as Row};
    ghost use Rattle.gate_net.specs.Rows.{FindsFirst};

    ghost Value = { Listed Row };

    ghost view = { λ gates. gates.rows };

    ghost invariant = { λ gates. FindsFirst ⟦<GateRow as PartialEq>⟧.eq gates.index gates.rows };
}

fn copy_of(row: &GateRow) -> Result<GateRow, AllocError>
    ensures { IfOk result (λ copy. copy ≡ row.now) }
{
    row.clone()
}

// The room is there, so the insertion can't fail.
fn note_place(index: &mut HashMap<GateRow, u32>, row: GateRow, place: u32)
    requires { 0 < spare index.old }
    ensures { NotesPlace ⟦<GateRow as PartialEq>⟧.eq index.old index.new row place }
{
    let _ = index.insert(row, place);
}

impl Gates {
    /// No gates. It takes no memory before the first push.
    pub fn new(alloc: Global) -> Gates
        ensures { result ≡ [] }
    {
        Gates {
            rows: List::new(alloc),
            index: HashMap::new(alloc),
        }
    }

    /// Adds a gate at the end, an equal one or not. After `NoMemory` the gates are unchanged, and the row is gone.
    pub fn push(&mut self, row: GateRow) -> Result<(), AllocError>
        requires { length self.old < 2 ^ 31 }
        ensures ok { OnOk result (self.new ≡ self.old ++ row ∷ []) }
        ensures err { OnErr result (self.new ≡ self.old) }
    {
        if self.find(&row).is_some() {
            self.rows.push(row)?;
            return Ok(());
        }
        // The index has room before the row is there, so that a failure leaves both as they were.
        self.index.reserve(1)?;
        let place = self.rows.len() as u32;
        let key = copy_of(&row)?;
        self.rows.push(row)?;
        note_place(&mut self.index, key, place);
        Ok(())
    }

    /// The place of the first gate that is equal to this one.
    pub fn find(&self, row: &GateRow) -> Option<u32>
        ensures { result ≡ first_place row.now self.now }
    {
        self.index.get(row).copied()
    }

    /// How many gates there are.
    pub fn len(&self) -> usize
        ensures { result ≡ length self.now }
    {
        self.rows.len()
    }

    /// Whether there is no gate.
    pub fn is_empty(&self) -> bool
        ensures { IsTrue result ↔ (self.now ≡ []) }
    {
        self.rows.is_empty()
    }

    /// The gate at a place, counted from 0.
    pub fn get(&self, i: usize) -> &GateRow
        requires { i < length self.now }
        ensures { slice_get self.now i ≡ Some result.now }
    {
        self.rows.get(i)
    }

    /// The gates as a slice, to go over them.
    pub fn as_slice(&self) -> &[GateRow]
        ensures { result.now ≡ self.now }
    {
        self.rows.as_slice()
    }
}
