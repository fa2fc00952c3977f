//! Names by number.

ghost use Rattle.std.specs.Prelude.{◌≡◌, ◌<◌, ◌^◌, ◌↔◌, [], length, IsTrue, Some, IfOk, OnOk, OnErr, position, slice_get};
ghost use Rattle.std.specs.Str.{bytes_eq};
ghost use Rattle.std.specs.Cmp.{partial_equiv_from_equiv};
ghost use Rattle.std.specs.Cmp.Lexicographic.{pointwise, lists_equiv, lists_per, nat_list_eq_equiv};
ghost use Rattle.net_base.specs.Name.{IsName};
ghost use Rattle.blif_model.specs.Names.{AreDistinctNames, number_of, with_name};

use indexmap::IndexSet;
use net_base::{Name, NoMemory};
use std::alloc::Global;
use std::marker::Model;

/// Distinct names in order of first appearance, which contracts see as the list of them. The number of a name is its
/// place, counted from 0.
#[derive(Debug, Drop)]
pub struct NameTable {
    names: IndexSet<Name>,
    // Where the names that come are kept.
    alloc: Global,
}

impl Model for NameTable {
    ghost use Rattle.std.specs.Prelude.{List, ℕ, ◌≤◌, ◌^◌, length};

    ghost Value = { List (List ℕ) };

    ghost view = { λ table. table.names.keys };

    // So that each name has a u32 for its number.
    ghost invariant = { λ table. length table.names.keys ≤ 2 ^ 31 };
}

impl NameTable {
    /// No names. It takes no memory before the first name.
    pub fn new(alloc: Global) -> NameTable
        ensures { result ≡ [] }
    {
        NameTable {
            names: IndexSet::new(alloc),
            alloc,
        }
    }

    /// The number of a name, which goes last where it is new. After `NoMemory` the table is unchanged.
    pub fn number(&mut self, name: &[u8]) -> Result<u32, NoMemory>
        requires name { IsName name.now }
        requires few { length self.old < 2 ^ 31 }
        ensures number { IfOk result (λ number. number ≡ number_of name.now self.old) }
        ensures named { IfOk result (λ number. slice_get self.new number ≡ Some name.now) }
        ensures ok { OnOk result (self.new ≡ with_name name.now self.old) }
        ensures err { OnErr result (self.new ≡ self.old) }
    {
        let name = Name::of(self.alloc, name)?;
        let (number, _) = self.names.insert_full(name)?;
        Ok(number as u32)
    }

    /// The name of this number. It takes no memory.
    pub fn name(&self, number: u32) -> &Name
        requires { number < length self.now }
        ensures { slice_get self.now number ≡ Some result.now }
    {
        &self.names.as_slice()[number as usize]
    }

    /// The number of a name, where it has one. It takes no memory.
    pub fn find(&self, name: &Name) -> Option<u32>
        ensures { result ≡ position (bytes_eq name.now) self.now }
    {
        self.names.get_index_of(name).map(|number| number as u32)
    }

    /// How many names there are.
    pub fn len(&self) -> usize
        ensures { result ≡ length self.now }
    {
        self.names.len()
    }

    /// Whether there is no name.
    pub fn is_empty(&self) -> bool
        ensures { IsTrue result ↔ (self.now ≡ []) }
    {
        self.names.is_empty()
    }

    /// The names as a slice, to go over them.
    pub fn as_slice(&self) -> &[Name]
        ensures value { result.now ≡ self.now }
        ensures distinct { AreDistinctNames self.now }
    {
        self.names.as_slice()
    }
}

impl PartialEq for NameTable {
    ghost eq = { pointwise bytes_eq };

    ghost laws = { lists_per (partial_equiv_from_equiv nat_list_eq_equiv) };

    fn eq(&self, other: &NameTable) -> bool {
        self.as_slice() == other.as_slice()
    }
}

impl Eq for NameTable {
    ghost laws = { lists_equiv nat_list_eq_equiv };
}
