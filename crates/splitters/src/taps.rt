//! The taps of one driver.

ghost use Rattle.std.specs.Prelude.{◌≡◌, ◌↔◌, IsTrue, ◌+◌, ◌++◌, ◌∷◌, ◌==◌, [], ℕ, cond, max, length, OnOk};
ghost use Rattle.splitters.specs.Table.{tap_at};

use net_base::{List, NoMemory};
use std::alloc::Global;
use std::marker::Model;

/// The taps of a driver, each with the numbers of the pins that take from it.
#[derive(Drop)]
pub(crate) struct Taps {
    pins: Vec<List<u32>>,
}

impl Model for Taps {
    ghost use Rattle.std.specs.Prelude.{ℕ, List as Listed};

    ghost Value = { Listed (Listed ℕ) };

    ghost view = { λ taps. taps.pins.items };
}

// Adds taps without pins, until there is one of this need.
fn grow(alloc: Global, taps: &mut Vec<List<u32>>, need: u32) -> Result<(), NoMemory>
    ensures count { OnOk result (length taps.new.items ≡ max (length taps.old.items) (need + 1)) }
    ensures same { OnOk result ((k : ℕ) → tap_at taps.new.items k ≡ tap_at taps.old.items k) }
{
    while taps.len() <= need as usize {
        taps.push(List::new(alloc))?;
    }
    Ok(())
}

fn add(alloc: Global, taps: &mut Vec<List<u32>>, need: u32, pin: u32) -> Result<(), NoMemory>
    ensures count { OnOk result (length taps.new.items ≡ max (length taps.old.items) (need + 1)) }
    ensures pins { OnOk result ((k : ℕ) → tap_at taps.new.items k ≡ cond (need == k) (tap_at taps.old.items k ++ pin ∷ []) (tap_at taps.old.items k)) }
{
    grow(alloc, taps, need)?;
    taps[need as usize].push(pin)
}

impl Taps {
    /// No taps. It takes no memory.
    pub(crate) fn new(alloc: Global) -> Taps
        ensures { result ≡ [] }
    {
        Taps {
            pins: Vec::new(alloc),
        }
    }

    /// Adds a pin at the end of those of its need.
    pub(crate) fn add(&mut self, alloc: Global, need: u32, pin: u32) -> Result<(), NoMemory>
        ensures count { OnOk result (length self.new ≡ max (length self.old) (need + 1)) }
        ensures pins { OnOk result ((k : ℕ) → tap_at self.new k ≡ cond (need == k) (tap_at self.old k ++ pin ∷ []) (tap_at self.old k)) }
    {
        add(alloc, &mut self.pins, need, pin)
    }

    /// Whether the driver has no pin.
    pub(crate) fn is_empty(&self) -> bool
        ensures { IsTrue result ↔ (self.now ≡ []) }
    {
        self.pins.is_empty()
    }

    /// The taps in the order of their chain.
    pub(crate) fn as_slice(&self) -> &[List<u32>]
        ensures { result.now ≡ self.now }
    {
        self.pins.as_slice()
    }
}
