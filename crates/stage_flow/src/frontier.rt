//! The vertices that wait to be settled, by their keys.
//!
//! Most arcs have slack 0. So those with the key at hand, and those with an arc more, wait in two plain stacks, and only the
//! others in an ordered set. Nothing is promised of the order: who uses the search tests what comes of it.

use net_base::NoMemory;
use std::alloc::Global;
use std::collections::BTreeSet;
use std::mem;

/// The vertices that wait.
#[derive(Drop)]
pub(crate) struct Frontier {
    // The key at hand: a sum of slacks, and a number of arcs.
    sum: u64,
    arcs: u32,
    // Those with this key, and those with an arc more.
    current: Vec<u32>,
    next: Vec<u32>,
    // All others, with their keys.
    later: BTreeSet<(u64, u32, u32)>,
}

impl Frontier {
    /// Nobody waits, and the key is nothing.
    pub(crate) fn new(alloc: Global) -> Frontier {
        Frontier {
            sum: 0,
            arcs: 0,
            current: Vec::new(alloc),
            next: Vec::new(alloc),
            later: BTreeSet::new(alloc),
        }
    }

    /// A vertex waits with a key.
    pub(crate) fn push(&mut self, sum: u64, arcs: u32, vertex: u32) -> Result<(), NoMemory> {
        if sum == self.sum && arcs == self.arcs {
            self.current.push(vertex)?;
        } else if sum == self.sum && arcs == self.arcs.wrapping_add(1) {
            self.next.push(vertex)?;
        } else {
            self.later.insert((sum, arcs, vertex))?;
        }
        Ok(())
    }

    // Whether one of the others comes before a key.
    fn is_earlier(&self, sum: u64, arcs: u32) -> bool {
        match self.later.first() {
            Some(first) => first.0 < sum || (first.0 == sum && first.1 < arcs),
            None => false,
        }
    }

    fn pop_later(&mut self) -> Option<u32> {
        let (sum, arcs, vertex) = self.later.pop_first()?;
        self.sum = sum;
        self.arcs = arcs;
        Some(vertex)
    }

    /// The next vertex that waits, one with the least key.
    pub(crate) fn pop(&mut self) -> Option<u32> {
        if !self.current.is_empty() {
            return self.current.pop();
        }
        let arcs = self.arcs.wrapping_add(1);
        if self.next.is_empty() || self.is_earlier(self.sum, arcs) {
            return self.pop_later();
        }
        mem::swap(&mut self.current, &mut self.next);
        self.arcs = arcs;
        self.current.pop()
    }
}
