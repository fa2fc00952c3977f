//! The search itself: vertices are settled in the order of their keys, each once.
//!
//! The key of a vertex is the least sum of slacks of a walk to it from where the search begins, and of such walks the least number
//! of arcs; the slack of a residual arc is how much more the potential rises on it than it is long. Nothing is promised of the
//! keys: who asks for lengths tests them.

use crate::arcs::Arcs;
use crate::frontier::Frontier;
use crate::incidence::{mirror, vertices};
use flow_net::{Flow, Net};
use net_base::NoMemory;
use std::alloc::Global;

// An arc with its ends, its length and its units.
#[derive(Clone, Copy)]
struct Arc {
    tail: usize,
    head: usize,
    length: i64,
    units: u32,
}

/// The keys of vertices.
#[derive(Drop)]
pub(crate) struct Keys {
    /// The least sums of slacks.
    pub(crate) sums: Vec<u64>,
    /// The least numbers of arcs.
    pub(crate) arcs: Vec<u32>,
    settled: Vec<bool>,
    frontier: Frontier,
}

/// The potential of a vertex, 0 past the last.
pub(crate) fn potential(potentials: &[i64], vertex: usize) -> i64 {
    if vertex < potentials.len() {
        potentials[vertex]
    } else {
        0
    }
}

// How much more the potential rises on an arc than it is long.
fn slack(potentials: &[i64], tail: usize, head: usize, length: i64) -> u64 {
    let rise = potential(potentials, head).wrapping_sub(potential(potentials, tail));
    let slack = rise.wrapping_sub(length);
    if slack < 0 { 0 } else { slack as u64 }
}

// The arc of a number.
fn arc_at(net: &Net, flow: &Flow, number: u32) -> Option<Arc> {
    let place = (number / 2) as usize;
    let pin = net.pins.as_slice().get(place)?;
    let units = flow.pins.as_slice().get(place)?;
    let from = pin.from as usize;
    let to = pin.to as usize;
    let weight = i64::from(pin.weight);
    if number % 2 == 0 {
        Some(Arc {
            tail: from,
            head: to,
            length: weight,
            units: units.forward,
        })
    } else {
        Some(Arc {
            tail: to,
            head: mirror(net, pin),
            length: 0 - weight,
            units: units.back,
        })
    }
}

impl Keys {
    /// No vertex has a key.
    pub(crate) fn new(alloc: Global, count: usize) -> Result<Keys, NoMemory> {
        Ok(Keys {
            sums: vec![in alloc; u64::MAX; count]?,
            arcs: vec![in alloc; u32::MAX; count]?,
            settled: vec![in alloc; false; count]?,
            frontier: Frontier::new(alloc),
        })
    }

    /// A vertex has a key, unless it has one that is no greater.
    pub(crate) fn offer(&mut self, vertex: usize, sum: u64, arcs: u32) -> Result<(), NoMemory> {
        if vertex >= self.sums.len() || vertex >= self.arcs.len() {
            return Ok(());
        }
        let own = self.sums[vertex];
        if own < sum || (own == sum && self.arcs[vertex] <= arcs) {
            return Ok(());
        }
        self.sums[vertex] = sum;
        self.arcs[vertex] = arcs;
        match u32::try_from(vertex) {
            Ok(vertex) => self.frontier.push(sum, arcs, vertex),
            Err(_) => Ok(()),
        }
    }

    // Whether a vertex is settled now, and wasn't before.
    fn settle(&mut self, vertex: usize) -> bool {
        match self.settled.get_mut(vertex) {
            Some(settled) if !*settled => {
                *settled = true;
                true
            }
            _ => false,
        }
    }

    // Offers keys over an arc at a vertex that is settled.
    fn relax(&mut self, potentials: &[i64], vertex: usize, arc: Arc) -> Result<(), NoMemory> {
        if vertex >= self.sums.len() || vertex >= self.arcs.len() {
            return Ok(());
        }
        let sum = self.sums[vertex];
        let arcs = self.arcs[vertex].wrapping_add(1);
        if arc.tail == vertex {
            let more = slack(potentials, arc.tail, arc.head, arc.length);
            self.offer(arc.head, sum.wrapping_add(more), arcs)?;
        }
        if arc.head == vertex && arc.units != 0 {
            let more = slack(
                potentials,
                arc.head,
                arc.tail,
                0i64.wrapping_sub(arc.length),
            );
            self.offer(arc.tail, sum.wrapping_add(more), arcs)?;
        }
        Ok(())
    }

    /// Settles all vertices that can be.
    pub(crate) fn settle_all(
        &mut self,
        arcs: &Arcs<'_>,
        flow: &Flow,
        potentials: &[i64],
    ) -> Result<(), NoMemory> {
        let net = arcs.net();
        let count = vertices(net);
        // A vertex waits at the start, and once for each arc that may give it a key, forwards or back.
        let most = net
            .pins
            .len()
            .saturating_mul(4)
            .saturating_add(self.sums.len());
        for _ in 0..most {
            let Some(vertex) = self.frontier.pop() else {
                break;
            };
            if self.settle(vertex as usize) && (vertex as usize) < count {
                for near in arcs.at(vertex) {
                    if let Some(arc) = arc_at(net, flow, near.code / 2) {
                        self.relax(potentials, vertex as usize, arc)?;
                    }
                }
            }
        }
        Ok(())
    }
}

/// How far each vertex is by its key, given the potential of what the search began with: all of length that the potential
/// rises, but for the slack.
pub(crate) fn lengths_by(
    alloc: Global,
    potentials: &[i64],
    start: i64,
    keys: &Keys,
) -> Result<Vec<i64>, NoMemory> {
    let mut far = Vec::with_capacity(alloc, potentials.len())?;
    for (own, sum) in potentials.iter().zip(keys.sums.as_slice()) {
        let rise = own.wrapping_sub(start);
        far.push(rise.wrapping_sub(i64::try_from(*sum).unwrap_or(i64::MAX)))?;
    }
    Ok(far)
}
