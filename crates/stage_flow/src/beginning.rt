//! Labels to begin with, where no labels were before: right at the mirrors that want, and at every other vertex no worse than its
//! label can be. So every vertex but these mirrors is stale, and all others are put right from there.
//!
//! Over potentials that fit, a walk is no longer than the potential rises along it. So a vertex is no farther from the mirrors that
//! want than its potential is below the greatest among theirs.

ghost use Rattle.std.specs.Prelude.{◌≡◌, ◌<◌, ◌^◌, ◌-ℤ◌, ◌≤ℤ◌, ℕ, pos, cond, length, IfOk};
ghost use Rattle.stage_flow.specs.Residual.{vertex_count};
ghost use Rattle.stage_flow.specs.Given.{at_vertex};
ghost use Rattle.stage_flow.specs.Mending.{AreMarked};
ghost use Rattle.stage_flow.specs.Beginning.{IsTop, AreAtMost, AreOthers, most_at};

use crate::search::Labels;
use flow_net::Net;
use net_base::{List, NoMemory};
use std::alloc::Global;

/// No potential is less.
const LEAST: i64 = -(1 << 40);

// The greatest potential of a marked vertex.
fn top_of(marks: &[bool], potentials: &[i64]) -> i64
    requires each { length potentials.now ≡ length marks.now }
    requires high { (vertex : ℕ) → at_vertex potentials.now vertex ≤ℤ pos (2 ^ 40) }
    ensures { IsTop marks.now potentials.now result }
{
    let mut top = LEAST;
    for vertex in 0..marks.len() {
        if marks[vertex] && potentials[vertex] > top {
            top = potentials[vertex];
        }
    }
    top
}

// How far a vertex is at most: nothing where it is marked, and else as far as its potential is below the top.
fn most(is_marked: bool, top: i64, potential: i64) -> i64
    requires low { (pos 0 -ℤ pos (2 ^ 41)) ≤ℤ (top -ℤ potential) }
    requires high { (top -ℤ potential) ≤ℤ pos (2 ^ 41) }
    ensures { result ≡ cond is_marked (pos 0) (top -ℤ potential) }
{
    if is_marked { 0 } else { top - potential }
}

// How far vertices are at most.
fn first_lengths(
    alloc: Global,
    marks: &[bool],
    potentials: &[i64],
    top: i64,
) -> Result<Vec<i64>, NoMemory>
    requires each { length potentials.now ≡ length marks.now }
    requires top { IsTop marks.now potentials.now top }
    requires low { (vertex : ℕ) → (pos 0 -ℤ pos (2 ^ 40)) ≤ℤ at_vertex potentials.now vertex }
    requires high { (vertex : ℕ) → at_vertex potentials.now vertex ≤ℤ pos (2 ^ 40) }
    ensures each { IfOk result (λ far. length far.items ≡ length marks.now) }
    ensures most { IfOk result (λ far. (vertex : ℕ) → vertex < length marks.now → at_vertex far.items vertex ≡ most_at marks.now potentials.now top vertex) }
{
    let mut far: Vec<i64> = Vec::with_capacity(alloc, marks.len())?;
    for vertex in 0..marks.len() {
        far.push(most(marks[vertex], top, potentials[vertex]))?;
    }
    Ok(far)
}

/// Labels to begin with: nothing at marked vertices, and at the others as far as they can be.
pub(crate) fn first_labels(
    alloc: Global,
    marks: &[bool],
    potentials: &[i64],
) -> Result<Labels, NoMemory>
    requires each { length potentials.now ≡ length marks.now }
    requires low { (vertex : ℕ) → (pos 0 -ℤ pos (2 ^ 40)) ≤ℤ at_vertex potentials.now vertex }
    requires high { (vertex : ℕ) → at_vertex potentials.now vertex ≤ℤ pos (2 ^ 40) }
    ensures each { IfOk result (λ labels. (length labels.far ≡ length marks.now) × (length labels.hops ≡ length marks.now)) }
    ensures most { IfOk result (λ labels. AreAtMost marks.now potentials.now labels.far labels.hops) }
{
    let top = top_of(marks, potentials);
    let far = first_lengths(alloc, marks, potentials, top)?;
    let hops = vec![in alloc; 0u32; marks.len()]?;
    Ok(Labels {
        far: List::from_vec(far),
        hops: List::from_vec(hops),
    })
}

/// Marks of all vertices that these leave out.
pub(crate) fn others_of(alloc: Global, marks: &[bool]) -> Result<Vec<bool>, NoMemory>
    ensures each { IfOk result (λ others. length others.items ≡ length marks.now) }
    ensures others { IfOk result (λ others. AreOthers marks.now others.items) }
{
    let mut others = vec![in alloc; false; marks.len()]?;
    for vertex in 0..marks.len() {
        others[vertex] = !marks[vertex];
    }
    Ok(others)
}

/// The marked vertices, in order.
pub(crate) fn marked(alloc: Global, net: &Net, marks: &[bool]) -> Result<Vec<u32>, NoMemory>
    requires each { length marks.now ≡ vertex_count net.now }
    requires few { vertex_count net.now < 2 ^ 32 }
    ensures { IfOk result (λ vertices. AreMarked net.now marks.now vertices.items) }
{
    let mut vertices: Vec<u32> = Vec::new(alloc);
    for vertex in 0..marks.len() {
        if marks[vertex] {
            vertices.push(vertex as u32)?;
        }
    }
    Ok(vertices)
}
