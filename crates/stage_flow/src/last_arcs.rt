//! Tests of lengths from the source: that they fit each residual arc, and which vertices have a last arc by which they come
//! about.

ghost use Rattle.std.specs.Prelude.{◌≡◌, ◌<◌, ◌≤◌, ℕ, pos, suc, true, false, length, IfOk, IsTrue, slice_index_or};
ghost use Rattle.stage_flow.specs.Residual.{vertex_count};
ghost use Rattle.stage_flow.specs.Given.{IsNetwork, at_vertex, count_at};
ghost use Rattle.stage_flow.specs.LawsOfSending.{IsPartFlow};
ghost use Rattle.stage_flow.specs.LawsOfEpochs.{Fits, AreLabelsFromSource};
ghost use Rattle.stage_flow.specs.Search.{way_by, HoldsAtPin, HoldsBelow, HoldsOfOne, HoldsSomewhere, IsLastInto};

use crate::incidence::{mirror, vertices};
use flow_net::{Flow, Net, Pin, Units};
use net_base::NoMemory;
use std::alloc::Global;

// Whether an arc is no longer than the lengths of its ends differ.
fn is_fitting(far: &[i64], tail: usize, head: usize, length: i64) -> bool
    ensures { IsTrue result → Fits (at_vertex far.now) (way_by tail head length) }
{
    if tail >= far.len() || head >= far.len() {
        return false;
    }
    let led = i128::from(far[tail]) + i128::from(length);
    let own = i128::from(far[head]);
    if own < led {
        return false;
    }
    true
}

// Whether the length of an arc's head comes about by the arc.
fn is_last(far: &[i64], hops: &[u32], tail: usize, head: usize, span: i64) -> bool
    ensures { IsTrue result → IsLastInto (at_vertex far.now) (count_at hops.now) (length far.now) head (way_by tail head span) }
{
    if tail >= far.len() || tail >= hops.len() || head >= far.len() || head >= hops.len() {
        return false;
    }
    let led = i128::from(far[tail]) + i128::from(span);
    let own = i128::from(far[head]);
    if led != own || u64::from(hops[tail]) + 1 != u64::from(hops[head]) {
        return false;
    }
    true
}

// Whether an arc fits, if it is residual.
fn fits(far: &[i64], tail: usize, head: usize, length: i64, is_residual: bool) -> bool
    ensures { IsTrue result → is_residual ≡ true → Fits (at_vertex far.now) (way_by tail head length) }
{
    if !is_residual {
        return true;
    }
    is_fitting(far, tail, head, length)
}

// Whether all residual arcs of a pin fit.
fn fits_pin(far: &[i64], mirror: usize, pin: &Pin, units: &Units) -> bool
    ensures { IsTrue result → HoldsAtPin (Fits (at_vertex far.now)) mirror pin.now units.now }
{
    let from = pin.from as usize;
    let to = pin.to as usize;
    let gain = i64::from(pin.weight);
    let loss = 0 - gain;
    if !is_fitting(far, from, to, gain) || !is_fitting(far, to, mirror, loss) {
        return false;
    }
    if !fits(far, to, from, loss, units.forward != 0) {
        return false;
    }
    if !fits(far, mirror, to, 0 - loss, units.back != 0) {
        return false;
    }
    true
}

// Whether all residual arcs fit.
fn fits_all(net: &Net, flow: &Flow, far: &[i64]) -> bool
    requires each { length flow.now.pins ≡ length net.now.pins }
    ensures { IsTrue result → HoldsBelow (Fits (at_vertex far.now)) net.now flow.now (length net.now.pins) }
{
    let units = flow.pins.as_slice();
    for (place, pin) in net.pins.as_slice().iter().enumerate() {
        if !fits_pin(far, mirror(net, pin), pin, &units[place]) {
            return false;
        }
    }
    true
}

// Marks the head of an arc, if the arc is residual and a last one.
fn mark(
    far: &[i64],
    hops: &[u32],
    marks: &mut [bool],
    tail: usize,
    head: usize,
    span: i64,
    is_residual: bool,
)
    ensures { (vertex : ℕ) → slice_index_or marks.new vertex false ≡ true → slice_index_or marks.old vertex false ≡ false → (is_residual ≡ true) × IsLastInto (at_vertex far.now) (count_at hops.now) (length far.now) vertex (way_by tail head span) }
{
    if is_residual && head < marks.len() && is_last(far, hops, tail, head, span) {
        marks[head] = true;
    }
}

// Marks the heads of the residual arcs of a pin that are last ones.
fn mark_pin(far: &[i64], hops: &[u32], marks: &mut [bool], mirror: usize, pin: &Pin, units: &Units)
    ensures { (vertex : ℕ) → slice_index_or marks.new vertex false ≡ true → slice_index_or marks.old vertex false ≡ false → HoldsOfOne (IsLastInto (at_vertex far.now) (count_at hops.now) (length far.now) vertex) mirror pin.now units.now }
{
    let from = pin.from as usize;
    let to = pin.to as usize;
    let gain = i64::from(pin.weight);
    let loss = 0 - gain;
    mark(far, hops, marks, from, to, gain, true);
    mark(far, hops, marks, to, from, loss, units.forward != 0);
    mark(far, hops, marks, to, mirror, loss, true);
    mark(far, hops, marks, mirror, to, 0 - loss, units.back != 0);
}

// Marks the vertices into which there is a last arc.
fn mark_all(net: &Net, flow: &Flow, far: &[i64], hops: &[u32], marks: &mut [bool])
    requires each { length flow.now.pins ≡ length net.now.pins }
    requires none { (vertex : ℕ) → slice_index_or marks.old vertex false ≡ false }
    ensures { (vertex : ℕ) → slice_index_or marks.new vertex false ≡ true → HoldsSomewhere (IsLastInto (at_vertex far.now) (count_at hops.now) (length far.now) vertex) net.now flow.now (length net.now.pins) }
{
    let units = flow.pins.as_slice();
    for (place, pin) in net.pins.as_slice().iter().enumerate() {
        mark_pin(far, hops, marks, mirror(net, pin), pin, &units[place]);
    }
}

// Marks of the vertices into which there is a last arc.
fn reached_of(
    alloc: Global,
    net: &Net,
    flow: &Flow,
    far: &[i64],
    hops: &[u32],
) -> Result<Vec<bool>, NoMemory>
    requires each { length flow.now.pins ≡ length net.now.pins }
    ensures each { IfOk result (λ marks. length marks.items ≡ length far.now) }
    ensures last { IfOk result (λ marks. (vertex : ℕ) → slice_index_or marks.items vertex false ≡ true → HoldsSomewhere (IsLastInto (at_vertex far.now) (count_at hops.now) (length far.now) vertex) net.now flow.now (length net.now.pins)) }
{
    let mut marks = vec![in alloc; false; far.len()]?;
    mark_all(net, flow, far, hops, marks.as_mut_slice());
    Ok(marks)
}

// Whether all vertices but the source are marked, and all numbers of arcs are below the number of vertices.
fn are_reached(marks: &[bool], hops: &[u32]) -> bool
    requires each { length hops.now ≡ length marks.now }
    ensures few { IsTrue result → (vertex : ℕ) → vertex < length marks.now → count_at hops.now vertex < length marks.now }
    ensures marked { IsTrue result → (vertex : ℕ) → suc vertex < length marks.now → slice_index_or marks.now (suc vertex) false ≡ true }
{
    for vertex in 0..marks.len() {
        if hops[vertex] as usize >= marks.len() {
            return false;
        }
        if vertex != 0 && !marks[vertex] {
            return false;
        }
    }
    true
}

/// Whether these are the lengths of longest walks from the source, with their numbers of arcs.
pub(crate) fn are_lengths(
    alloc: Global,
    net: &Net,
    flow: &Flow,
    far: &[i64],
    hops: &[u32],
) -> Result<bool, NoMemory>
    requires { IsPartFlow net.now flow.now }
    ensures labels { IfOk result (λ right. IsTrue right → AreLabelsFromSource net.now flow.now (at_vertex far.now) (count_at hops.now)) }
    ensures each { IfOk result (λ right. IsTrue right → (length far.now ≡ vertex_count net.now) × (length hops.now ≡ vertex_count net.now)) }
{
    let count = vertices(net);
    if far.len() != count
        || hops.len() != count
        || far[0] != 0
        || hops[0] != 0
        || !fits_all(net, flow, far)
    {
        return Ok(false);
    }
    let marks = reached_of(alloc, net, flow, far, hops)?;
    Ok(are_reached(marks.as_slice(), hops))
}
