//! Labels of marked vertices near a sender are raised by a few arcs each.
//!
//! A label that is marked may be too good. A search from the sender (`heights`) says by how many arcs those near it are: each by
//! its height above the floor. Whether all residual arcs still fit then is tested before any label is touched, so nothing rests
//! on how the search went. Lengths stay as they are, and so do all labels that aren't marked.

ghost use Rattle.std.specs.Prelude.{◌≡◌, ◌<◌, ◌/◌, ◌^◌, ℕ, true, All, IsTrue, length, OnOk, IfOk};
ghost use Rattle.stage_flow.specs.Residual.{ways_on, ways_of, vertex_count};
ghost use Rattle.stage_flow.specs.Given.{IsNetwork, at_vertex, count_at, near_arc};
ghost use Rattle.stage_flow.specs.Sending.{ways_by, IsRead, AreRead};
ghost use Rattle.stage_flow.specs.Passes.{mark_at};
ghost use Rattle.stage_flow.specs.Staleness.{AreKept};
ghost use Rattle.stage_flow.specs.Raising.{lifted, AreTracked, AreAtRest, StaysFitting, MayRise, AreKeptBut};

use crate::arcs::Arcs;
use crate::heights::{ABOVE_ALL, Room, is_level, search};
use crate::search::Labels;
use crate::ways::{Near, is_there, step_out};
use flow_net::Flow;
use net_base::{List, NoMemory};

// The number of arcs of a raised label.
fn raised(hops: &[u32], heights: &[u32], floor: u32, vertex: u32) -> u64
    requires hops { vertex < length hops.now }
    requires heights { vertex < length heights.now }
    ensures { result ≡ lifted (count_at hops.now) heights.now floor vertex }
{
    let vertex = vertex as usize;
    u64::from(hops[vertex]) + u64::from(heights[vertex].saturating_sub(floor))
}

// Whether the residual arc on an arc that leaves a vertex still fits labels once they are raised, if it did before.
fn stays_fitting(
    flow: &Flow,
    labels: &Labels,
    heights: &[u32],
    floor: u32,
    vertex: u32,
    near: Near,
) -> bool
    requires read { IsRead flow.now labels.now.far labels.now.hops vertex near }
    requires heights { length heights.now ≡ length labels.now.hops }
    ensures { IsTrue result → All (StaysFitting (at_vertex labels.now.far) (count_at labels.now.hops) heights.now floor vertex) (ways_on flow.now (near_arc vertex near)) }
{
    let step = step_out(vertex, near);
    let hops = labels.hops.as_slice();
    // Counts of arcs lie closer together than lengths and units, and tell most arcs that fit.
    if raised(hops, heights, floor, step.tail) <= raised(hops, heights, floor, step.head) + 1 {
        return true;
    }
    // An arc that isn't level fits whatever the numbers of arcs are.
    !is_level(labels, step) || !is_there(flow, step)
}

// Whether those on these arcs do.
fn stay_fitting_from(
    flow: &Flow,
    labels: &Labels,
    heights: &[u32],
    floor: u32,
    vertex: u32,
    nears: &[Near],
) -> bool
    requires read { All (IsRead flow.now labels.now.far labels.now.hops vertex) nears.now }
    requires heights { length heights.now ≡ length labels.now.hops }
    ensures { IsTrue result → All (StaysFitting (at_vertex labels.now.far) (count_at labels.now.hops) heights.now floor vertex) (ways_by vertex flow.now nears.now) }
{
    for near in nears {
        if !stays_fitting(flow, labels, heights, floor, vertex, *near) {
            return false;
        }
    }
    true
}

// Whether a vertex may rise.
fn may_rise(
    arcs: &Arcs<'_>,
    flow: &Flow,
    labels: &Labels,
    marks: &[bool],
    heights: &[u32],
    floor: u32,
    vertex: u32,
) -> bool
    requires read { AreRead arcs.now flow.now labels.now.far labels.now.hops }
    requires marks { length marks.now ≡ vertex_count arcs.now }
    requires heights { length heights.now ≡ vertex_count arcs.now }
    requires vertex { vertex < vertex_count arcs.now }
    ensures { IsTrue result → MayRise arcs.now flow.now (at_vertex labels.now.far) (count_at labels.now.hops) marks.now heights.now floor vertex }
{
    if heights[vertex as usize] <= floor {
        return true;
    }
    if !marks[vertex as usize] {
        return false;
    }
    if raised(labels.hops.as_slice(), heights, floor, vertex) >= marks.len() as u64 {
        return false;
    }
    let nears = arcs.at(vertex);
    stay_fitting_from(flow, labels, heights, floor, vertex, nears)
}

// Whether all these vertices may.
fn may_all_rise(
    arcs: &Arcs<'_>,
    flow: &Flow,
    labels: &Labels,
    marks: &[bool],
    heights: &[u32],
    reached: &[u32],
    floor: u32,
) -> bool
    requires read { AreRead arcs.now flow.now labels.now.far labels.now.hops }
    requires marks { length marks.now ≡ vertex_count arcs.now }
    requires heights { length heights.now ≡ vertex_count arcs.now }
    requires reached { All (λ vertex. vertex < vertex_count arcs.now) reached.now }
    ensures { IsTrue result → All (MayRise arcs.now flow.now (at_vertex labels.now.far) (count_at labels.now.hops) marks.now heights.now floor) reached.now }
{
    for vertex in reached {
        if !may_rise(arcs, flow, labels, marks, heights, floor, *vertex) {
            return false;
        }
    }
    true
}

// The floor that was found, if all vertices above it may rise, or one that no vertex is above.
fn tested_floor(
    arcs: &Arcs<'_>,
    flow: &Flow,
    labels: &Labels,
    marks: &[bool],
    heights: &[u32],
    reached: &[u32],
    floor: u32,
) -> u32
    requires read { AreRead arcs.now flow.now labels.now.far labels.now.hops }
    requires marks { length marks.now ≡ vertex_count arcs.now }
    requires heights { length heights.now ≡ vertex_count arcs.now }
    requires tracked { AreTracked heights.now reached.now }
    ensures { (vertex : ℕ) → MayRise arcs.now flow.now (at_vertex labels.now.far) (count_at labels.now.hops) marks.now heights.now result vertex }
{
    if may_all_rise(arcs, flow, labels, marks, heights, reached, floor) {
        return floor;
    }
    ABOVE_ALL
}

// Raises all vertices that were reached by their heights above the floor, and puts heights at rest.
fn raise_all(hops: &mut [u32], heights: &mut [u32], reached: &[u32], floor: u32)
    requires tracked { AreTracked heights.old reached.now }
    requires each { length hops.old ≡ length heights.old }
    requires few { (vertex : ℕ) → lifted (count_at hops.old) heights.old floor vertex < 2 ^ 32 }
    ensures each { (length hops.new ≡ length hops.old) × (length heights.new ≡ length heights.old) }
    ensures raised { (vertex : ℕ) → count_at hops.new vertex ≡ lifted (count_at hops.old) heights.old floor vertex }
    ensures rest { (vertex : ℕ) → count_at heights.new vertex ≡ 0 }
{
    for vertex in reached {
        let vertex = *vertex as usize;
        hops[vertex] += heights[vertex].saturating_sub(floor);
        heights[vertex] = 0;
    }
}

/// Raises labels of marked vertices near a vertex. Marked vertices are dead then but for some of those in `room.reached`.
pub(crate) fn raise(
    arcs: &Arcs<'_>,
    flow: &Flow,
    labels: Labels,
    marks: &[bool],
    from: u32,
    room: &mut Room,
) -> Result<Labels, NoMemory>
    requires net { IsNetwork arcs.now }
    requires units { length flow.now.pins ≡ length arcs.now.pins }
    requires each { (length labels.far ≡ vertex_count arcs.now) × (length labels.hops ≡ vertex_count arcs.now) × (length marks.now ≡ vertex_count arcs.now) }
    requires kept { AreKept arcs.now flow.now (at_vertex labels.far) (count_at labels.hops) marks.now }
    requires from { from < vertex_count arcs.now }
    requires rest { AreAtRest arcs.now room.old.heights.items }
    ensures kept { IfOk result (λ labels. AreKeptBut arcs.now flow.now (at_vertex labels.far) (count_at labels.hops) marks.now room.new.reached.items) }
    ensures each { IfOk result (λ labels. (length labels.far ≡ vertex_count arcs.now) × (length labels.hops ≡ vertex_count arcs.now)) }
    ensures low { OnOk result (All (λ vertex. vertex < vertex_count arcs.now) room.new.reached.items) }
    ensures rest { OnOk result (AreAtRest arcs.now room.new.heights.items) }
{
    let floor = search(arcs, flow, &labels, marks, from, room)?;
    let heights = room.heights.as_slice();
    let reached = room.reached.as_slice();
    let floor = tested_floor(arcs, flow, &labels, marks, heights, reached, floor);
    let Labels { far, hops } = labels;
    let mut hops = hops.into_vec();
    raise_all(
        hops.as_mut_slice(),
        room.heights.as_mut_slice(),
        room.reached.as_slice(),
        floor,
    );
    Ok(Labels {
        far,
        hops: List::from_vec(hops),
    })
}
