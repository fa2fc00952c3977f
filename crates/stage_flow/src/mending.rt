//! Labels that are right but at some stale vertices are put right, the least rise first.
//!
//! After a round only few labels change, and those that do get worse. A stale vertex has an offer by each residual arc to a vertex
//! that isn't stale: the label by that arc. An offer rises above the vertex' old label by what it costs more. The offer that
//! rises least is the right label of its vertex, which then isn't stale, and makes offers itself by the arcs into it.
//! Invariant: the vertices that aren't stale have their right labels, the others their old ones, and the offer of each residual
//! arc from a stale vertex to one that isn't is in the queue. The search ends as soon as no vertex is stale, however many poor
//! offers still wait.
//!
//! Source: Dijkstra's search, over what is left of costs once old labels are taken off (1959); shortest paths repaired where they
//! changed alone (Ramalingam and Reps 1996). Here the old labels are kept until new ones are known, and serve as potentials.

ghost use Rattle.std.specs.Prelude.{◌≡◌, ◌<◌, ℕ, false, length, All, IfOk, OnOk, IsTrue, MatchOption, slice_set};
ghost use Rattle.std.specs.List.{flat_map};
ghost use Rattle.stage_flow.specs.Residual.{ways_on, vertex_count};
ghost use Rattle.stage_flow.specs.LawsOfWalks.{AreLabels};
ghost use Rattle.stage_flow.specs.LawsOfSending.{IsPartFlow, SomeMirrorWants};
ghost use Rattle.stage_flow.specs.Given.{IsNetwork, at_vertex, count_at, near_arc};
ghost use Rattle.stage_flow.specs.Sending.{way_of, ways_by, ways_near};
ghost use Rattle.stage_flow.specs.Passes.{mark_at, reach_by, standing};
ghost use Rattle.stage_flow.specs.Waiting.{waiting};
ghost use Rattle.stage_flow.specs.Mending.{cost, offer_by, offers_of, AreAdded, IsFirst, NoneIsStale, IsOffered, IsOfferedBy, AreHeld, AreRightOutside, AreMarked, AreAhead};

use crate::arcs::Arcs;
use crate::offers::{Offer, Queue, is_marked};
use crate::search::Labels;
use crate::ways::{Near, Step, is_there, step_in, step_out};
use flow_net::Flow;
use net_base::{List, NoMemory};
use std::mem;

/// What a unit of length weighs: more than all arcs of a label, which are fewer than the vertices.
const WEIGHT: i128 = 1 << 32;

// What a label costs: less the better it is.
fn cost_of(far: i64, hops: u32) -> i128
    ensures { result ≡ cost (reach_by far hops) }
{
    i128::from(hops) - i128::from(far) * WEIGHT
}

// What a residual arc offers to its tail.
fn offer_over(far: &[i64], hops: &[u32], step: Step) -> Offer
    requires { IsOffered far.now hops.now (way_of step) }
    ensures { result ≡ offer_by (standing far.now hops.now) (standing far.now hops.now) (way_of step) }
{
    let tail = step.tail as usize;
    let head = step.head as usize;
    let own = cost_of(far[tail], hops[tail]);
    let led = step.length + far[head];
    let count = hops[head] + 1;
    Offer {
        gain: own - cost_of(led, count),
        far: led,
        hops: count,
        vertex: step.tail,
    }
}

// Adds the offers of the residual arcs on an arc at a vertex that lead from a stale vertex to one that isn't.
fn push_over(
    flow: &Flow,
    far: &[i64],
    hops: &[u32],
    stale: &[bool],
    vertex: u32,
    near: Near,
    queue: &mut Queue,
) -> Result<(), NoMemory>
    requires { IsOfferedBy flow.now far.now hops.now vertex near }
    ensures { OnOk result (AreAdded (offers_of (standing far.now hops.now) stale.now (ways_on flow.now (near_arc vertex near))) (waiting queue.old) (waiting queue.new)) }
{
    let leaves = is_marked(stale, vertex);
    // Where both ends are stale, or neither, no residual arc leads from a stale vertex to another.
    if leaves == is_marked(stale, near.other) {
        return Ok(());
    }
    let step = if leaves {
        step_out(vertex, near)
    } else {
        step_in(vertex, near)
    };
    if is_there(flow, step) {
        queue.push(offer_over(far, hops, step))?;
    }
    Ok(())
}

// Adds the offers of those on these arcs.
fn push_from(
    flow: &Flow,
    far: &[i64],
    hops: &[u32],
    stale: &[bool],
    vertex: u32,
    nears: &[Near],
    queue: &mut Queue,
) -> Result<(), NoMemory>
    requires { All (IsOfferedBy flow.now far.now hops.now vertex) nears.now }
    ensures { OnOk result (AreAdded (offers_of (standing far.now hops.now) stale.now (ways_by vertex flow.now nears.now)) (waiting queue.old) (waiting queue.new)) }
{
    for near in nears {
        push_over(flow, far, hops, stale, vertex, *near, queue)?;
    }
    Ok(())
}

// Adds the offers of the residual arcs at these vertices.
fn push_all(
    arcs: &Arcs<'_>,
    flow: &Flow,
    labels: &Labels,
    stale: &[bool],
    vertices: &[u32],
    queue: &mut Queue,
) -> Result<(), NoMemory>
    requires net { IsNetwork arcs.now }
    requires held { AreHeld arcs.now flow.now labels.now.far labels.now.hops stale.now }
    requires vertices { All (λ vertex. vertex < vertex_count arcs.now) vertices.now }
    ensures { OnOk result (AreAdded (flat_map (λ vertex. offers_of (standing labels.now.far labels.now.hops) stale.now (ways_near arcs.now flow.now vertex)) vertices.now) (waiting queue.old) (waiting queue.new)) }
{
    let far = labels.far.as_slice();
    let hops = labels.hops.as_slice();
    for vertex in vertices {
        let nears = arcs.at(*vertex);
        push_from(flow, far, hops, stale, *vertex, nears, queue)?;
    }
    Ok(())
}

// Whether none of these vertices is stale. Those before the place `seen` aren't, and the place moves on past others.
fn are_settled(stale: &[bool], vertices: &[u32], seen: &mut usize) -> bool
    requires { AreAhead stale.now vertices.now seen.old }
    ensures ahead { AreAhead stale.now vertices.now seen.new }
    ensures none { IsTrue result → ((vertex : ℕ) → mark_at stale.now vertex ≡ false) }
{
    while *seen < vertices.len() {
        if is_marked(stale, vertices[*seen]) {
            return false;
        }
        *seen += 1;
    }
    true
}

// The next offer, while one of these vertices is stale. Once none is, what still waits needn't be put in order any more.
fn next_offer(
    stale: &[bool],
    vertices: &[u32],
    seen: &mut usize,
    queue: &mut Queue,
) -> Option<Offer>
    requires { AreAhead stale.now vertices.now seen.old }
    ensures first { MatchOption result (NoneIsStale stale.now (waiting queue.old)) (λ offer. IsFirst stale.now (waiting queue.old) offer (waiting queue.new)) }
    ensures ahead { AreAhead stale.now vertices.now seen.new }
{
    if are_settled(stale, vertices, seen) {
        return None;
    }
    queue.next(stale)
}

// A stale vertex takes an offer, and isn't stale any more.
fn accept(far: &mut [i64], hops: &mut [u32], stale: &mut [bool], offer: Offer)
    requires far { offer.vertex < length far.old }
    requires hops { offer.vertex < length hops.old }
    requires stale { offer.vertex < length stale.old }
    ensures far { far.new ≡ slice_set far.old offer.vertex offer.far }
    ensures hops { hops.new ≡ slice_set hops.old offer.vertex offer.hops }
    ensures stale { stale.new ≡ slice_set stale.old offer.vertex false }
{
    let vertex = offer.vertex as usize;
    far[vertex] = offer.far;
    hops[vertex] = offer.hops;
    stale[vertex] = false;
}

// Puts the labels of all stale vertices right, and no vertex is stale any more. After `NoMemory` labels and marks are of no use.
fn put_right(
    arcs: &Arcs<'_>,
    flow: &Flow,
    labels: &mut Labels,
    stale: &mut [bool],
    vertices: &[u32],
    queue: &mut Queue,
) -> Result<(), NoMemory>
    requires net { IsNetwork arcs.now }
    requires flow { IsPartFlow arcs.now flow.now }
    requires wanted { SomeMirrorWants arcs.now flow.now }
    requires each { (length labels.old.far ≡ vertex_count arcs.now) × (length labels.old.hops ≡ vertex_count arcs.now) × (length stale.old ≡ vertex_count arcs.now) }
    requires right { AreRightOutside arcs.now flow.now (at_vertex labels.old.far) (count_at labels.old.hops) stale.old }
    requires marked { AreMarked arcs.now stale.old vertices.now }
    ensures labels { OnOk result (AreLabels arcs.now flow.now (at_vertex labels.new.far) (count_at labels.new.hops)) }
    ensures each { OnOk result ((length labels.new.far ≡ vertex_count arcs.now) × (length labels.new.hops ≡ vertex_count arcs.now)) }
    ensures none { OnOk result ((vertex : ℕ) → mark_at stale.new vertex ≡ false) }
    ensures length { length stale.new ≡ length stale.old }
{
    queue.clear();
    push_all(arcs, flow, labels, stale, vertices, queue)?;
    let mut far = mem::replace(&mut labels.far, List::new(queue.alloc)).into_vec();
    let mut hops = mem::replace(&mut labels.hops, List::new(queue.alloc)).into_vec();
    let mut seen = 0;
    while let Some(offer) = next_offer(stale, vertices, &mut seen, queue) {
        let vertex = offer.vertex;
        accept(far.as_mut_slice(), hops.as_mut_slice(), stale, offer);
        push_from(
            flow,
            far.as_slice(),
            hops.as_slice(),
            stale,
            vertex,
            arcs.at(vertex),
            queue,
        )?;
    }
    labels.far = List::from_vec(far);
    labels.hops = List::from_vec(hops);
    Ok(())
}

/// The right labels, from labels that are right but at the stale vertices, which stand in `vertices`; and no vertex is stale any
/// more. The queue is emptied first, and keeps its room from call to call. After `NoMemory` the marks are of no use.
pub(crate) fn settle(
    arcs: &Arcs<'_>,
    flow: &Flow,
    labels: Labels,
    stale: &mut [bool],
    vertices: &[u32],
    queue: &mut Queue,
) -> Result<Labels, NoMemory>
    requires net { IsNetwork arcs.now }
    requires flow { IsPartFlow arcs.now flow.now }
    requires wanted { SomeMirrorWants arcs.now flow.now }
    requires each { (length labels.far ≡ vertex_count arcs.now) × (length labels.hops ≡ vertex_count arcs.now) × (length stale.old ≡ vertex_count arcs.now) }
    requires right { AreRightOutside arcs.now flow.now (at_vertex labels.far) (count_at labels.hops) stale.old }
    requires marked { AreMarked arcs.now stale.old vertices.now }
    ensures labels { IfOk result (λ labels. AreLabels arcs.now flow.now (at_vertex labels.far) (count_at labels.hops)) }
    ensures each { IfOk result (λ labels. (length labels.far ≡ vertex_count arcs.now) × (length labels.hops ≡ vertex_count arcs.now)) }
    ensures none { OnOk result ((vertex : ℕ) → mark_at stale.new vertex ≡ false) }
    ensures length { length stale.new ≡ length stale.old }
{
    let mut labels = labels;
    put_right(arcs, flow, &mut labels, stale, vertices, queue)?;
    Ok(labels)
}
