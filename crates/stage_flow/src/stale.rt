//! The vertices whose labels a round leaves stale.
//!
//! A label stands as long as a tight arc leads on to a vertex whose label stands, or the vertex wants a unit. The round took arcs
//! away along its path alone, and its receiver wants no more. So these vertices are looked at first; where one is found stale, so
//! are the tails of the tight arcs into it. Each vertex is marked once, and only arcs at vertices that were looked at are read.
//! Those that were marked before stay so.

ghost use Rattle.std.specs.Prelude.{◌≡◌, ◌<◌, ◌/◌, ◌++◌, ◌==◌, ◌&&◌, ◌⊎◌, ℕ, [], ◌∷◌, true, false, not, All, Any, Contains, IsTrue, length, OnOk, IfSome, Some, None};
ghost use Rattle.stage_flow.specs.Residual.{ways_on, ways_of, vertex_count};
ghost use Rattle.stage_flow.specs.Rounds.{is_wanting};
ghost use Rattle.stage_flow.specs.LawsOfWalks.{IsFitting};
ghost use Rattle.stage_flow.specs.Given.{at_vertex, count_at, near_arc};
ghost use Rattle.stage_flow.specs.Sending.{ways_by, IsRead, AreRead};
ghost use Rattle.stage_flow.specs.Passes.{mark_at};
ghost use Rattle.stage_flow.specs.Mending.{IsSound, AreMarked};
ghost use Rattle.stage_flow.specs.Staleness.{SayWhoWaits, LeadsAway, NoneLeadsAway, leads_to, tails_of, AreSpread};

use crate::arcs::Arcs;
use crate::offers::is_marked;
use crate::search::Labels;
use crate::ways::{Near, is_there, is_tight, step_in, step_out};
use flow_net::Flow;
use net_base::NoMemory;

// Whether the residual arc on an arc that leaves a vertex is tight, and leads on to one that isn't marked.
fn leads_away(flow: &Flow, labels: &Labels, marks: &[bool], vertex: u32, near: Near) -> bool
    requires read { IsRead flow.now labels.now.far labels.now.hops vertex near }
    ensures away { IsTrue result → Any (LeadsAway (at_vertex labels.now.far) (count_at labels.now.hops) marks.now vertex) (ways_on flow.now (near_arc vertex near)) }
    ensures none { result ≡ false → NoneLeadsAway (at_vertex labels.now.far) (count_at labels.now.hops) marks.now vertex (ways_on flow.now (near_arc vertex near)) }
{
    let step = step_out(vertex, near);
    if is_marked(marks, step.head) {
        return false;
    }
    // Units lie farther apart than labels, and are read last.
    is_tight(labels, step) && is_there(flow, step)
}

/// Whether one of the residual arcs on these arcs that leave a vertex is tight, and leads on to one that isn't marked.
pub(crate) fn leads_away_from(
    flow: &Flow,
    labels: &Labels,
    marks: &[bool],
    vertex: u32,
    nears: &[Near],
) -> bool
    requires read { All (IsRead flow.now labels.now.far labels.now.hops vertex) nears.now }
    ensures away { IsTrue result → Any (LeadsAway (at_vertex labels.now.far) (count_at labels.now.hops) marks.now vertex) (ways_by vertex flow.now nears.now) }
    ensures none { result ≡ false → NoneLeadsAway (at_vertex labels.now.far) (count_at labels.now.hops) marks.now vertex (ways_by vertex flow.now nears.now) }
{
    for near in nears {
        if leads_away(flow, labels, marks, vertex, *near) {
            return true;
        }
    }
    false
}

// Whether a vertex wants a unit after the round.
fn waits(labels: &Labels, served: u32, vertex: u32) -> bool
    requires { vertex < length labels.now.hops }
    ensures { result ≡ ((count_at labels.now.hops vertex == 0) && not (vertex == served)) }
{
    *labels.hops.get(vertex as usize) == 0 && vertex != served
}

// Whether a vertex is sound.
fn is_sound(
    arcs: &Arcs<'_>,
    flow: &Flow,
    labels: &Labels,
    marks: &[bool],
    served: u32,
    vertex: u32,
) -> bool
    requires read { AreRead arcs.now flow.now labels.now.far labels.now.hops }
    requires marks { length marks.now ≡ vertex_count arcs.now }
    requires waits { SayWhoWaits arcs.now flow.now (count_at labels.now.hops) marks.now served }
    requires vertex { vertex < vertex_count arcs.now }
    requires unmarked { mark_at marks.now vertex ≡ false }
    ensures sound { IsTrue result → IsSound arcs.now flow.now (at_vertex labels.now.far) (count_at labels.now.hops) marks.now vertex }
    ensures wants { is_wanting arcs.now flow.now vertex ≡ true → IsTrue result }
    ensures none { result ≡ false → NoneLeadsAway (at_vertex labels.now.far) (count_at labels.now.hops) marks.now vertex (ways_of arcs.now flow.now) }
{
    if waits(labels, served, vertex) {
        return true;
    }
    leads_away_from(flow, labels, marks, vertex, arcs.at(vertex))
}

// Whether a vertex is stale, and isn't marked yet.
fn is_newly_stale(
    arcs: &Arcs<'_>,
    flow: &Flow,
    labels: &Labels,
    marks: &[bool],
    served: u32,
    vertex: u32,
) -> bool
    requires read { AreRead arcs.now flow.now labels.now.far labels.now.hops }
    requires marks { length marks.now ≡ vertex_count arcs.now }
    requires waits { SayWhoWaits arcs.now flow.now (count_at labels.now.hops) marks.now served }
    requires vertex { vertex < vertex_count arcs.now }
    ensures stale { IsTrue result → (mark_at marks.now vertex ≡ false) × (is_wanting arcs.now flow.now vertex ≡ false) × NoneLeadsAway (at_vertex labels.now.far) (count_at labels.now.hops) marks.now vertex (ways_of arcs.now flow.now) }
    ensures other { result ≡ false → (mark_at marks.now vertex ≡ true) ⊎ IsSound arcs.now flow.now (at_vertex labels.now.far) (count_at labels.now.hops) marks.now vertex }
{
    if marks[vertex as usize] {
        return false;
    }
    !is_sound(arcs, flow, labels, marks, served, vertex)
}

// The next of the vertices to be looked at that isn't sound, and isn't marked yet.
fn next_stale(
    arcs: &Arcs<'_>,
    flow: &Flow,
    labels: &Labels,
    marks: &[bool],
    served: u32,
    pending: &mut Vec<u32>,
) -> Option<u32>
    requires read { AreRead arcs.now flow.now labels.now.far labels.now.hops }
    requires marks { length marks.now ≡ vertex_count arcs.now }
    requires waits { SayWhoWaits arcs.now flow.now (count_at labels.now.hops) marks.now served }
    requires low { All (λ vertex. vertex < vertex_count arcs.now) pending.old.items }
    ensures found { IfSome result (λ vertex. (vertex < vertex_count arcs.now) × (mark_at marks.now vertex ≡ false) × (is_wanting arcs.now flow.now vertex ≡ false) × NoneLeadsAway (at_vertex labels.now.far) (count_at labels.now.hops) marks.now vertex (ways_of arcs.now flow.now)) }
    ensures low { All (λ vertex. vertex < vertex_count arcs.now) pending.new.items }
    ensures looked { (vertex : ℕ) → Contains pending.old.items vertex → Contains pending.new.items vertex ⊎ ((result ≡ Some vertex) ⊎ ((mark_at marks.now vertex ≡ true) ⊎ IsSound arcs.now flow.now (at_vertex labels.now.far) (count_at labels.now.hops) marks.now vertex)) }
    ensures none { result ≡ None → pending.new.items ≡ [] }
{
    while let Some(vertex) = pending.pop() {
        if is_newly_stale(arcs, flow, labels, marks, served, vertex) {
            return Some(vertex);
        }
    }
    None
}

// Adds the tail of the residual arc on an arc that enters a vertex to those to be looked at, if it is tight.
fn push_tail(
    flow: &Flow,
    labels: &Labels,
    vertex: u32,
    near: Near,
    pending: &mut Vec<u32>,
) -> Result<(), NoMemory>
    requires read { IsRead flow.now labels.now.far labels.now.hops vertex near }
    ensures { OnOk result (pending.new.items ≡ pending.old.items ++ tails_of (at_vertex labels.now.far) (count_at labels.now.hops) vertex (ways_on flow.now (near_arc vertex near))) }
{
    let step = step_in(vertex, near);
    if is_tight(labels, step) && is_there(flow, step) {
        pending.push(step.tail)?;
    }
    Ok(())
}

/// Adds the tails of the tight residual arcs on these arcs that enter a vertex.
pub(crate) fn push_tails(
    flow: &Flow,
    labels: &Labels,
    vertex: u32,
    nears: &[Near],
    pending: &mut Vec<u32>,
) -> Result<(), NoMemory>
    requires read { All (IsRead flow.now labels.now.far labels.now.hops vertex) nears.now }
    ensures { OnOk result (pending.new.items ≡ pending.old.items ++ tails_of (at_vertex labels.now.far) (count_at labels.now.hops) vertex (ways_by vertex flow.now nears.now)) }
{
    for near in nears {
        push_tail(flow, labels, vertex, *near, pending)?;
    }
    Ok(())
}

/// Finds the stale vertices, from those that are to be looked at: marks and lists them.
pub(crate) fn spread(
    arcs: &Arcs<'_>,
    flow: &Flow,
    labels: &Labels,
    served: u32,
    marks: &mut [bool],
    vertices: &mut Vec<u32>,
    pending: &mut Vec<u32>,
) -> Result<(), NoMemory>
    requires read { AreRead arcs.now flow.now labels.now.far labels.now.hops }
    requires marks { length marks.old ≡ vertex_count arcs.now }
    requires waits { SayWhoWaits arcs.now flow.now (count_at labels.now.hops) marks.old served }
    requires spread { AreSpread arcs.now flow.now (at_vertex labels.now.far) (count_at labels.now.hops) marks.old vertices.old.items pending.old.items }
    ensures each { length marks.new ≡ length marks.old }
    ensures spread { OnOk result (AreSpread arcs.now flow.now (at_vertex labels.now.far) (count_at labels.now.hops) marks.new vertices.new.items []) }
    ensures empty { OnOk result (pending.new.items ≡ []) }
{
    while let Some(vertex) = next_stale(arcs, flow, labels, marks, served, pending) {
        marks[vertex as usize] = true;
        vertices.push(vertex)?;
        push_tails(flow, labels, vertex, arcs.at(vertex), pending)?;
    }
    Ok(())
}
