//! Marked vertices whose labels have become right are unmarked, and labels near a sender are lifted so that some do.
//!
//! A marked vertex with a tight arc to one that isn't marked has its right label, and so has each tail of the tight arcs into it. Only
//! vertices whose labels were raised can have such an arc at first, so these are looked at, and then the tails of the tight arcs into
//! each that is unmarked.

ghost use Rattle.std.specs.Prelude.{◌≡◌, ◌<◌, ◌/◌, ◌++◌, ◌⊎◌, ℕ, [], ◌∷◌, true, false, All, Contains, IsTrue, IfSome, None, length, OnOk, IfOk};
ghost use Rattle.stage_flow.specs.Residual.{vertex_count};
ghost use Rattle.stage_flow.specs.Given.{IsNetwork, at_vertex, count_at};
ghost use Rattle.stage_flow.specs.Sending.{AreRead};
ghost use Rattle.stage_flow.specs.Passes.{mark_at};
ghost use Rattle.stage_flow.specs.Mending.{IsSound, AreRightOutside};
ghost use Rattle.stage_flow.specs.Staleness.{AreDead, AreKept};
ghost use Rattle.stage_flow.specs.Raising.{AreAtRest, IsDead, AreDeadBut, NoneIsMarkedAnew};

use crate::arcs::Arcs;
use crate::heights::Room;
use crate::raising::raise;
use crate::search::Labels;
use crate::stale::{leads_away_from, push_tails};
use flow_net::Flow;
use net_base::NoMemory;

// Whether a vertex is marked, and a tight arc leads on to one that isn't.
fn is_revived(arcs: &Arcs<'_>, flow: &Flow, labels: &Labels, marks: &[bool], vertex: u32) -> bool
    requires read { AreRead arcs.now flow.now labels.now.far labels.now.hops }
    requires marks { length marks.now ≡ vertex_count arcs.now }
    requires vertex { vertex < vertex_count arcs.now }
    ensures marked { IsTrue result → mark_at marks.now vertex ≡ true }
    ensures sound { IsTrue result → IsSound arcs.now flow.now (at_vertex labels.now.far) (count_at labels.now.hops) marks.now vertex }
    ensures dead { result ≡ false → IsDead arcs.now flow.now (at_vertex labels.now.far) (count_at labels.now.hops) marks.now vertex }
{
    if !marks[vertex as usize] {
        return false;
    }
    leads_away_from(flow, labels, marks, vertex, arcs.at(vertex))
}

// The next of the vertices to be looked at that is revived.
fn next_revived(
    arcs: &Arcs<'_>,
    flow: &Flow,
    labels: &Labels,
    marks: &[bool],
    pending: &mut Vec<u32>,
) -> Option<u32>
    requires read { AreRead arcs.now flow.now labels.now.far labels.now.hops }
    requires marks { length marks.now ≡ vertex_count arcs.now }
    requires low { All (λ vertex. vertex < vertex_count arcs.now) pending.old.items }
    requires dead { AreDeadBut arcs.now flow.now (at_vertex labels.now.far) (count_at labels.now.hops) marks.now pending.old.items }
    ensures found { IfSome result (λ vertex. (vertex < vertex_count arcs.now) × (mark_at marks.now vertex ≡ true) × IsSound arcs.now flow.now (at_vertex labels.now.far) (count_at labels.now.hops) marks.now vertex) }
    ensures low { All (λ vertex. vertex < vertex_count arcs.now) pending.new.items }
    ensures others { IfSome result (λ vertex. AreDeadBut arcs.now flow.now (at_vertex labels.now.far) (count_at labels.now.hops) marks.now (pending.new.items ++ vertex ∷ [])) }
    ensures none { result ≡ None → AreDead arcs.now flow.now (at_vertex labels.now.far) (count_at labels.now.hops) marks.now }
{
    while let Some(vertex) = pending.pop() {
        if is_revived(arcs, flow, labels, marks, vertex) {
            return Some(vertex);
        }
    }
    None
}

/// Unmarks the marked vertices that have become sound, given those to be looked at first.
pub(crate) fn revive(
    arcs: &Arcs<'_>,
    flow: &Flow,
    labels: &Labels,
    marks: &mut [bool],
    pending: &mut Vec<u32>,
) -> Result<(), NoMemory>
    requires read { AreRead arcs.now flow.now labels.now.far labels.now.hops }
    requires marks { length marks.old ≡ vertex_count arcs.now }
    requires right { AreRightOutside arcs.now flow.now (at_vertex labels.now.far) (count_at labels.now.hops) marks.old }
    requires dead { AreDeadBut arcs.now flow.now (at_vertex labels.now.far) (count_at labels.now.hops) marks.old pending.old.items }
    requires low { All (λ vertex. vertex < vertex_count arcs.now) pending.old.items }
    ensures each { length marks.new ≡ length marks.old }
    ensures right { OnOk result (AreRightOutside arcs.now flow.now (at_vertex labels.now.far) (count_at labels.now.hops) marks.new) }
    ensures dead { OnOk result (AreDead arcs.now flow.now (at_vertex labels.now.far) (count_at labels.now.hops) marks.new) }
    ensures fewer { NoneIsMarkedAnew marks.old marks.new }
{
    while let Some(vertex) = next_revived(arcs, flow, labels, marks, pending) {
        marks[vertex as usize] = false;
        push_tails(flow, labels, vertex, arcs.at(vertex), pending)?;
    }
    Ok(())
}

/// Raises labels of marked vertices near a vertex, and unmarks those that have become right.
pub(crate) fn lift(
    arcs: &Arcs<'_>,
    flow: &Flow,
    labels: Labels,
    marks: &mut [bool],
    from: u32,
    room: &mut Room,
) -> Result<Labels, NoMemory>
    requires net { IsNetwork arcs.now }
    requires units { length flow.now.pins ≡ length arcs.now.pins }
    requires each { (length labels.far ≡ vertex_count arcs.now) × (length labels.hops ≡ vertex_count arcs.now) × (length marks.old ≡ vertex_count arcs.now) }
    requires kept { AreKept arcs.now flow.now (at_vertex labels.far) (count_at labels.hops) marks.old }
    requires from { from < vertex_count arcs.now }
    requires rest { AreAtRest arcs.now room.old.heights.items }
    ensures kept { IfOk result (λ labels. AreKept arcs.now flow.now (at_vertex labels.far) (count_at labels.hops) marks.new) }
    ensures each { IfOk result (λ labels. (length labels.far ≡ vertex_count arcs.now) × (length labels.hops ≡ vertex_count arcs.now)) }
    ensures marks { length marks.new ≡ length marks.old }
    ensures fewer { NoneIsMarkedAnew marks.old marks.new }
    ensures rest { OnOk result (AreAtRest arcs.now room.new.heights.items) }
{
    let labels = raise(arcs, flow, labels, marks, from, room)?;
    revive(arcs, flow, &labels, marks, &mut room.reached)?;
    Ok(labels)
}
