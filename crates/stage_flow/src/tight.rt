//! What tight arcs reach from a vertex, and the way back over the least of them.
//!
//! Each tight arc leads one arc nearer, so a vertex that was reached is in one layer only, which its label tells. So the order of
//! the search doesn't matter, no layer is kept, and what was reached is found once. A vertex of the last layer has no arcs to go
//! and wants a unit; the least one receives. Before a vertex comes the least tail of tight arcs into it that was reached, by the
//! lowest arc between the two. Only arcs at vertices that were reached are looked at. Marked vertices are stale, and dead: no tight
//! arc leads on from them to a mirror that wants, so they are passed over.

ghost use Rattle.std.specs.Prelude.{◌≡◌, ◌≤◌, ◌<◌, ◌-◌, ◌^◌, ◌⊎◌, ℕ, true, false, [], ◌∷◌, nat_eq, All, Contains, length, map, IfOk, OnOk, Some, None};
ghost use Rattle.std.specs.Option.{option_map};
ghost use Rattle.net_base.specs.Keys.{with_keys};
ghost use Rattle.stage_flow.specs.Residual.{ways_on, vertex_count};
ghost use Rattle.stage_flow.specs.Rounds.{path_of, or_lesser};
ghost use Rattle.stage_flow.specs.Passes.{mark_at};
ghost use Rattle.stage_flow.specs.Staleness.{AreDead, AreKept};
ghost use Rattle.stage_flow.specs.Given.{at_vertex, count_at, near_arc};
ghost use Rattle.stage_flow.specs.Sending.{way_of, ways_by, IsRead, AreRead, AreReached, heads_of, comes_last, least_by};

use crate::arcs::Arcs;
use crate::offers::is_marked;
use crate::reached::Reached;
use crate::search::Labels;
use crate::ways::{Near, Step, is_there, is_tight, step_in, step_out};
use flow_net::{Flow, Net};
use net_base::NoMemory;
use std::alloc::Global;

// Adds the head of the residual arc on an arc that leaves a vertex to what was reached, if it is tight, and the head isn't marked.
fn reach_over(
    flow: &Flow,
    labels: &Labels,
    marks: &[bool],
    vertex: u32,
    near: Near,
    reached: &mut Reached,
) -> Result<(), NoMemory>
    requires read { IsRead flow.now labels.now.far labels.now.hops vertex near }
    requires among { near.other < length reached.old.marks.items }
    ensures each { length reached.new.marks.items ≡ length reached.old.marks.items }
    ensures keys { OnOk result (reached.new.keys.items ≡ with_keys nat_eq reached.old.keys.items (heads_of (at_vertex labels.now.far) (count_at labels.now.hops) marks.now vertex (ways_on flow.now (near_arc vertex near)))) }
{
    let step = step_out(vertex, near);
    // Units lie farther apart than labels, and are read last.
    if !is_marked(marks, step.head) && is_tight(labels, step) && is_there(flow, step) {
        reached.insert(step.head)?;
    }
    Ok(())
}

// Adds the unmarked heads of the tight residual arcs on these arcs that leave a vertex.
fn reach_from(
    flow: &Flow,
    labels: &Labels,
    marks: &[bool],
    vertex: u32,
    nears: &[Near],
    reached: &mut Reached,
) -> Result<(), NoMemory>
    requires read { All (IsRead flow.now labels.now.far labels.now.hops vertex) nears.now }
    requires among { length labels.now.hops ≡ length reached.old.marks.items }
    ensures each { length reached.new.marks.items ≡ length reached.old.marks.items }
    ensures keys { OnOk result (reached.new.keys.items ≡ with_keys nat_eq reached.old.keys.items (heads_of (at_vertex labels.now.far) (count_at labels.now.hops) marks.now vertex (ways_by vertex flow.now nears.now))) }
{
    for near in nears {
        reach_over(flow, labels, marks, vertex, *near, reached)?;
    }
    Ok(())
}

// Adds all unmarked vertices that tight arcs reach from a vertex that alone is there.
fn reach_all(
    arcs: &Arcs<'_>,
    flow: &Flow,
    labels: &Labels,
    marks: &[bool],
    from: u32,
    reached: &mut Reached,
) -> Result<(), NoMemory>
    requires read { AreRead arcs.now flow.now labels.now.far labels.now.hops }
    requires dead { AreDead arcs.now flow.now (at_vertex labels.now.far) (count_at labels.now.hops) marks.now }
    requires vertex { from < vertex_count arcs.now }
    requires fresh { mark_at marks.now from ≡ false }
    requires alone { reached.old.keys.items ≡ from ∷ [] }
    requires among { length reached.old.marks.items ≡ vertex_count arcs.now }
    ensures each { length reached.new.marks.items ≡ length reached.old.marks.items }
    ensures reached { OnOk result (AreReached arcs.now flow.now (at_vertex labels.now.far) (count_at labels.now.hops) marks.now from reached.new.keys.items) }
{
    let mut next = 0;
    while next < reached.len() {
        let vertex = reached.as_slice()[next];
        reach_from(flow, labels, marks, vertex, arcs.at(vertex), reached)?;
        next += 1;
    }
    Ok(())
}

// The lesser of a residual arc and what was found.
fn lesser_of(step: Step, found: Option<Step>) -> Option<Step>
    ensures { option_map way_of result ≡ or_lesser true (way_of step) (option_map way_of found) }
{
    match found {
        None => Some(step),
        Some(old) => {
            if step.tail < old.tail || (step.tail == old.tail && step.number < old.number) {
                Some(step)
            } else {
                Some(old)
            }
        }
    }
}

// The lesser of what was found and the residual arc on an arc that enters a vertex, if it is tight and comes from what was reached.
fn least_over(
    flow: &Flow,
    labels: &Labels,
    reached: &Reached,
    vertex: u32,
    near: Near,
    found: Option<Step>,
) -> Option<Step>
    requires read { IsRead flow.now labels.now.far labels.now.hops vertex near }
    ensures { option_map way_of result ≡ least_by (comes_last (at_vertex labels.now.far) (count_at labels.now.hops) reached.now.keys.items vertex) (option_map way_of found) (ways_on flow.now (near_arc vertex near)) }
{
    let step = step_in(vertex, near);
    if is_tight(labels, step) && reached.contains(step.tail) && is_there(flow, step) {
        lesser_of(step, found)
    } else {
        found
    }
}

// The least of the residual arcs on these arcs that are tight, enter a vertex, and come from what was reached.
fn least_into(
    flow: &Flow,
    labels: &Labels,
    reached: &Reached,
    vertex: u32,
    nears: &[Near],
) -> Option<Step>
    requires read { All (IsRead flow.now labels.now.far labels.now.hops vertex) nears.now }
    ensures { option_map way_of result ≡ least_by (comes_last (at_vertex labels.now.far) (count_at labels.now.hops) reached.now.keys.items vertex) None (ways_by vertex flow.now nears.now) }
{
    let mut found = None;
    for near in nears {
        found = least_over(flow, labels, reached, vertex, *near, found);
    }
    found
}

// The least of the vertices that were reached and have no arcs to go, or the greatest number where there is none.
fn least_end(hops: &[u32], reached: &[u32]) -> u32
    requires { All (λ vertex. vertex < length hops.now) reached.now }
    ensures least { All (λ vertex. count_at hops.now vertex ≡ 0 → result ≤ vertex) reached.now }
    ensures found { (result ≡ 2 ^ 32 - 1) ⊎ (Contains reached.now result × (count_at hops.now result ≡ 0)) }
{
    let mut least = u32::MAX;
    for vertex in reached {
        if hops[*vertex as usize] == 0 && *vertex < least {
            least = *vertex;
        }
    }
    least
}

// Reads the path from a vertex to the receiver, from what tight arcs reach from that vertex.
fn read_path(
    arcs: &Arcs<'_>,
    flow: &Flow,
    labels: &Labels,
    marks: &[bool],
    reached: &Reached,
    from: u32,
    path: &mut Vec<Step>,
) -> Result<(), NoMemory>
    requires read { AreRead arcs.now flow.now labels.now.far labels.now.hops }
    requires kept { AreKept arcs.now flow.now (at_vertex labels.now.far) (count_at labels.now.hops) marks.now }
    requires vertex { from < vertex_count arcs.now }
    requires fresh { mark_at marks.now from ≡ false }
    requires reached { AreReached arcs.now flow.now (at_vertex labels.now.far) (count_at labels.now.hops) marks.now from reached.now.keys.items }
    requires empty { path.old.items ≡ [] }
    ensures { OnOk result (map way_of path.new.items ≡ path_of arcs.now flow.now (Some from)) }
{
    let mut vertex = least_end(labels.hops.as_slice(), reached.as_slice());
    let mut left = *labels.hops.get(from as usize);
    while left > 0 {
        let Some(step) = least_into(flow, labels, reached, vertex, arcs.at(vertex)) else {
            unreachable!()
        };
        path.push(step)?;
        vertex = step.tail;
        left -= 1;
    }
    path.reverse();
    Ok(())
}

/// Room in which paths are found, used anew in each round.
#[derive(Drop)]
pub(crate) struct PathRoom {
    /// What tight arcs reach from the sender.
    pub(crate) reached: Reached,
    /// The path that was found last.
    pub(crate) path: Vec<Step>,
}

impl PathRoom {
    /// Nothing was reached, and no path was found.
    pub(crate) fn new(alloc: Global, net: &Net) -> Result<PathRoom, NoMemory>
        ensures { IfOk result (λ room. length room.reached.marks.items ≡ vertex_count net.now) }
    {
        Ok(PathRoom {
            reached: Reached::new(alloc, net)?,
            path: Vec::new(alloc),
        })
    }
}

/// Finds the path of a round: from the sender, which isn't marked, to the receiver.
pub(crate) fn find_path(
    arcs: &Arcs<'_>,
    flow: &Flow,
    labels: &Labels,
    marks: &[bool],
    from: u32,
    room: &mut PathRoom,
) -> Result<(), NoMemory>
    requires read { AreRead arcs.now flow.now labels.now.far labels.now.hops }
    requires kept { AreKept arcs.now flow.now (at_vertex labels.now.far) (count_at labels.now.hops) marks.now }
    requires vertex { from < vertex_count arcs.now }
    requires fresh { mark_at marks.now from ≡ false }
    requires room { length room.old.reached.marks.items ≡ vertex_count arcs.now }
    ensures path { OnOk result (map way_of room.new.path.items ≡ path_of arcs.now flow.now (Some from)) }
    ensures room { length room.new.reached.marks.items ≡ vertex_count arcs.now }
{
    room.reached.clear();
    room.reached.insert(from)?;
    reach_all(arcs, flow, labels, marks, from, &mut room.reached)?;
    room.path.clear();
    read_path(
        arcs,
        flow,
        labels,
        marks,
        &room.reached,
        from,
        &mut room.path,
    )
}
