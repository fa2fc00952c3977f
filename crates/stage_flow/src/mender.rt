//! Labels kept from round to round, and which of them are stale.
//!
//! Vertices that a round leaves stale are marked, and stay so as long as their labels don't matter. Only where a marked vertex has to send
//! are labels near it raised, which is enough where it has a few arcs more to go than its label says; and where it isn't, all marked
//! vertices are put right.

ghost use Rattle.std.specs.Prelude.{◌≡◌, ◌<◌, ◌++◌, [], ℕ, false, length, map, OnOk, IfOk};
ghost use Rattle.stage_flow.specs.Residual.{vertex_count};
ghost use Rattle.stage_flow.specs.LawsOfSending.{IsPartFlow, SomeMirrorWants};
ghost use Rattle.stage_flow.specs.Given.{IsNetwork, at_vertex, count_at};
ghost use Rattle.stage_flow.specs.Passes.{mark_at};
ghost use Rattle.stage_flow.specs.Sending.{way_of};
ghost use Rattle.stage_flow.specs.Staleness.{end_of, tails_on, AreLeftByRound, AreNear, AreKept};
ghost use Rattle.stage_flow.specs.Keeping.{IsInOrder};

use crate::arcs::Arcs;
use crate::beginning::marked;
use crate::heights::Room;
use crate::incidence::vertices;
use crate::mending::settle;
use crate::offers::{Queue, is_marked};
use crate::reviving::lift;
use crate::search::Labels;
use crate::stale::spread;
use crate::ways::Step;
use flow_net::{Flow, Net};
use net_base::NoMemory;
use std::alloc::Global;

/// Which labels are stale, and room in which they are found and put right.
#[derive(Drop)]
pub(crate) struct Mender {
    /// Which vertices are marked as stale.
    pub(crate) marks: Vec<bool>,
    /// A list with each of them.
    pub(crate) vertices: Vec<u32>,
    /// Room in which labels near a sender are raised.
    pub(crate) room: Room,
    // Vertices that are still to be looked at.
    pending: Vec<u32>,
    queue: Queue,
}

// The vertices that the arcs of a path leave are to be looked at; and where the path ends.
fn look_along(path: &[Step], from: u32, pending: &mut Vec<u32>) -> Result<u32, NoMemory>
    ensures end { IfOk result (λ end. end ≡ end_of from (map way_of path.now)) }
    ensures tails { OnOk result (pending.new.items ≡ pending.old.items ++ tails_on (map way_of path.now)) }
{
    let mut end = from;
    for step in path {
        pending.push(step.tail)?;
        end = step.head;
    }
    Ok(end)
}

impl Mender {
    /// No vertex is stale.
    pub(crate) fn new(alloc: Global, net: &Net) -> Result<Mender, NoMemory>
        ensures order { IfOk result (λ mender. IsInOrder net.now mender) }
        ensures none { IfOk result (λ mender. (vertex : ℕ) → mark_at mender.marks.items vertex ≡ false) }
    {
        Ok(Mender {
            marks: vec![in alloc; false; vertices(net)]?,
            vertices: Vec::new(alloc),
            room: Room::new(alloc, net)?,
            pending: Vec::new(alloc),
            queue: Queue::new(alloc)?,
        })
    }

    // Puts all labels right. No vertex is stale any more.
    fn settle_all(
        &mut self,
        arcs: &Arcs<'_>,
        flow: &Flow,
        labels: Labels,
    ) -> Result<Labels, NoMemory>
        requires net { IsNetwork arcs.now }
        requires flow { IsPartFlow arcs.now flow.now }
        requires wanted { SomeMirrorWants arcs.now flow.now }
        requires each { (length labels.far ≡ vertex_count arcs.now) × (length labels.hops ≡ vertex_count arcs.now) }
        requires kept { AreKept arcs.now flow.now (at_vertex labels.far) (count_at labels.hops) self.old.marks.items }
        requires order { IsInOrder arcs.now self.old }
        ensures kept { IfOk result (λ labels. AreKept arcs.now flow.now (at_vertex labels.far) (count_at labels.hops) self.new.marks.items) }
        ensures none { OnOk result ((vertex : ℕ) → mark_at self.new.marks.items vertex ≡ false) }
        ensures each { IfOk result (λ labels. (length labels.far ≡ vertex_count arcs.now) × (length labels.hops ≡ vertex_count arcs.now)) }
        ensures order { OnOk result (IsInOrder arcs.now self.new) }
    {
        let labels = settle(
            arcs,
            flow,
            labels,
            self.marks.as_mut_slice(),
            self.vertices.as_slice(),
            &mut self.queue,
        )?;
        self.vertices.clear();
        Ok(labels)
    }

    // Raises labels near a vertex.
    fn raise_near(
        &mut self,
        arcs: &Arcs<'_>,
        flow: &Flow,
        labels: Labels,
        from: u32,
    ) -> Result<Labels, NoMemory>
        requires net { IsNetwork arcs.now }
        requires units { length flow.now.pins ≡ length arcs.now.pins }
        requires from { from < vertex_count arcs.now }
        requires each { (length labels.far ≡ vertex_count arcs.now) × (length labels.hops ≡ vertex_count arcs.now) }
        requires kept { AreKept arcs.now flow.now (at_vertex labels.far) (count_at labels.hops) self.old.marks.items }
        requires order { IsInOrder arcs.now self.old }
        ensures kept { IfOk result (λ labels. AreKept arcs.now flow.now (at_vertex labels.far) (count_at labels.hops) self.new.marks.items) }
        ensures each { IfOk result (λ labels. (length labels.far ≡ vertex_count arcs.now) × (length labels.hops ≡ vertex_count arcs.now)) }
        ensures order { OnOk result (IsInOrder arcs.now self.new) }
    {
        let marks = self.marks.as_mut_slice();
        lift(arcs, flow, labels, marks, from, &mut self.room)
    }

    /// The labels before a round, in which this vertex sends: it isn't stale any more.
    pub(crate) fn ready(
        &mut self,
        arcs: &Arcs<'_>,
        flow: &Flow,
        labels: Labels,
        from: u32,
    ) -> Result<Labels, NoMemory>
        requires net { IsNetwork arcs.now }
        requires flow { IsPartFlow arcs.now flow.now }
        requires wanted { SomeMirrorWants arcs.now flow.now }
        requires from { from < vertex_count arcs.now }
        requires each { (length labels.far ≡ vertex_count arcs.now) × (length labels.hops ≡ vertex_count arcs.now) }
        requires kept { AreKept arcs.now flow.now (at_vertex labels.far) (count_at labels.hops) self.old.marks.items }
        requires order { IsInOrder arcs.now self.old }
        ensures kept { IfOk result (λ labels. AreKept arcs.now flow.now (at_vertex labels.far) (count_at labels.hops) self.new.marks.items) }
        ensures fresh { OnOk result (mark_at self.new.marks.items from ≡ false) }
        ensures each { IfOk result (λ labels. (length labels.far ≡ vertex_count arcs.now) × (length labels.hops ≡ vertex_count arcs.now)) }
        ensures order { OnOk result (IsInOrder arcs.now self.new) }
    {
        if !is_marked(self.marks.as_slice(), from) {
            return Ok(labels);
        }
        let labels = self.raise_near(arcs, flow, labels, from)?;
        if !is_marked(self.marks.as_slice(), from) {
            return Ok(labels);
        }
        self.settle_all(arcs, flow, labels)
    }

    // Lists the marked vertices anew where the list is longer than all of them can be.
    fn list(&mut self, alloc: Global, net: &Net) -> Result<(), NoMemory>
        requires net { IsNetwork net.now }
        requires order { IsInOrder net.now self.old }
        ensures marks { self.new.marks.items ≡ self.old.marks.items }
        ensures order { OnOk result (IsInOrder net.now self.new) }
    {
        if self.vertices.len() > self.marks.len() {
            self.vertices = marked(alloc, net, self.marks.as_slice())?;
        }
        Ok(())
    }

    /// After a round that sent a unit along a path the vertices that it left stale are marked, beside those that were before it.
    pub(crate) fn spoil(
        &mut self,
        alloc: Global,
        arcs: &Arcs<'_>,
        flow: &Flow,
        labels: &Labels,
        path: &[Step],
        from: u32,
    ) -> Result<(), NoMemory>
        requires net { IsNetwork arcs.now }
        requires units { length flow.now.pins ≡ length arcs.now.pins }
        requires each { (length labels.now.far ≡ vertex_count arcs.now) × (length labels.now.hops ≡ vertex_count arcs.now) }
        requires left { AreLeftByRound arcs.now flow.now (at_vertex labels.now.far) (count_at labels.now.hops) self.old.marks.items from (map way_of path.now) }
        requires near { AreNear arcs.now (at_vertex labels.now.far) (count_at labels.now.hops) }
        requires order { IsInOrder arcs.now self.old }
        ensures kept { OnOk result (AreKept arcs.now flow.now (at_vertex labels.now.far) (count_at labels.now.hops) self.new.marks.items) }
        ensures order { OnOk result (IsInOrder arcs.now self.new) }
    {
        self.list(alloc, arcs.net())?;
        self.pending.clear();
        let served = look_along(path, from, &mut self.pending)?;
        self.pending.push(served)?;
        spread(
            arcs,
            flow,
            labels,
            served,
            self.marks.as_mut_slice(),
            &mut self.vertices,
            &mut self.pending,
        )
    }
}
