//! Labels towards the mirrors that want, and lengths from the source.
//!
//! Labels begin no worse than they can be, and are then put right. Lengths are found by a search from the source. What it finds is
//! tested on each residual arc before it is handed on, in time of the same order, and it is the test that is proved. That a search
//! finds what passes it isn't. Where what it found fails its test, passes over all residual arcs find the answer, which is exact
//! and slow.

ghost use Rattle.std.specs.Prelude.{◌≡◌, ◌<◌, ℕ, suc, true, false, length, IfOk};
ghost use Rattle.stage_flow.specs.Residual.{vertex_count};
ghost use Rattle.stage_flow.specs.Given.{IsNetwork, ArePotentials, at_vertex, count_at};
ghost use Rattle.stage_flow.specs.LawsOfWalks.{AreLabels};
ghost use Rattle.stage_flow.specs.LawsOfSending.{IsPartFlow, SomeMirrorWants};
ghost use Rattle.stage_flow.specs.LawsOfEpochs.{AreLabelsFromSource};
ghost use Rattle.stage_flow.specs.Passes.{mark_at};

use crate::arcs::Arcs;
use crate::beginning::{first_labels, marked, others_of};
use crate::incidence::vertices;
use crate::last_arcs::are_lengths;
use crate::mending::settle;
use crate::mirrors::wanting_of;
use crate::offers::Queue;
use crate::passes::passes;
use crate::settling::{Keys, lengths_by, potential};
use flow_net::{Flow, Net};
use net_base::{List, NoMemory};
use std::alloc::Global;

/// How far each vertex is from what was searched from, and by how many arcs.
#[derive(Debug, Drop)]
pub(crate) struct Labels {
    /// The greatest length of a walk, by vertex.
    pub far: List<i64>,
    /// The fewest arcs of a walk of that length, by vertex.
    pub hops: List<u32>,
}

/// The labels of all vertices towards the mirrors that want. They begin no worse than they can be, by potentials that fit, and all
/// but those of the mirrors that want are put right.
pub(crate) fn find_labels(
    alloc: Global,
    arcs: &Arcs<'_>,
    flow: &Flow,
    potentials: &List<i64>,
) -> Result<Labels, NoMemory>
    requires net { IsNetwork arcs.now }
    requires flow { IsPartFlow arcs.now flow.now }
    requires wanted { SomeMirrorWants arcs.now flow.now }
    requires potentials { ArePotentials arcs.now flow.now potentials.now }
    ensures labels { IfOk result (λ labels. AreLabels arcs.now flow.now (at_vertex labels.far) (count_at labels.hops)) }
    ensures each { IfOk result (λ labels. (length labels.far ≡ vertex_count arcs.now) × (length labels.hops ≡ vertex_count arcs.now)) }
{
    let net = arcs.net();
    let wanting = wanting_of(alloc, net, flow)?;
    let wanting = wanting.as_slice();
    let labels = first_labels(alloc, wanting, potentials.as_slice())?;
    let mut stale = others_of(alloc, wanting)?;
    let vertices = marked(alloc, net, stale.as_slice())?;
    let mut queue = Queue::new(alloc)?;
    settle(
        arcs,
        flow,
        labels,
        stale.as_mut_slice(),
        vertices.as_slice(),
        &mut queue,
    )
}

// Lengths by a search from the source.
fn search_on(
    alloc: Global,
    arcs: &Arcs<'_>,
    flow: &Flow,
    potentials: &List<i64>,
) -> Result<Labels, NoMemory> {
    let potentials = potentials.as_slice();
    let mut keys = Keys::new(alloc, vertices(arcs.net()))?;
    keys.offer(0, 0, 0)?;
    keys.settle_all(arcs, flow, potentials)?;
    let far = lengths_by(alloc, potentials, potential(potentials, 0), &keys)?;
    Ok(Labels {
        far: List::from_vec(far),
        hops: List::from_slice(alloc, keys.arcs.as_slice())?,
    })
}

// Marks of the vertices to start at: the source alone.
fn source_alone(alloc: Global, net: &Net) -> Result<Vec<bool>, NoMemory>
    ensures each { IfOk result (λ marks. length marks.items ≡ vertex_count net.now) }
    ensures source { IfOk result (λ marks. mark_at marks.items 0 ≡ true) }
    ensures others { IfOk result (λ marks. (vertex : ℕ) → suc vertex < vertex_count net.now → mark_at marks.items (suc vertex) ≡ false) }
{
    let mut marks = vec![in alloc; false; vertices(net)]?;
    marks[0] = true;
    Ok(marks)
}

/// The lengths of longest walks from the source: a search from it, over potentials that fit. Where its lengths fail
/// their test, passes find them.
pub(crate) fn find_lengths(
    alloc: Global,
    arcs: &Arcs<'_>,
    flow: &Flow,
    potentials: &List<i64>,
) -> Result<Labels, NoMemory>
    requires net { IsNetwork arcs.now }
    requires pins { 0 < length arcs.now.pins }
    requires flow { IsPartFlow arcs.now flow.now }
    requires potentials { ArePotentials arcs.now flow.now potentials.now }
    ensures labels { IfOk result (λ labels. AreLabelsFromSource arcs.now flow.now (at_vertex labels.far) (count_at labels.hops)) }
    ensures each { IfOk result (λ labels. (length labels.far ≡ vertex_count arcs.now) × (length labels.hops ≡ vertex_count arcs.now)) }
{
    let net = arcs.net();
    let labels = search_on(alloc, arcs, flow, potentials)?;
    if are_lengths(
        alloc,
        net,
        flow,
        labels.far.as_slice(),
        labels.hops.as_slice(),
    )? {
        return Ok(labels);
    }
    let starts = source_alone(alloc, net)?;
    passes(alloc, net, flow, starts.as_slice())
}
