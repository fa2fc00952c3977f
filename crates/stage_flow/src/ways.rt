//! Residual arcs, read off the rows of arcs at their vertices.

ghost use Rattle.std.specs.Prelude.{◌≡◌, ◌<◌, ◌+◌, ◌+ℤ◌, ◌/◌, ◌↔◌, IsTrue, length, slice_index};
ghost use Rattle.std.specs.List.{flat_map};
ghost use Rattle.flow_net.specs.Flows.{pin_units};
ghost use Rattle.stage_flow.specs.LawsOfWalks.{IsTight};
ghost use Rattle.stage_flow.specs.Given.{at_vertex, count_at};
ghost use Rattle.stage_flow.specs.Sending.{way_of, way_out, way_in, length_by, is_residual};

use crate::search::Labels;
use flow_net::Flow;

/// A residual arc: where one more unit may go.
#[derive(Clone, Copy, Debug)]
pub(crate) struct Step {
    /// The vertex that it leaves.
    pub tail: u32,
    /// The vertex that it enters.
    pub head: u32,
    /// The weight of its pin, or that negated.
    pub length: i64,
    /// The number of the arc whose units it changes.
    pub number: u32,
    /// Whether it takes a unit back from that arc.
    pub takes: bool,
}

/// An arc at a vertex, as the vertex' row has it.
#[derive(Clone, Copy, Debug)]
pub(crate) struct Near {
    /// The vertex at the other end. Arcs lead from the lesser of two vertices to the greater.
    pub other: u32,
    /// The number of the arc, doubled, and the weight of its pin, which is 0 or 1.
    pub code: u32,
}

// The length of the residual arc on an arc that adds a unit to it, or takes one back.
fn length_of(near: Near, takes: bool) -> i64
    ensures { result ≡ length_by takes near }
{
    let weight = i64::from(near.code % 2);
    let is_back = near.code / 2 % 2 != 0;
    if is_back == takes { weight } else { 0 - weight }
}

/// The residual arc on an arc at a vertex that leaves the vertex.
pub(crate) fn step_out(vertex: u32, near: Near) -> Step
    ensures { way_of result ≡ way_out vertex near }
{
    let takes = near.other < vertex;
    Step {
        tail: vertex,
        head: near.other,
        length: length_of(near, takes),
        number: near.code / 2,
        takes,
    }
}

/// The residual arc on an arc at a vertex that enters the vertex.
pub(crate) fn step_in(vertex: u32, near: Near) -> Step
    ensures { way_of result ≡ way_in vertex near }
{
    let takes = near.other >= vertex;
    Step {
        tail: near.other,
        head: vertex,
        length: length_of(near, takes),
        number: near.code / 2,
        takes,
    }
}

/// The units on the arc with a number.
pub(crate) fn units_at(flow: &Flow, number: u32) -> u32
    requires { number / 2 < length flow.now.pins }
    ensures { result ≡ slice_index (flat_map pin_units flow.now.pins) number }
{
    let units = flow.pins.get((number / 2) as usize);
    if number % 2 == 0 {
        units.forward
    } else {
        units.back
    }
}

/// Whether a residual arc is there: what takes a unit back needs one.
pub(crate) fn is_there(flow: &Flow, step: Step) -> bool
    requires { step.number / 2 < length flow.now.pins }
    ensures { result ≡ is_residual flow.now (way_of step) }
{
    !step.takes || units_at(flow, step.number) > 0
}

// Whether a length and a number add up to another.
fn adds_up(length: i64, far: i64, sum: i64) -> bool
    ensures { IsTrue result ↔ (length +ℤ far ≡ sum) }
{
    length.checked_add(far) == Some(sum)
}

// Whether a number is the next one after another.
fn is_next(number: u32, last: u32) -> bool
    ensures { IsTrue result ↔ (last + 1 ≡ number) }
{
    number > 0 && number - 1 == last
}

/// Whether a residual arc is tight.
pub(crate) fn is_tight(labels: &Labels, step: Step) -> bool
    requires far { (step.tail < length labels.now.far) × (step.head < length labels.now.far) }
    requires hops { (step.tail < length labels.now.hops) × (step.head < length labels.now.hops) }
    ensures { IsTrue result ↔ IsTight (at_vertex labels.now.far) (count_at labels.now.hops) (way_of step) }
{
    // Counts of arcs tell most residual arcs that aren't tight, and lie closer together than lengths.
    let hops = *labels.hops.get(step.tail as usize);
    let next_hops = *labels.hops.get(step.head as usize);
    if !is_next(hops, next_hops) {
        return false;
    }
    let far = *labels.far.get(step.tail as usize);
    let next_far = *labels.far.get(step.head as usize);
    adds_up(step.length, next_far, far)
}
