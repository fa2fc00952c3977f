//! Vertices that were reached: each once, in the order in which they were added.
//!
//! A byte for each vertex tells whether it is there. So to look one up, or to add one, takes one step, with no hash; and to let all
//! go takes as many steps as there are vertices there, not as many as the network has.

ghost use Rattle.std.specs.Prelude.{◌≡◌, ◌<◌, ◌&&◌, ℕ, not, nat_eq, [], All, length, IfOk, OnOk};
ghost use Rattle.std.specs.List.{IsDistinct};
ghost use Rattle.std.proofs.Props.{props};
ghost use Rattle.net_base.specs.Keys.{is_among, with_key};
ghost use Rattle.stage_flow.specs.Residual.{vertex_count};
ghost use Rattle.stage_flow.specs.Passes.{mark_at};
ghost use Rattle.stage_flow.specs.Sending.{SayWhoIsThere};

use crate::incidence::vertices;
use crate::offers::is_marked;
use flow_net::Net;
use net_base::NoMemory;
use std::alloc::Global;

/// Vertices that were reached.
#[derive(Drop)]
pub(crate) struct Reached {
    /// The vertices, in order.
    pub(crate) keys: Vec<u32>,
    /// Whether each vertex is there.
    pub(crate) marks: Vec<bool>,
    ghost there: { SayWhoIsThere marks.items keys.items } by { Prim.hlevel props },
}

// Takes the marks of these vertices away.
fn unmark(marks: &mut [bool], vertices: &[u32])
    requires { All (λ vertex. vertex < length marks.old) vertices.now }
    ensures length { length marks.new ≡ length marks.old }
    ensures marks { (vertex : ℕ) → mark_at marks.new vertex ≡ (mark_at marks.old vertex && not (is_among nat_eq vertex vertices.now)) }
{
    for place in 0..vertices.len() {
        marks[vertices[place] as usize] = false;
    }
}

impl Reached {
    /// No vertex of a network.
    pub(crate) fn new(alloc: Global, net: &Net) -> Result<Reached, NoMemory>
        ensures each { IfOk result (λ reached. length reached.marks.items ≡ vertex_count net.now) }
        ensures none { IfOk result (λ reached. reached.keys.items ≡ []) }
    {
        let marks = vec![in alloc; false; vertices(net)]?;
        Ok(Reached {
            keys: Vec::new(alloc),
            marks,
        })
    }

    /// How many vertices are there.
    pub(crate) fn len(&self) -> usize
        ensures len { result ≡ length self.now.keys.items }
        ensures unique { IsDistinct nat_eq self.now.keys.items }
    {
        self.keys.len()
    }

    /// The vertices, in order.
    pub(crate) fn as_slice(&self) -> &[u32]
        ensures keys { result.now ≡ self.now.keys.items }
    {
        self.keys.as_slice()
    }

    /// Whether a vertex is there.
    pub(crate) fn contains(&self, vertex: u32) -> bool
        ensures { result ≡ is_among nat_eq vertex self.now.keys.items }
    {
        is_marked(self.marks.as_slice(), vertex)
    }

    /// Adds a vertex, unless it is there.
    pub(crate) fn insert(&mut self, vertex: u32) -> Result<(), NoMemory>
        requires { vertex < length self.old.marks.items }
        ensures each { length self.new.marks.items ≡ length self.old.marks.items }
        ensures keys { OnOk result (self.new.keys.items ≡ with_key nat_eq self.old.keys.items vertex) }
    {
        if !self.marks[vertex as usize] {
            self.keys.push(vertex)?;
            self.marks[vertex as usize] = true;
        }
        Ok(())
    }

    /// Lets all vertices go, and keeps the room for as many.
    pub(crate) fn clear(&mut self)
        ensures each { length self.new.marks.items ≡ length self.old.marks.items }
        ensures none { self.new.keys.items ≡ [] }
    {
        unmark(self.marks.as_mut_slice(), self.keys.as_slice());
        self.keys.clear();
    }
}
