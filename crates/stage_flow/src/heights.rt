//! The search that says how far labels near a sender may be raised.
//!
//! A residual arc is level if its tail's label is just as long as the way over it. As labels fit, the way over it has no fewer arcs
//! than the label says; how many more is its slack. The search begins at the sender, at a height, and comes down over each level
//! arc by its slack, highest vertices first, through marked vertices. The floor is the height of the highest vertex met that isn't
//! marked, and the search ends when no other waits above it: a vertex above the floor may be raised by its height above it. Nothing
//! is promised of the floor: `raising` tests what comes of it. Promised is only that each vertex that the search came to is listed.
//!
//! Source: Dijkstra's search with a list for each distance (Dial 1969), here for heights, which are few.

ghost use Rattle.std.specs.Prelude.{◌≡◌, ◌<◌, ◌/◌, ◌+ℤ◌, ◌↔◌, All, IsTrue, length, OnOk, IfOk};
ghost use Rattle.stage_flow.specs.Residual.{vertex_count};
ghost use Rattle.stage_flow.specs.Given.{at_vertex};
ghost use Rattle.stage_flow.specs.Sending.{IsRead, AreRead};
ghost use Rattle.stage_flow.specs.Raising.{AreTracked, AreAtRest};

use crate::arcs::Arcs;
use crate::incidence::vertices;
use crate::offers::is_marked;
use crate::search::Labels;
use crate::ways::{Near, Step, is_there, step_out};
use flow_net::{Flow, Net};
use net_base::NoMemory;
use std::alloc::Global;

/// The height of the sender: labels are raised by fewer arcs than this.
const TOP: u32 = 64;

/// A floor that no height is above.
pub(crate) const ABOVE_ALL: u32 = u32::MAX;

/// Room in which heights are searched, used anew by each search.
#[derive(Drop)]
pub(crate) struct Room {
    /// The height of each vertex, 0 where the search didn't come.
    pub(crate) heights: Vec<u32>,
    /// The vertices that it came to, each once.
    pub(crate) reached: Vec<u32>,
    /// The height of the highest vertex met so far that isn't marked, 0 before one is.
    pub(crate) floor: u32,
    // Those that wait, in a list for each height.
    waiting: Vec<Vec<u32>>,
}

// A vertex waits at a height, if there is a list for that.
fn wait_at(lists: &mut Vec<Vec<u32>>, height: u32, vertex: u32) -> Result<(), NoMemory> {
    let height = height as usize;
    if height < lists.len() {
        lists[height].push(vertex)?;
    }
    Ok(())
}

// The next vertex that waits at a height.
fn pop_at(lists: &mut Vec<Vec<u32>>, height: u32) -> Option<u32> {
    let height = height as usize;
    if height < lists.len() {
        return lists[height].pop();
    }
    None
}

// The next vertex that waits at a height or below, and its height.
fn pop_highest(lists: &mut Vec<Vec<u32>>, height: &mut u32) -> Option<u32> {
    while *height > 0 {
        if let Some(vertex) = pop_at(lists, *height) {
            return Some(vertex);
        }
        *height -= 1;
    }
    None
}

// Nobody waits.
fn clear_all(lists: &mut Vec<Vec<u32>>) {
    for height in 0..lists.len() {
        lists[height].clear();
    }
}

// A list for each height.
fn lists_for_heights(alloc: Global) -> Result<Vec<Vec<u32>>, NoMemory> {
    let mut lists = Vec::new(alloc);
    for _ in 0..TOP + 1 {
        lists.push(Vec::new(alloc))?;
    }
    Ok(lists)
}

// The search comes to a vertex at a height, unless it came there as high before.
fn come_to(
    heights: &mut [u32],
    reached: &mut Vec<u32>,
    vertex: u32,
    height: u32,
) -> Result<bool, NoMemory>
    requires vertex { vertex < length heights.old }
    requires tracked { AreTracked heights.old reached.old.items }
    ensures each { length heights.new ≡ length heights.old }
    ensures tracked { OnOk result (AreTracked heights.new reached.new.items) }
{
    let old = heights[vertex as usize];
    if old >= height {
        return Ok(false);
    }
    heights[vertex as usize] = height;
    if old == 0 {
        reached.push(vertex)?;
    }
    Ok(true)
}

/// Whether a residual arc is level.
pub(crate) fn is_level(labels: &Labels, step: Step) -> bool
    requires { (step.tail < length labels.now.far) × (step.head < length labels.now.far) }
    ensures { IsTrue result ↔ (step.length +ℤ at_vertex labels.now.far step.head ≡ at_vertex labels.now.far step.tail) }
{
    let far = *labels.far.get(step.tail as usize);
    let next_far = *labels.far.get(step.head as usize);
    step.length.checked_add(next_far) == Some(far)
}

// How many arcs of slack a level residual arc has.
fn slack(labels: &Labels, step: Step) -> u32
    requires { (step.tail < length labels.now.hops) × (step.head < length labels.now.hops) }
{
    let hops = *labels.hops.get(step.tail as usize);
    let next_hops = *labels.hops.get(step.head as usize);
    next_hops.saturating_add(1).saturating_sub(hops)
}

// Comes down over the residual arc on an arc that leaves a vertex, from that vertex' height.
fn come_over(
    flow: &Flow,
    labels: &Labels,
    marks: &[bool],
    vertex: u32,
    height: u32,
    near: Near,
    room: &mut Room,
) -> Result<(), NoMemory>
    requires read { IsRead flow.now labels.now.far labels.now.hops vertex near }
    requires each { length room.old.heights.items ≡ length labels.now.hops }
    requires tracked { AreTracked room.old.heights.items room.old.reached.items }
    ensures each { length room.new.heights.items ≡ length room.old.heights.items }
    ensures tracked { OnOk result (AreTracked room.new.heights.items room.new.reached.items) }
{
    let step = step_out(vertex, near);
    let height = height.saturating_sub(slack(labels, step));
    // Of most heads it is known that they stand as high. There lengths and units, which lie far apart, needn't be read.
    if height <= room.floor || room.heights[step.head as usize] >= height {
        return Ok(());
    }
    if !is_level(labels, step) || !is_there(flow, step) {
        return Ok(());
    }
    if !is_marked(marks, step.head) {
        room.floor = height;
        return Ok(());
    }
    let heights = room.heights.as_mut_slice();
    if come_to(heights, &mut room.reached, step.head, height)? {
        wait_at(&mut room.waiting, height, step.head)?;
    }
    Ok(())
}

// Comes down over the residual arcs on these arcs that leave a vertex.
fn come_from(
    flow: &Flow,
    labels: &Labels,
    marks: &[bool],
    vertex: u32,
    height: u32,
    nears: &[Near],
    room: &mut Room,
) -> Result<(), NoMemory>
    requires read { All (IsRead flow.now labels.now.far labels.now.hops vertex) nears.now }
    requires each { length room.old.heights.items ≡ length labels.now.hops }
    requires tracked { AreTracked room.old.heights.items room.old.reached.items }
    ensures each { length room.new.heights.items ≡ length room.old.heights.items }
    ensures tracked { OnOk result (AreTracked room.new.heights.items room.new.reached.items) }
{
    for near in nears {
        come_over(flow, labels, marks, vertex, height, *near, room)?;
    }
    Ok(())
}

// Whether a vertex is there, and stands at a height.
fn stands_at(heights: &[u32], vertex: u32, height: u32) -> bool
    ensures { IsTrue result → vertex < length heights.now }
{
    let vertex = vertex as usize;
    vertex < heights.len() && heights[vertex] == height
}

impl Room {
    /// The search came nowhere yet.
    pub(crate) fn new(alloc: Global, net: &Net) -> Result<Room, NoMemory>
        ensures { IfOk result (λ room. AreAtRest net.now room.heights.items) }
    {
        Ok(Room {
            heights: vec![in alloc; 0; vertices(net)]?,
            reached: Vec::new(alloc),
            floor: 0,
            waiting: lists_for_heights(alloc)?,
        })
    }
}

/// Searches from a vertex until none waits above the floor, which is the answer.
pub(crate) fn search(
    arcs: &Arcs<'_>,
    flow: &Flow,
    labels: &Labels,
    marks: &[bool],
    from: u32,
    room: &mut Room,
) -> Result<u32, NoMemory>
    requires read { AreRead arcs.now flow.now labels.now.far labels.now.hops }
    requires from { from < vertex_count arcs.now }
    requires rest { AreAtRest arcs.now room.old.heights.items }
    ensures each { length room.new.heights.items ≡ length room.old.heights.items }
    ensures tracked { OnOk result (AreTracked room.new.heights.items room.new.reached.items) }
{
    clear_all(&mut room.waiting);
    room.reached.clear();
    room.floor = 0;
    come_to(room.heights.as_mut_slice(), &mut room.reached, from, TOP)?;
    wait_at(&mut room.waiting, TOP, from)?;
    let mut height = TOP;
    // Far more turns than vertices wait.
    for _ in 0..u32::MAX {
        let Some(vertex) = pop_highest(&mut room.waiting, &mut height) else {
            break;
        };
        if height <= room.floor {
            break;
        }
        // A vertex to which it came higher later on waits in vain.
        if stands_at(room.heights.as_slice(), vertex, height) {
            come_from(flow, labels, marks, vertex, height, arcs.at(vertex), room)?;
        }
    }
    Ok(if room.floor > 0 {
        room.floor
    } else {
        ABOVE_ALL
    })
}
