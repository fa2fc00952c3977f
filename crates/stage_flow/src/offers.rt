//! Offers of labels to stale vertices, in a queue: the offer that gains most comes first.
//!
//! A vertex gets an offer by each residual arc from it to a vertex that isn't stale. Once it has taken one it isn't stale, and
//! what else was offered to it is let go when its turn comes. No label gets better, so an offer gains nothing, or costs more than
//! the old label: by so much it rises. Most offers rise by a few arcs and by no length, and so do nearly all that are taken. So
//! there is a list for each small rise, and only the others wait in a heap: to add or to take an offer takes one step if it rises
//! little, and else as many as the logarithm of those in the heap. Most offers in the heap are poor ones that are never taken, and
//! aren't put in order either, since `mending` asks for no further offer once no vertex is stale.
//!
//! Source: a shortest path search with a list for each key (Dial 1969); here for small keys alone, with a heap for the others.

ghost use Rattle.std.specs.Prelude.{◌≡◌, ◌<◌, ◌≤◌, ◌<ℤ◌, ◌≤ℤ◌, ◌-ℤ◌, ℕ, pos, [], ◌∷◌, ◌++◌, length, map, All, MatchOption, IfSome, IfOk, OnOk, OnErr, slice_index_or, slice_set};
ghost use Rattle.std.specs.BinaryHeap.{IsHeap, heap_items};
ghost use Rattle.std.proofs.Props.{props};
ghost use Rattle.stage_flow.specs.Passes.{mark_at};
ghost use Rattle.stage_flow.specs.Mending.{offer_order};

use net_base::NoMemory;
use std::alloc::Global;
use std::collections::BinaryHeap;

/// Rises below this have a list each. They are differences of arcs alone: a unit of length weighs far more.
const SMALL: i128 = 64;

/// An offer of a label to a vertex. In the order of offers the gain comes first.
#[derive(Clone, Copy, PartialEq, Eq, PartialOrd, Ord, Debug)]
pub(crate) struct Offer {
    /// How much less the label costs than the vertex' old one. No offer gains more than nothing.
    pub gain: i128,
    /// The length of the label that is offered.
    pub far: i64,
    /// Its number of arcs.
    pub hops: u32,
    /// The vertex.
    pub vertex: u32,
}

/// Offers that rise little: those that rise by `r`, and so gain `-r`, are in list `r`.
#[derive(Drop)]
pub(crate) struct SmallRises {
    lists: Vec<Vec<Offer>>,
    // No list before this one holds an offer.
    level: usize,
    ghost each: { length lists.items ≡ 64 },
    ghost own: { (rise : ℕ) → All (λ offer. offer.gain ≡ pos 0 -ℤ pos rise) (slice_index_or (map (λ list. list.items) lists.items) rise []) } by { Prim.hlevel props },
    ghost none: { (rise : ℕ) → rise < level → length (slice_index_or (map (λ list. list.items) lists.items) rise []) ≡ 0 } by { Prim.hlevel props },
}

/// Offers that wait.
#[derive(Drop)]
pub(crate) struct Queue {
    /// What the queue takes its memory from.
    pub alloc: Global,
    // Offers that gain more than nothing. `mending` makes none, but no contract says so here: this heap is empty, and costs a look.
    gaining: BinaryHeap<Offer>,
    small: SmallRises,
    // Offers that rise by `SMALL` or more.
    large: BinaryHeap<Offer>,
    ghost gains: { All (λ offer. pos 0 <ℤ offer.gain) (heap_items gaining) } by { Prim.hlevel props },
    ghost rises: { All (λ offer. offer.gain ≤ℤ (pos 0 -ℤ pos 64)) (heap_items large) } by { Prim.hlevel props },
    ghost first: { IsHeap offer_order (heap_items gaining) } by { Prim.hlevel props },
    ghost ordered: { IsHeap offer_order (heap_items large) } by { Prim.hlevel props },
}

/// Whether a vertex is marked, and not past the last.
pub(crate) fn is_marked(marks: &[bool], vertex: u32) -> bool
    ensures { result ≡ mark_at marks.now vertex }
{
    let vertex = vertex as usize;
    vertex < marks.len() && marks[vertex]
}

// By how much an offer rises that rises little.
fn rise_of(offer: Offer) -> usize
    requires loses { offer.gain ≤ℤ pos 0 }
    requires little { (pos 0 -ℤ pos 64) <ℤ offer.gain }
    ensures { offer.gain ≡ pos 0 -ℤ pos result }
{
    (-offer.gain) as usize
}

// Puts an offer at the end of the list at a place.
fn put(lists: &mut Vec<Vec<Offer>>, place: usize, offer: Offer) -> Result<(), NoMemory>
    requires { place < length lists.old.items }
    ensures length { length lists.new.items ≡ length lists.old.items }
    ensures put { OnOk result (map (λ list. list.items) lists.new.items ≡ slice_set (map (λ list. list.items) lists.old.items) place (slice_index_or (map (λ list. list.items) lists.old.items) place [] ++ offer ∷ [])) }
    ensures kept { OnErr result (map (λ list. list.items) lists.new.items ≡ map (λ list. list.items) lists.old.items) }
{
    lists[place].push(offer)?;
    Ok(())
}

// Takes the last offer of a list that holds one: the lists are then as before it was put there.
fn take_last(lists: &mut Vec<Vec<Offer>>, place: usize) -> Offer
    requires place { place < length lists.old.items }
    requires filled { 0 < length (slice_index_or (map (λ list. list.items) lists.old.items) place []) }
    ensures length { length lists.new.items ≡ length lists.old.items }
    ensures last { map (λ list. list.items) lists.old.items ≡ slice_set (map (λ list. list.items) lists.new.items) place (slice_index_or (map (λ list. list.items) lists.new.items) place [] ++ result ∷ []) }
{
    lists[place].pop().unwrap()
}

// The first list from a place on that holds an offer, or a place past the last.
fn first_filled(lists: &[Vec<Offer>], from: usize) -> usize
    ensures none { (place : ℕ) → place < result → from ≤ place → length (slice_index_or (map (λ list. list.items) lists.now) place []) ≡ 0 }
    ensures some { result < length lists.now → 0 < length (slice_index_or (map (λ list. list.items) lists.now) result []) }
{
    let mut place = from;
    while place < lists.len() {
        if !lists[place].is_empty() {
            return place;
        }
        place += 1;
    }
    place
}

// An empty list for each small rise.
fn no_lists(alloc: Global) -> Result<Vec<Vec<Offer>>, NoMemory>
    ensures each { IfOk result (λ lists. length lists.items ≡ 64) }
    ensures none { IfOk result (λ lists. (place : ℕ) → slice_index_or (map (λ list. list.items) lists.items) place [] ≡ []) }
{
    let mut lists = Vec::with_capacity(alloc, SMALL as usize)?;
    for _ in 0..SMALL as usize {
        lists.push(Vec::new(alloc))?;
    }
    Ok(lists)
}

// Lets the offers of all lists go, and keeps the room for as many.
fn empty_all(lists: &mut Vec<Vec<Offer>>)
    ensures length { length lists.new.items ≡ length lists.old.items }
    ensures none { (place : ℕ) → slice_index_or (map (λ list. list.items) lists.new.items) place [] ≡ [] }
{
    for place in 0..lists.len() {
        lists[place].clear();
    }
}

impl SmallRises {
    ghost use Rattle.std.specs.List.Sorted.{IsPermutation};
    ghost use Rattle.stage_flow.specs.Mending.{Leaves};
    ghost use Rattle.stage_flow.specs.Waiting.{small_ones};

    // Nothing is offered.
    fn new(alloc: Global) -> Result<SmallRises, NoMemory>
        ensures { IfOk result (λ small. small_ones small ≡ []) }
    {
        let lists = no_lists(alloc)?;
        Ok(SmallRises { lists, level: 0 })
    }

    // Lets all offers go, and keeps the room for as many.
    fn clear(&mut self)
        ensures { small_ones self.new ≡ [] }
    {
        empty_all(&mut self.lists);
        self.level = 0;
    }

    // Adds an offer that rises little.
    fn push(&mut self, offer: Offer) -> Result<(), NoMemory>
        requires loses { offer.gain ≤ℤ pos 0 }
        requires little { (pos 0 -ℤ pos 64) <ℤ offer.gain }
        ensures { OnOk result (IsPermutation (offer ∷ small_ones self.old) (small_ones self.new)) }
    {
        let rise = rise_of(offer);
        put(&mut self.lists, rise, offer)?;
        self.level = self.level.min(rise);
        Ok(())
    }

    // Takes an offer that rises least.
    fn pop(&mut self) -> Option<Offer>
        ensures least { MatchOption result ((small_ones self.old ≡ []) × (small_ones self.new ≡ [])) (λ offer. Leaves (small_ones self.old) offer (small_ones self.new)) }
        ensures little { IfSome result (λ offer. (pos 0 -ℤ pos 64) <ℤ offer.gain) }
    {
        self.level = first_filled(self.lists.as_slice(), self.level);
        if self.level >= self.lists.len() {
            return None;
        }
        Some(take_last(&mut self.lists, self.level))
    }
}

impl Queue {
    ghost use Rattle.stage_flow.specs.Mending.{AreAdded, Leaves, IsFirst, NoneIsStale};
    ghost use Rattle.stage_flow.specs.Waiting.{waiting};

    /// Nothing is offered.
    pub(crate) fn new(alloc: Global) -> Result<Queue, NoMemory>
        ensures { IfOk result (λ queue. waiting queue ≡ []) }
    {
        let small = SmallRises::new(alloc)?;
        Ok(Queue {
            alloc,
            gaining: BinaryHeap::new(alloc),
            small,
            large: BinaryHeap::new(alloc),
        })
    }

    /// Lets all offers go, and keeps the room for as many.
    pub(crate) fn clear(&mut self)
        ensures { waiting self.new ≡ [] }
    {
        self.gaining.clear();
        self.small.clear();
        self.large.clear();
    }

    /// Adds an offer.
    pub(crate) fn push(&mut self, offer: Offer) -> Result<(), NoMemory>
        ensures { OnOk result (AreAdded (offer ∷ []) (waiting self.old) (waiting self.new)) }
    {
        if offer.gain > 0 {
            self.gaining.push(offer)?;
        } else if offer.gain > -SMALL {
            self.small.push(offer)?;
        } else {
            self.large.push(offer)?;
        }
        Ok(())
    }

    // Takes an offer that gains most: the parts of the queue are in the order of what their offers gain.
    fn pop(&mut self) -> Option<Offer>
        ensures { MatchOption result (waiting self.old ≡ []) (λ offer. Leaves (waiting self.old) offer (waiting self.new)) }
    {
        if !self.gaining.is_empty() {
            let offer = self.gaining.pop()?;
            return Some(offer);
        }
        if let Some(offer) = self.small.pop() {
            return Some(offer);
        }
        let offer = self.large.pop()?;
        Some(offer)
    }

    /// Takes the offer to a stale vertex that gains most, and lets go of those before it, which are to others.
    pub(crate) fn next(&mut self, stale: &[bool]) -> Option<Offer>
        ensures { MatchOption result (NoneIsStale stale.now (waiting self.old)) (λ offer. IsFirst stale.now (waiting self.old) offer (waiting self.new)) }
    {
        while let Some(offer) = self.pop() {
            if is_marked(stale, offer.vertex) {
                return Some(offer);
            }
        }
        None
    }
}
