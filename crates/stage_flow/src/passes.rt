//! Lengths by passes over all residual arcs, as many passes as there are vertices: an exact way, and a slow one.
//!
//! After each pass the labels that come by one arc more stand, so after all passes each label stands that is determined by
//! where it comes from.

ghost use Rattle.std.specs.Prelude.{◌≡◌, ◌<◌, ℕ, ℤ, pos, Bool, true, cond, length, IfOk};
ghost use Rattle.stage_flow.specs.Residual.{vertex_count};
ghost use Rattle.stage_flow.specs.Given.{IsNetwork, at_vertex, count_at};
ghost use Rattle.stage_flow.specs.Search.{way_by, HoldsAtPin, HoldsBelow};
ghost use Rattle.stage_flow.specs.Longest.{is_better};
ghost use Rattle.stage_flow.specs.Passes.{reach_by, OffersNoBetter, IsTarget, AreUnder, Nears, Brings, Stepped, HaveCome, mark_at, least};

use crate::incidence::{mirror, vertices};
use crate::search::Labels;
use flow_net::{Flow, Net, Pin, Units};
use net_base::{List, NoMemory};
use std::alloc::Global;

// Whether a label is better than another: longer, or as long with fewer arcs.
fn exceeds(span: i64, count: u32, own: i64, own_count: u32) -> bool
    ensures { result ≡ is_better (reach_by span count) (reach_by own own_count) }
{
    if span != own {
        return own < span;
    }
    count < own_count
}

// Offers a label over an arc, which is taken where it is better.
fn offer(far: &mut [i64], hops: &mut [u32], tail: usize, head: usize, span: i64)
    requires each { length hops.old ≡ length far.old }
    ensures each { (length far.new ≡ length far.old) × (length hops.new ≡ length far.old) }
    ensures nears { (lengths : ℕ → ℤ) (counts : ℕ → ℕ) → OffersNoBetter lengths counts (way_by tail head span) → AreUnder lengths counts far.old hops.old → Nears lengths counts far.old hops.old far.new hops.new × Brings lengths counts far.old hops.old far.new hops.new (way_by tail head span) }
{
    if tail >= far.len() || head >= far.len() {
        return;
    }
    let Some(led) = far[tail].checked_add(span) else {
        return;
    };
    let Some(count) = hops[tail].checked_add(1) else {
        return;
    };
    if exceeds(led, count, far[head], hops[head]) {
        far[head] = led;
        hops[head] = count;
    }
}

// Offers a label over an arc, if the arc is residual.
fn step(far: &mut [i64], hops: &mut [u32], tail: usize, head: usize, span: i64, is_residual: bool)
    requires each { length hops.old ≡ length far.old }
    ensures each { (length far.new ≡ length far.old) × (length hops.new ≡ length far.old) }
    ensures nears { (lengths : ℕ → ℤ) (counts : ℕ → ℕ) → Stepped lengths counts far.old hops.old far.new hops.new is_residual (way_by tail head span) }
{
    if is_residual {
        offer(far, hops, tail, head, span);
    }
}

// Offers labels over the residual arcs of a pin.
fn step_pin(far: &mut [i64], hops: &mut [u32], mirror: usize, pin: &Pin, units: &Units)
    requires each { length hops.old ≡ length far.old }
    ensures each { (length far.new ≡ length far.old) × (length hops.new ≡ length far.old) }
    ensures nears { (lengths : ℕ → ℤ) (counts : ℕ → ℕ) → HoldsAtPin (OffersNoBetter lengths counts) mirror pin.now units.now → AreUnder lengths counts far.old hops.old → Nears lengths counts far.old hops.old far.new hops.new × HoldsAtPin (Brings lengths counts far.old hops.old far.new hops.new) mirror pin.now units.now }
{
    let from = pin.from as usize;
    let to = pin.to as usize;
    let gain = i64::from(pin.weight);
    let loss = 0 - gain;
    step(far, hops, from, to, gain, true);
    step(far, hops, to, from, loss, units.forward != 0);
    step(far, hops, to, mirror, loss, true);
    step(far, hops, mirror, to, 0 - loss, units.back != 0);
}

// Offers labels over all residual arcs.
fn pass(net: &Net, flow: &Flow, far: &mut [i64], hops: &mut [u32])
    requires pins { length flow.now.pins ≡ length net.now.pins }
    requires each { length hops.old ≡ length far.old }
    ensures each { (length far.new ≡ length far.old) × (length hops.new ≡ length far.old) }
    ensures nears { (lengths : ℕ → ℤ) (counts : ℕ → ℕ) → HoldsBelow (OffersNoBetter lengths counts) net.now flow.now (length net.now.pins) → AreUnder lengths counts far.old hops.old → Nears lengths counts far.old hops.old far.new hops.new × HoldsBelow (Brings lengths counts far.old hops.old far.new hops.new) net.now flow.now (length net.now.pins) }
{
    let units = flow.pins.as_slice();
    for (place, pin) in net.pins.as_slice().iter().enumerate() {
        step_pin(far, hops, mirror(net, pin), pin, &units[place]);
    }
}

// As many passes as there are vertices.
fn pass_all(net: &Net, flow: &Flow, far: &mut [i64], hops: &mut [u32])
    requires net { IsNetwork net.now }
    requires pins { length flow.now.pins ≡ length net.now.pins }
    requires each { (length far.old ≡ vertex_count net.now) × (length hops.old ≡ vertex_count net.now) }
    ensures each { (length far.new ≡ vertex_count net.now) × (length hops.new ≡ vertex_count net.now) }
    ensures come { (starts : ℕ → Bool) (lengths : ℕ → ℤ) (counts : ℕ → ℕ) → IsTarget net.now flow.now starts lengths counts → HaveCome lengths counts 0 far.old hops.old → HaveCome lengths counts (vertex_count net.now) far.new hops.new }
{
    for _count in 0..vertices(net) {
        pass(net, flow, far, hops);
    }
}

// The lengths before the first pass: 0 at starts, and elsewhere less than any.
fn first_far(alloc: Global, starts: &[bool]) -> Result<Vec<i64>, NoMemory>
    ensures each { IfOk result (λ far. length far.items ≡ length starts.now) }
    ensures own { IfOk result (λ far. (vertex : ℕ) → vertex < length starts.now → at_vertex far.items vertex ≡ cond (mark_at starts.now vertex) (pos 0) least) }
{
    let mut far = vec![in alloc; i64::MIN; starts.len()]?;
    for vertex in 0..starts.len() {
        if starts[vertex] {
            far[vertex] = 0;
        }
    }
    Ok(far)
}

// The numbers of arcs before the first pass: 0 at starts, and elsewhere the greatest there is.
fn first_hops(alloc: Global, starts: &[bool]) -> Result<Vec<u32>, NoMemory>
    ensures each { IfOk result (λ hops. length hops.items ≡ length starts.now) }
    ensures own { IfOk result (λ hops. (vertex : ℕ) → vertex < length starts.now → mark_at starts.now vertex ≡ true → count_at hops.items vertex ≡ 0) }
{
    let mut hops = vec![in alloc; u32::MAX; starts.len()]?;
    for vertex in 0..starts.len() {
        if starts[vertex] {
            hops[vertex] = 0;
        }
    }
    Ok(hops)
}

/// The labels of all vertices from starts: those that nothing which residual arcs offer is better than, where there are such.
pub(crate) fn passes(
    alloc: Global,
    net: &Net,
    flow: &Flow,
    starts: &[bool],
) -> Result<Labels, NoMemory>
    requires net { IsNetwork net.now }
    requires pins { length flow.now.pins ≡ length net.now.pins }
    requires each { length starts.now ≡ vertex_count net.now }
    ensures each { IfOk result (λ labels. (length labels.far ≡ vertex_count net.now) × (length labels.hops ≡ vertex_count net.now)) }
    ensures come { IfOk result (λ labels. (far : ℕ → ℤ) (hops : ℕ → ℕ) → IsTarget net.now flow.now (mark_at starts.now) far hops → (vertex : ℕ) → vertex < vertex_count net.now → (at_vertex labels.far vertex ≡ far vertex) × (count_at labels.hops vertex ≡ hops vertex)) }
{
    let mut far = first_far(alloc, starts)?;
    let mut hops = first_hops(alloc, starts)?;
    pass_all(net, flow, far.as_mut_slice(), hops.as_mut_slice());
    Ok(Labels {
        far: List::from_vec(far),
        hops: List::from_vec(hops),
    })
}
