//! Potentials before the first round, and from labels.

ghost use Rattle.std.specs.Prelude.{◌≡◌, ◌≤◌, ◌<◌, ◌^◌, ◌-ℤ◌, ◌≤ℤ◌, ℕ, ℤ, pos, All, IfOk, length, map, slice_index_or};
ghost use Rattle.stage_flow.specs.Residual.{vertex_count};
ghost use Rattle.stage_flow.specs.Given.{at_vertex};
ghost use Rattle.stage_flow.specs.UnderWay.{first_potential};

use flow_net::Net;
use net_base::{List, NoMemory};
use std::alloc::Global;

/// Potentials that fit where nothing was sent: each vertex' own number, and the sink's of each mirror.
pub(crate) fn first_potentials(alloc: Global, net: &Net) -> Result<List<i64>, NoMemory>
    ensures each { IfOk result (λ potentials. length potentials ≡ vertex_count net.now) }
    ensures own { IfOk result (λ potentials. (vertex : ℕ) → vertex < vertex_count net.now → at_vertex potentials vertex ≡ first_potential net.now vertex) }
{
    let sink = net.gates as usize + 1;
    let vertices = net.gates as usize + 2 + net.drivers as usize;
    let mut potentials: Vec<i64> = Vec::with_capacity(alloc, vertices)?;
    for vertex in 0..vertices {
        potentials.push(vertex.min(sink) as i64)?;
    }
    Ok(List::from_vec(potentials))
}

/// Each number negated.
pub(crate) fn negated(alloc: Global, numbers: &[i64]) -> Result<List<i64>, NoMemory>
    requires { All (λ number. (pos 0 -ℤ pos (2 ^ 32)) ≤ℤ number) numbers.now }
    ensures { IfOk result (λ list. list ≡ map (λ (number : ℤ). pos 0 -ℤ number) numbers.now) }
{
    let mut list: Vec<i64> = Vec::with_capacity(alloc, numbers.len())?;
    for number in numbers {
        list.push(0 - *number)?;
    }
    Ok(List::from_vec(list))
}
