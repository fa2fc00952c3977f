//! Levels of gates, and their phases.

ghost use Rattle.std.specs.Prelude.{◌≡◌, ◌+◌, ◌^◌, ◌<◌, ◌≤◌, IfOk, All, map};
ghost use Rattle.gate_net.specs.Net.{IsGateNet};
ghost use Rattle.gate_net.specs.Entries.{entry_of};
ghost use Rattle.phase_rule.specs.Levels.{largest, levels_of, phases_of};

use gate_net::{Driver, GateNet, entry};
use net_base::{List, NoMemory};
use std::alloc::Global;

/// The clock phases at most: more than four are rare, and sixteen leave room.
pub const MAX_PHASES: u32 = 16;

/// The level of each gate, in order: 1 more than the largest level of its drivers, where inputs have level 0.
pub fn levels(alloc: Global, net: &GateNet) -> Result<List<u32>, NoMemory>
    requires { IsGateNet net.now }
    ensures value { IfOk result (λ levels. levels ≡ levels_of net.now) }
{
    let mut levels: Vec<u32> = Vec::with_capacity(alloc, net.gates.len())?;
    for row in net.gates.as_slice() {
        let level = 1 + largest_level(levels.as_slice(), row.pins.as_slice());
        levels.push(level)?;
    }
    Ok(List::from_vec(levels))
}

// The largest level of some drivers, whose levels are among those so far.
fn largest_level(levels: &[u32], pins: &[Driver]) -> u32
    requires { All (λ level. level < 2 ^ 31) levels.now }
    ensures largest { result ≡ largest (map (entry_of levels.now) pins.now) }
    ensures bound { result < 2 ^ 31 }
{
    let mut most = 0;
    for pin in pins {
        most = most.max(level_at(levels, *pin));
    }
    most
}

// The level of a driver, among those so far.
fn level_at(levels: &[u32], driver: Driver) -> u32
    requires { All (λ level. level < 2 ^ 31) levels.now }
    ensures level { result ≡ entry_of levels.now driver }
    ensures bound { result < 2 ^ 31 }
{
    entry(levels, driver)
}

/// The phase of each gate, with `n` phases: its level modulo `n`.
pub fn phases(alloc: Global, levels: &List<u32>, n: u32) -> Result<List<u32>, NoMemory>
    requires one { 1 ≤ n }
    requires few { n ≤ MAX_PHASES }
    ensures value { IfOk result (λ phases. phases ≡ phases_of n levels.now) }
    ensures below { IfOk result (All (λ phase. phase < n)) }
{
    let phases = levels
        .as_slice()
        .iter()
        .map(|level| *level % n)
        .collect(alloc)?;
    Ok(List::from_vec(phases))
}
