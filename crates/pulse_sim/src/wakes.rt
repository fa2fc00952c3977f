//! What is done in the ticks of each phase: which cells fire, and to which pins their pulses are delivered. It is listed once, in the
//! order of the sites.

ghost use Rattle.std.specs.Prelude.{◌≡◌, ◌<◌, ◌≤◌, ◌+◌, ◌++◌, IfOk, OnOk};
ghost use Rattle.pulse_sim.specs.Roots.{parts_of};
ghost use Rattle.pulse_sim.specs.Sites.{part_wires, site_wires};
ghost use Rattle.pulse_sim.specs.declared.layout.TheConstants.{MAX_WIRES};
ghost use Rattle.pulse_sim.specs.Wakes.{part_firings, firings_of, is_of, pin_deliveries, part_deliveries, deliveries_of, all_wakes};

use crate::root::{Root, input_roots, push_roots, root_at};
use crate::site::{Part, PinBits, Site};
use net_base::{List, NoMemory};
use std::alloc::Global;

/// A cell that fires at its clock.
#[derive(Clone, Copy)]
pub(crate) struct Firing {
    /// Its number among the sites.
    pub(crate) at: u32,
    /// The place of its wire.
    pub(crate) place: u32,
}

/// A pin that takes the pulses of a root.
#[derive(Clone, Copy)]
pub(crate) struct Delivery {
    /// The place of the root's own wire.
    pub(crate) root: u32,
    /// The number of the pin's cell among the sites.
    pub(crate) at: u32,
    /// Which pin it is: its bit alone is set.
    pub(crate) pin: PinBits,
}

/// What is done in the ticks of a phase, beside what comes from inputs.
#[derive(Drop)]
pub(crate) struct Wakes {
    pub(crate) firings: List<Firing>,
    pub(crate) deliveries: List<Delivery>,
}

// How many wires a part makes.
fn part_wires(part: Part) -> usize
    ensures count { result ≡ part_wires part }
    ensures some { 0 < result }
{
    match part {
        Part::Clocked(_, _, _) => 1,
        Part::Split(_) => 2,
    }
}

fn push_firing(
    firings: &mut List<Firing>,
    phase: u32,
    at: usize,
    place: usize,
    part: Part,
) -> Result<(), NoMemory>
    requires room { place + part_wires part ≤ MAX_WIRES }
    requires before { at ≤ place }
    ensures { OnOk result (firings.new ≡ firings.old ++ part_firings phase at place part) }
{
    if let Part::Clocked(_, its_phase, _) = part {
        if phase == u32::from(its_phase) {
            firings.push(Firing {
                at: at as u32,
                place: place as u32,
            })?;
        }
    }
    Ok(())
}

// The cells that fire in the ticks of a phase.
fn firings_of(
    alloc: Global,
    phase: u32,
    inputs: usize,
    sites: &[Site],
) -> Result<List<Firing>, NoMemory>
    requires { inputs + site_wires sites.now ≤ MAX_WIRES }
    ensures { IfOk result (λ firings. firings ≡ firings_of phase inputs (parts_of sites.now)) }
{
    let mut firings = List::new(alloc);
    let mut place = inputs;
    for (at, site) in sites.iter().enumerate() {
        push_firing(&mut firings, phase, at, place, site.part)?;
        place += part_wires(site.part);
    }
    Ok(firings)
}

// Whether a root is a cell of a phase, or for no phase an input.
fn is_of(clock: Option<u32>, its_clock: Option<u8>) -> bool
    ensures { result ≡ is_of clock its_clock }
{
    match clock {
        None => its_clock.is_none(),
        Some(phase) => match its_clock {
            None => false,
            Some(its_phase) => phase == u32::from(its_phase),
        },
    }
}

const FIRST: PinBits = PinBits {
    first: true,
    second: false,
    third: false,
};

const SECOND: PinBits = PinBits {
    first: false,
    second: true,
    third: false,
};

const THIRD: PinBits = PinBits {
    first: false,
    second: false,
    third: true,
};

fn push_delivery(
    deliveries: &mut List<Delivery>,
    clock: Option<u32>,
    at: u32,
    pin: PinBits,
    root: Option<Root>,
) -> Result<(), NoMemory>
    ensures { OnOk result (deliveries.new ≡ deliveries.old ++ pin_deliveries clock at pin root) }
{
    if let Some(root) = root {
        if is_of(clock, root.clock) {
            deliveries.push(Delivery {
                root: root.place,
                at,
                pin,
            })?;
        }
    }
    Ok(())
}

fn push_deliveries(
    deliveries: &mut List<Delivery>,
    clock: Option<u32>,
    at: usize,
    roots: &[Option<Root>],
    part: Part,
) -> Result<(), NoMemory>
    requires { at + part_wires part ≤ MAX_WIRES }
    ensures { OnOk result (deliveries.new ≡ deliveries.old ++ part_deliveries clock at roots.now part) }
{
    if let Part::Clocked(_, _, pins) = part {
        let at = at as u32;
        push_delivery(deliveries, clock, at, FIRST, root_at(roots, pins.first))?;
        push_delivery(deliveries, clock, at, SECOND, root_at(roots, pins.second))?;
        push_delivery(deliveries, clock, at, THIRD, root_at(roots, pins.third))?;
    }
    Ok(())
}

/// The deliveries from cells of a phase, or for no phase from inputs.
pub(crate) fn deliveries_of(
    alloc: Global,
    clock: Option<u32>,
    inputs: usize,
    sites: &[Site],
) -> Result<List<Delivery>, NoMemory>
    requires { inputs + site_wires sites.now ≤ MAX_WIRES }
    ensures { IfOk result (λ deliveries. deliveries ≡ deliveries_of clock inputs (parts_of sites.now)) }
{
    let mut roots = input_roots(alloc, inputs)?;
    let mut deliveries = List::new(alloc);
    for (at, site) in sites.iter().enumerate() {
        push_deliveries(&mut deliveries, clock, at, &roots, site.part)?;
        push_roots(&mut roots, site.part)?;
    }
    Ok(deliveries)
}

/// What is done in the ticks of each phase.
pub(crate) fn all_wakes(
    alloc: Global,
    phases: u32,
    inputs: usize,
    sites: &[Site],
) -> Result<List<Wakes>, NoMemory>
    requires { inputs + site_wires sites.now ≤ MAX_WIRES }
    ensures { IfOk result (λ wakes. wakes ≡ all_wakes phases inputs (parts_of sites.now)) }
{
    let mut wakes = List::new(alloc);
    for phase in 0..phases {
        let firings = firings_of(alloc, phase, inputs, sites)?;
        let deliveries = deliveries_of(alloc, Some(phase), inputs, sites)?;
        wakes.push(Wakes {
            firings,
            deliveries,
        })?;
    }
    Ok(wakes)
}
