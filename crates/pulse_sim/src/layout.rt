//! Laying out a simulator: the wires of a netlist in the order in which they are made, and each element and output by places.

ghost use Rattle.std.specs.Prelude.{◌≡◌, ◌<◌, ◌≤◌, [], IfOk, OnOk, slice_get, nat_eq, map, length, flat_map, option_to_list};
ghost use Rattle.std.specs.List.{position};
ghost use Rattle.indexmap.specs.IndexSet.{insert_all};
ghost use Rattle.flow_net.specs.TheConstants.{MAX_PHASES};
ghost use Rattle.pulse_net.specs.Validity.{IsValid};
ghost use Rattle.pulse_net.specs.Wired.{element_makes, makes_of};
ghost use Rattle.pulse_sim.specs.declared.layout.TheConstants.{MAX_WIRES};
ghost use Rattle.pulse_sim.specs.Simulators.{place_of, pin_place, site_of, tap_of, used_inputs};

use crate::site::{Part, PinBits, PinPlaces, Site, Tap};
use indexmap::IndexSet;
use net_base::{List, NoMemory};
use pulse_net::{Element, Outlet, PulseNet, unbroken_is_wired};
use std::alloc::Global;

/// The wires of a valid netlist, in the order in which they are made.
pub(crate) fn made_wires(alloc: Global, net: &PulseNet) -> Result<IndexSet<u32>, NoMemory>
    requires { IsValid net.now }
    ensures { IfOk result (λ wires. wires.keys ≡ makes_of net.now) }
{
    unbroken_is_wired();
    let mut wires = IndexSet::new(alloc);
    insert_inputs(&mut wires, net.inputs.as_slice())?;
    insert_elements(&mut wires, net.elements.as_slice())?;
    Ok(wires)
}

fn insert_inputs(wires: &mut IndexSet<u32>, inputs: &[Option<u32>]) -> Result<(), NoMemory>
    ensures { OnOk result (wires.new.keys ≡ insert_all nat_eq wires.old.keys (flat_map option_to_list inputs.now)) }
{
    for input in inputs {
        if let Some(wire) = input {
            wires.insert(*wire)?;
        }
    }
    Ok(())
}

fn insert_made(wires: &mut IndexSet<u32>, element: &Element) -> Result<(), NoMemory>
    ensures { OnOk result (wires.new.keys ≡ insert_all nat_eq wires.old.keys (element_makes element.now)) }
{
    match element {
        Element::Clocked { out, .. } => {
            wires.insert(*out)?;
        }
        Element::Split { left, right, .. } => {
            wires.insert(*left)?;
            wires.insert(*right)?;
        }
    }
    Ok(())
}

fn insert_elements(wires: &mut IndexSet<u32>, elements: &[Element]) -> Result<(), NoMemory>
    ensures { OnOk result (wires.new.keys ≡ insert_all nat_eq wires.old.keys (flat_map element_makes elements.now)) }
{
    for element in elements {
        insert_made(wires, element)?;
    }
    Ok(())
}

/// The wires of a simulator at most: 2^32, so that the place of each is a `u32`, and an element is small. No netlist has more, since
/// the numbers of its wires differ, and are `u32`s.
pub(crate) const MAX_WIRES: usize = 4_294_967_296;

// The place of a wire in the order.
fn place_of(net: &PulseNet, wires: &IndexSet<u32>, wire: u32) -> Option<u32>
    requires few { length wires.now.keys ≤ MAX_WIRES }
    requires wires { wires.now.keys ≡ makes_of net.now }
    ensures { result ≡ place_of net.now wire }
{
    match wires.get_index_of(&wire) {
        None => None,
        Some(place) => Some(place as u32),
    }
}

// The place of the wire of one of the pins.
fn pin_place(net: &PulseNet, wires: &IndexSet<u32>, pins: &[u32], pin: usize) -> Option<u32>
    requires few { length wires.now.keys ≤ MAX_WIRES }
    requires wires { wires.now.keys ≡ makes_of net.now }
    ensures { result ≡ pin_place net.now (slice_get pins.now pin) }
{
    match pins.get(pin) {
        None => None,
        Some(wire) => place_of(net, wires, *wire),
    }
}

fn pin_places(net: &PulseNet, wires: &IndexSet<u32>, pins: &[u32]) -> PinPlaces
    requires few { length wires.now.keys ≤ MAX_WIRES }
    requires wires { wires.now.keys ≡ makes_of net.now }
    ensures { result ≡ record { first = pin_place net.now (slice_get pins.now 0); second = pin_place net.now (slice_get pins.now 1); third = pin_place net.now (slice_get pins.now 2) } }
{
    PinPlaces {
        first: pin_place(net, wires, pins, 0),
        second: pin_place(net, wires, pins, 1),
        third: pin_place(net, wires, pins, 2),
    }
}

// An element before the first tick.
fn site_of(net: &PulseNet, wires: &IndexSet<u32>, element: &Element) -> Site
    requires few { length wires.now.keys ≤ MAX_WIRES }
    requires wires { wires.now.keys ≡ makes_of net.now }
    requires some_phases { 0 < net.now.phases }
    requires few_phases { net.now.phases ≤ MAX_PHASES }
    ensures { result ≡ site_of net.now [] element.now }
{
    let part = match element {
        Element::Clocked {
            cell,
            stage,
            pins,
            ..
        } => Part::Clocked(
            *cell,
            (*stage % net.phases) as u8,
            pin_places(net, wires, pins.as_slice()),
        ),
        Element::Split { from, .. } => Part::Split(place_of(net, wires, *from)),
    };
    Site {
        part,
        bits: PinBits {
            first: false,
            second: false,
            third: false,
        },
    }
}

/// All elements before the first tick.
pub(crate) fn sites_of(
    alloc: Global,
    net: &PulseNet,
    wires: &IndexSet<u32>,
) -> Result<Vec<Site>, NoMemory>
    requires few { length wires.now.keys ≤ MAX_WIRES }
    requires wires { wires.now.keys ≡ makes_of net.now }
    requires some_phases { 0 < net.now.phases }
    requires few_phases { net.now.phases ≤ MAX_PHASES }
    ensures { IfOk result (λ sites. sites.items ≡ map (site_of net.now []) net.now.elements) }
{
    let mut sites = Vec::with_capacity(alloc, net.elements.len())?;
    for element in net.elements.as_slice() {
        sites.push(site_of(net, wires, element))?;
    }
    Ok(sites)
}

// An output by the place of its wire.
fn tap_of(net: &PulseNet, wires: &IndexSet<u32>, outlet: Outlet) -> Tap
    requires few { length wires.now.keys ≤ MAX_WIRES }
    requires wires { wires.now.keys ≡ makes_of net.now }
    ensures { result ≡ tap_of net.now outlet }
{
    match outlet {
        Outlet::Zero => Tap::Zero,
        Outlet::One => Tap::One,
        Outlet::Wire(wire) => Tap::At(place_of(net, wires, wire)),
    }
}

/// All outputs by the places of their wires.
pub(crate) fn taps_of(
    alloc: Global,
    net: &PulseNet,
    wires: &IndexSet<u32>,
) -> Result<List<Tap>, NoMemory>
    requires few { length wires.now.keys ≤ MAX_WIRES }
    requires wires { wires.now.keys ≡ makes_of net.now }
    ensures { IfOk result (λ taps. taps ≡ map (tap_of net.now) net.now.outputs) }
{
    let mut taps = List::new(alloc);
    for outlet in net.outputs.as_slice() {
        taps.push(tap_of(net, wires, *outlet))?;
    }
    Ok(taps)
}

/// Which inputs make a wire.
pub(crate) fn used_inputs(alloc: Global, inputs: &[Option<u32>]) -> Result<List<usize>, NoMemory>
    ensures { IfOk result (λ used. used ≡ used_inputs 0 inputs.now) }
{
    let mut used = List::new(alloc);
    for (place, input) in inputs.iter().enumerate() {
        if input.is_some() {
            used.push(place)?;
        }
    }
    Ok(used)
}
