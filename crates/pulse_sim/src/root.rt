//! The root of a wire: the input or the clocked cell whose pulse it carries, through splitters. In a tick a wire does what its root does,
//! so splitters have nothing to do.

ghost use Rattle.std.specs.Prelude.{◌≡◌, ◌<◌, ◌≤◌, ◌+◌, ◌++◌, Some, length, map, IfOk, OnOk};
ghost use Rattle.pulse_sim.specs.Sites.{part_wires, site_wires};
ghost use Rattle.pulse_sim.specs.Roots.{parts_of, root_at, part_roots, input_roots, roots_of, may_pulse, root_pulse, shown_by, shown_pulse};
ghost use Rattle.pulse_sim.specs.declared.layout.TheConstants.{MAX_WIRES};

use crate::site::{Part, Site, Tap, is_set};
use net_base::{List, NoMemory};
use std::alloc::Global;

/// The root of a wire.
#[derive(Clone, Copy)]
pub(crate) struct Root {
    /// The place of its own wire.
    pub(crate) place: u32,
    /// The phase of the cell. An input has none.
    pub(crate) clock: Option<u8>,
}

/// The root of the wire at a place, where those of the first wires are known.
pub(crate) fn root_at(roots: &[Option<Root>], place: Option<u32>) -> Option<Root>
    ensures { result ≡ root_at roots.now place }
{
    match place {
        Some(place) => root_in(roots, place as usize),
        None => None,
    }
}

fn root_in(roots: &[Option<Root>], place: usize) -> Option<Root>
    ensures { result ≡ root_at roots.now (Some place) }
{
    if place < roots.len() {
        roots[place]
    } else {
        None
    }
}

/// The roots of so many used inputs.
pub(crate) fn input_roots(alloc: Global, inputs: usize) -> Result<Vec<Option<Root>>, NoMemory>
    requires { inputs ≤ MAX_WIRES }
    ensures roots { IfOk result (λ roots. roots.items ≡ input_roots inputs) }
    ensures count { IfOk result (λ roots. length roots.items ≡ inputs) }
{
    let mut roots = Vec::new(alloc);
    for input in 0..inputs {
        roots.push(Some(Root {
            place: input as u32,
            clock: None,
        }))?;
    }
    Ok(roots)
}

/// Adds the roots of the wires of a part.
pub(crate) fn push_roots(roots: &mut Vec<Option<Root>>, part: Part) -> Result<(), NoMemory>
    requires room { length roots.old.items + part_wires part ≤ MAX_WIRES }
    ensures roots { OnOk result (roots.new.items ≡ roots.old.items ++ part_roots roots.old.items part) }
    ensures wires { OnOk result (length roots.new.items ≡ length roots.old.items + part_wires part) }
    ensures some { OnOk result (length roots.old.items < length roots.new.items) }
{
    match part {
        Part::Clocked(_, its_phase, _) => {
            let place = roots.len() as u32;
            roots.push(Some(Root {
                place,
                clock: Some(its_phase),
            }))?;
        }
        Part::Split(from) => {
            let left = root_at(roots, from);
            let right = left;
            roots.push(left)?;
            roots.push(right)?;
        }
    }
    Ok(())
}

/// The roots of all wires.
pub(crate) fn roots_of(
    alloc: Global,
    inputs: usize,
    sites: &[Site],
) -> Result<Vec<Option<Root>>, NoMemory>
    requires { inputs + site_wires sites.now ≤ MAX_WIRES }
    ensures { IfOk result (λ roots. roots.items ≡ roots_of inputs (parts_of sites.now)) }
{
    let mut roots = input_roots(alloc, inputs)?;
    for site in sites {
        push_roots(&mut roots, site.part)?;
    }
    Ok(roots)
}

fn may_pulse(phase: u32, clock: Option<u8>) -> bool
    ensures { result ≡ may_pulse phase clock }
{
    match clock {
        None => true,
        Some(its_phase) => phase == u32::from(its_phase),
    }
}

fn root_pulse(phase: u32, pulses: &[bool], root: Option<Root>) -> bool
    ensures { result ≡ root_pulse phase pulses.now root }
{
    match root {
        None => false,
        Some(root) => may_pulse(phase, root.clock) && is_set(pulses, root.place as usize),
    }
}

/// What an output shows: nothing, the first tick of each epoch, or what the root of its wire does.
#[derive(Clone, Copy)]
pub(crate) enum Shown {
    /// No pulse.
    Zero,
    /// A pulse at each first tick of an epoch.
    One,
    /// This root.
    Of(Option<Root>),
}

fn shown_by(roots: &[Option<Root>], tap: Tap) -> Shown
    ensures { result ≡ shown_by roots.now tap }
{
    match tap {
        Tap::Zero => Shown::Zero,
        Tap::One => Shown::One,
        Tap::At(place) => Shown::Of(root_at(roots, place)),
    }
}

/// What all outputs show.
pub(crate) fn all_shown(
    alloc: Global,
    roots: &[Option<Root>],
    taps: &[Tap],
) -> Result<List<Shown>, NoMemory>
    ensures { IfOk result (λ shown. shown ≡ map (shown_by roots.now) taps.now) }
{
    let mut shown = List::new(alloc);
    for tap in taps {
        shown.push(shown_by(roots, *tap))?;
    }
    Ok(shown)
}

/// What an output does in a tick, of its number modulo the phases.
fn shown_pulse(tick: u32, pulses: &[bool], shown: Shown) -> bool
    ensures { result ≡ shown_pulse tick pulses.now shown }
{
    match shown {
        Shown::Zero => false,
        Shown::One => tick == 0,
        Shown::Of(root) => root_pulse(tick, pulses, root),
    }
}

/// What all outputs do in a tick.
pub(crate) fn write_shown(tick: u32, pulses: &[bool], shown: &[Shown], outputs: &mut [bool])
    requires { length outputs.old ≡ length shown.now }
    ensures { outputs.new ≡ map (shown_pulse tick pulses.now) shown.now }
{
    for (at, its) in shown.iter().enumerate() {
        outputs[at] = shown_pulse(tick, pulses, *its);
    }
}
