//! One tick of the sites: the cells of its phase fire, and then their pulses are delivered, and those of the inputs.

ghost use Rattle.std.specs.Prelude.{◌≡◌, ℕ, ◌<◌, ◌+◌, [], None, false, length, take, map, slice_index_or, All, if◌then◌else◌};
ghost use Rattle.std.specs.List.{fold};
ghost use Rattle.pulse_sim.specs.Sites.{sweep, site_wires};
ghost use Rattle.pulse_sim.specs.Roots.{parts_of, roots_of, root_pulse};
ghost use Rattle.pulse_sim.specs.Wakes.{part_fires, deliveries_of, phase_wakes, fired, with_pulse, delivered};

use crate::site::{Part, PinBits, Site, is_set, value_of};
use crate::wakes::{Delivery, Firing, Wakes};

const NO_BITS: PinBits = PinBits {
    first: false,
    second: false,
    third: false,
};

// What a cell does at its clock.
fn part_fires(part: Part, bits: PinBits) -> bool
    ensures { result ≡ part_fires part bits }
{
    match part {
        Part::Clocked(cell, _, _) => value_of(cell, bits),
        Part::Split(_) => false,
    }
}

// Cells look at their bits and pulse, and their clock clears the bits.
fn fire(firings: &[Firing], sites: &mut [Site], pulses: &mut [bool])
    requires { All (λ firing. (firing.at < length sites.old) × (firing.place < length pulses.old)) firings.now }
    ensures { fold fired (record { seen = pulses.old; sites = sites.old }) firings.now ≡ record { seen = pulses.new; sites = sites.new } }
{
    for firing in firings {
        let at = firing.at as usize;
        let site = sites[at];
        pulses[firing.place as usize] = part_fires(site.part, site.bits);
        sites[at].bits = NO_BITS;
    }
}

// A pulse sets the bit of its pin. No branch depends on the pulse or the pin, since both follow no pattern.
fn with_pulse(bits: PinBits, pin: PinBits, pulse: bool) -> PinBits
    ensures { result ≡ with_pulse bits pin pulse }
{
    PinBits {
        first: bits.first | (pulse & pin.first),
        second: bits.second | (pulse & pin.second),
        third: bits.third | (pulse & pin.third),
    }
}

// Pins take the pulses of their roots.
fn deliver(deliveries: &[Delivery], pulses: &[bool], sites: &mut [Site])
    requires { All (λ delivery. delivery.at < length sites.old) deliveries.now }
    ensures { fold (delivered pulses.now) sites.old deliveries.now ≡ sites.new }
{
    for delivery in deliveries {
        let at = delivery.at as usize;
        let pulse = is_set(pulses, delivery.root as usize);
        sites[at].bits = with_pulse(sites[at].bits, delivery.pin, pulse);
    }
}

// The same, unless nothing can come from the roots.
fn deliver_some(is_some: bool, deliveries: &[Delivery], pulses: &[bool], sites: &mut [Site])
    requires { All (λ delivery. delivery.at < length sites.old) deliveries.now }
    ensures { (if is_some then fold (delivered pulses.now) sites.old deliveries.now else sites.old) ≡ sites.new }
{
    if is_some {
        deliver(deliveries, pulses, sites);
    }
}

/// One tick of all sites, in which the used inputs, which are so many, do what stands in the first places. Behind it the place of
/// each cell of the phase says what the cell did.
pub(crate) fn turn(
    phase: u32,
    wakes: &Wakes,
    from_inputs: &[Delivery],
    inputs: usize,
    is_fed: bool,
    sites: &mut [Site],
    pulses: &mut [bool],
)
    requires wakes { wakes.now ≡ phase_wakes inputs (parts_of sites.old) phase }
    requires from_inputs { from_inputs.now ≡ deliveries_of None inputs (parts_of sites.old) }
    requires fed { is_fed ≡ false → (place : ℕ) → place < inputs → slice_index_or pulses.old place false ≡ false }
    requires room { inputs + site_wires sites.old ≡ length pulses.old }
    ensures swept { sweep phase sites.old (record { seen = take inputs pulses.old; sites = [] }) ≡ record { seen = map (root_pulse phase pulses.new) (roots_of inputs (parts_of sites.old)); sites = sites.new } }
    ensures parts { parts_of sites.new ≡ parts_of sites.old }
    ensures wires { site_wires sites.new ≡ site_wires sites.old }
{
    fire(wakes.firings.as_slice(), sites, pulses);
    deliver(wakes.deliveries.as_slice(), pulses, sites);
    deliver_some(is_fed, from_inputs, pulses, sites);
}
