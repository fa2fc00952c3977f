//! What a netlist is made of, counted.

ghost use Rattle.std.specs.Prelude.{◌≡◌, ◌+◌, ◌<◌, ◌≤◌, ◌^◌, ◌∷◌, [], length};
ghost use Rattle.pulse_net.specs.Dros.{dros};
ghost use Rattle.synth.specs.Counts as spec;

use cell_lib::{SPLITTER_COST, cost, is_dro};
use pulse_net::Element;

/// How many elements of each kind a netlist has, and the junctions of all.
#[derive(Clone, Copy, Debug, PartialEq, Eq)]
pub(crate) struct Counts {
    /// The clocked elements that are no DROs.
    pub gates: u64,
    /// The DROs.
    pub dros: u64,
    /// The splitters.
    pub splits: u64,
    /// The Josephson junctions of all elements.
    pub junctions: u64,
}

/// Counts elements.
pub(crate) fn counts_of(elements: &[Element]) -> Counts
    requires { length elements.now < 2 ^ 32 }
    ensures gates { result.gates ≡ spec.counted spec.is_gate elements.now }
    ensures few { result.gates < 2 ^ 32 }
    ensures dros { result.dros ≡ dros elements.now }
    ensures splits { result.splits ≡ spec.counted spec.is_split elements.now }
    ensures junctions { result.junctions ≡ spec.counted spec.element_junctions elements.now }
{
    let mut counts = Counts {
        gates: 0,
        dros: 0,
        splits: 0,
        junctions: 0,
    };
    for element in elements {
        add(&mut counts, element);
    }
    counts
}

// One element more.
fn add(counts: &mut Counts, element: &Element)
    requires gates { counts.old.gates < 2 ^ 32 }
    requires dros { counts.old.dros < 2 ^ 32 }
    requires splits { counts.old.splits < 2 ^ 32 }
    requires junctions { counts.old.junctions < 2 ^ 36 }
    ensures gates { counts.new.gates ≡ counts.old.gates + spec.is_gate element.now }
    ensures dros { counts.new.dros ≡ counts.old.dros + dros (element.now ∷ []) }
    ensures splits { counts.new.splits ≡ counts.old.splits + spec.is_split element.now }
    ensures junctions { counts.new.junctions ≡ counts.old.junctions + spec.element_junctions element.now }
{
    match element {
        Element::Clocked { cell, .. } => {
            if is_dro(*cell) {
                counts.dros += 1;
            } else {
                counts.gates += 1;
            }
            counts.junctions += cost(*cell);
        }
        Element::Split { .. } => {
            counts.splits += 1;
            counts.junctions += SPLITTER_COST;
        }
    }
}
