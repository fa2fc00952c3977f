//! The wires that a netlist made and used so far: the rules of one wire, and of the wires of one element.

ghost use Rattle.std.specs.Prelude.{◌≡◌, ◌<◌, ◌^◌, false, OnOk, IfOk, None, nat_eq};
ghost use Rattle.std.specs.Map.{keys_of};
ghost use Rattle.net_base.specs.Keys.{is_among};
ghost use Rattle.pulse_net.specs.Validity.{Wiring, unwired, make_wire, source_stage, with_used, use_wire, use_pins, wire_element, wire_output, is_gap, least_unused, with_unused, lesser};
ghost use Rattle.pulse_net.specs.Refusals.{ObeysRule};

use crate::fault::{Stop, Wrong};
use crate::net::{Element, Outlet};
use indexmap::{IndexMap, IndexSet};
use net_base::NoMemory;
use std::alloc::{AllocFailed, Global};
use std::marker::Model;

/// The wires made so far, each with its stage, and the wires used so far.
#[derive(Drop)]
pub(crate) struct Wires {
    made: IndexMap<u32, u32>,
    used: IndexSet<u32>,
}

impl Model for Wires {
    ghost use Rattle.pulse_net.specs.Validity.{Wiring};

    ghost Value = { Wiring };

    ghost view = { λ wires. record { made = wires.made.entries; used = wires.used.keys } };
}

impl Wires {
    /// No wires, and room for `most` of them.
    pub(crate) fn with_room(alloc: Global, most: usize) -> Result<Wires, NoMemory>
        ensures { IfOk result (λ wires. wires ≡ unwired) }
    {
        let made = IndexMap::with_capacity(alloc, most)?;
        let used = IndexSet::with_capacity(alloc, most)?;
        Ok(Wires { made, used })
    }

    /// Makes a wire at a stage.
    pub(crate) fn make(&mut self, wire: u32, stage: u32) -> Result<(), Stop>
        ensures { ObeysRule result (make_wire wire stage self.old) self.new }
    {
        if self.made.contains_key(&wire) {
            return Err(Stop::Wrong(Wrong::MadeTwice(wire)));
        }
        self.made.insert(wire, stage)?;
        Ok(())
    }

    /// The stage of a wire that may be used.
    fn source_stage(&self, wire: u32) -> Result<u32, Wrong>
        ensures { result ≡ source_stage self.now wire }
    {
        match self.made.get(&wire) {
            None => Err(Wrong::Unmade(wire)),
            Some(_) if self.used.contains(&wire) => Err(Wrong::UsedTwice(wire)),
            Some(stage) => Ok(*stage),
        }
    }

    /// Uses a wire that isn't used yet.
    fn mark_used(&mut self, wire: u32) -> Result<(), AllocFailed<u32>>
        requires { is_among nat_eq wire self.old.used ≡ false }
        ensures { OnOk result (self.new ≡ with_used self.old wire) }
    {
        self.used.insert(wire)?;
        Ok(())
    }

    /// Uses a wire at a stage, that of the user.
    fn use_wire(&mut self, phases: u32, user: u64, wire: u32) -> Result<(), Stop>
        requires { user < 2 ^ 40 }
        ensures { ObeysRule result (use_wire phases user wire self.old) self.new }
    {
        let stage = self.source_stage(wire)?;
        if !is_gap(phases, stage, user) {
            return Err(Stop::Wrong(Wrong::Gap(wire, user as i64 - i64::from(stage))));
        }
        self.mark_used(wire)?;
        Ok(())
    }

    /// Uses the pins of a cell from the left.
    fn use_pins(&mut self, phases: u32, user: u32, pins: &[u32]) -> Result<(), Stop>
        ensures { ObeysRule result (use_pins phases user pins.now self.old) self.new }
    {
        for pin in pins {
            self.use_wire(phases, u64::from(user), *pin)?;
        }
        Ok(())
    }

    /// An element uses its pins, and then makes its outputs.
    pub(crate) fn pass_element(&mut self, phases: u32, element: &Element) -> Result<(), Stop>
        ensures { ObeysRule result (wire_element phases element.now self.old) self.new }
    {
        match element {
            Element::Clocked {
                stage,
                pins,
                out,
                ..
            } => {
                self.use_pins(phases, *stage, pins.as_slice())?;
                self.make(*out, *stage)
            }
            Element::Split { from, left, right } => {
                let stage = self.source_stage(*from)?;
                self.mark_used(*from)?;
                self.make(*left, stage)?;
                self.make(*right, stage)
            }
        }
    }

    /// An output that isn't constant uses its wire when it is read.
    pub(crate) fn pass_output(
        &mut self,
        phases: u32,
        latency: u32,
        outlet: Outlet,
    ) -> Result<(), Stop>
        requires { phases < 256 }
        ensures { ObeysRule result (wire_output phases latency outlet self.old) self.new }
    {
        match outlet {
            Outlet::Zero | Outlet::One => Ok(()),
            Outlet::Wire(wire) => {
                self.use_wire(phases, u64::from(phases) * u64::from(latency), wire)
            }
        }
    }

    /// The least wire that is made and isn't used.
    pub(crate) fn least_unused(&self) -> Option<u32>
        ensures { result ≡ least_unused self.now.used None (keys_of self.now.made) }
    {
        let mut least = None;
        for wire in self.made.keys().as_slice() {
            least = self.with_unused(*wire, least);
        }
        least
    }

    // The least wire so far, with this one if it isn't used.
    fn with_unused(&self, wire: u32, least: Option<u32>) -> Option<u32>
        ensures { result ≡ with_unused self.now.used wire least }
    {
        if self.used.contains(&wire) {
            least
        } else {
            Some(lesser(wire, least))
        }
    }
}

/// Whether from the stage of a wire to that of its user are 1 to n ticks, for n phases.
fn is_gap(phases: u32, stage: u32, user: u64) -> bool
    requires { user < 2 ^ 40 }
    ensures { result ≡ is_gap phases stage user }
{
    u64::from(stage) < user && user <= u64::from(stage) + u64::from(phases)
}

/// The lesser of a wire and another, if there is another.
fn lesser(wire: u32, other: Option<u32>) -> u32
    ensures { result ≡ lesser wire other }
{
    match other {
        None => wire,
        Some(other) if wire < other => wire,
        Some(other) => other,
    }
}
