//! The simulator: one tick after the other.

ghost use Rattle.std.specs.Prelude.{◌≡◌, ℕ, ◌<◌, ◌+◌, ◌++◌, ◌%◌, [], ◌∷◌, List, Bool, false, length, slice_index_or, IfOk};
ghost use Rattle.pulse_net.specs.declared.net.PulseNet.{PulseNet as Netlist};
ghost use Rattle.pulse_net.specs.Validity.{IsValid};
ghost use Rattle.pulse_sim.specs.Sites.{site_wires};
ghost use Rattle.pulse_sim.specs.Simulators.{SimState, StandsFor, tap_pulses, next_state, output_pulses};

use crate::layout::{MAX_WIRES, made_wires, sites_of, taps_of, used_inputs};
use crate::plan::{Plan, plan_of};
use crate::root::write_shown;
use crate::site::{Site, Tap, write_inputs};
use crate::turn::turn;
use net_base::{List, NoMemory};
use pulse_net::{PulseNet, unbroken_is_wired};
use std::alloc::Global;
use std::marker::Model;

/// A simulator of a netlist, which stands for the pulses on its inputs in all ticks so far. Contracts see a `SimState`.
#[derive(Drop)]
pub struct Sim {
    phases: u32,
    // The next tick modulo the phases.
    tick: u32,
    // Which inputs make a wire.
    inputs: List<usize>,
    sites: Vec<Site>,
    taps: List<Tap>,
    // What is done in the ticks.
    plan: Plan,
    // What used inputs do in the tick at hand and what cells did at their last clocks, by the places of their wires. Wires of splitters
    // have places too, of which nothing is said.
    pulses: Vec<bool>,
}

impl Model for Sim {
    ghost use Rattle.std.specs.Prelude.{◌≡◌, ◌<◌, ◌+◌, length};
    ghost use Rattle.pulse_sim.specs.Sites.{site_wires};
    ghost use Rattle.pulse_sim.specs.Roots.{parts_of};
    ghost use Rattle.pulse_sim.specs.Wakes.{plan_of};
    ghost use Rattle.pulse_sim.specs.Simulators.{SimState};

    ghost Value = { SimState };

    ghost view = { λ sim. record { phases = sim.phases; tick = sim.tick; inputs = sim.inputs; sites = sim.sites.items; taps = sim.taps } };

    // There is room for what each wire does, and the plan is that of the parts and taps.
    ghost invariant = { λ sim. (sim.tick < sim.phases) × (length sim.inputs + site_wires sim.sites.items ≡ length sim.pulses.items) × (sim.plan ≡ plan_of sim.phases (length sim.inputs) (parts_of sim.sites.items) sim.taps) };
}

impl Sim {
    /// A simulator of a valid netlist before the first tick: it stands for no pulses.
    pub fn new(alloc: Global, net: &PulseNet) -> Result<Sim, NoMemory>
        requires valid { IsValid net.now }
        ensures stands { IfOk result (λ sim. StandsFor net.now sim []) }
    {
        let wires = made_wires(alloc, net)?;
        // No wires are so many, since each has a number of its own of 32 bits.
        if wires.len() > MAX_WIRES {
            return Err(NoMemory);
        }
        let inputs = used_inputs(alloc, net.inputs.as_slice())?;
        let sites = sites_of(alloc, net, &wires)?;
        let taps = taps_of(alloc, net, &wires)?;
        let plan = plan_of(alloc, net.phases, inputs.len(), &sites, taps.as_slice())?;
        let pulses = vec![in alloc; false; wires.len()]?;
        Ok(Sim {
            phases: net.phases,
            tick: 0,
            inputs,
            sites,
            taps,
            plan,
            pulses,
        })
    }

    /// How many outputs there are.
    pub fn output_count(&self) -> usize
        ensures { result ≡ length self.now.taps }
    {
        self.taps.len()
    }

    /// The next tick, with these pulses on the inputs, and its pulses on the outputs. Takes no memory. An input past the end
    /// of `inputs` doesn't pulse.
    pub fn tick(&mut self, inputs: &[bool], outputs: &mut [bool])
        requires outputs { length outputs.old ≡ length self.old.taps }
        ensures outputs { (net : Netlist) (pulses : List (List Bool)) → IsValid net → StandsFor net self.old pulses → outputs.new ≡ output_pulses net (pulses ++ inputs.now ∷ []) (length pulses) }
        ensures stands { (net : Netlist) (pulses : List (List Bool)) → IsValid net → StandsFor net self.old pulses → StandsFor net self.new (pulses ++ inputs.now ∷ []) }
        ensures taps { self.new.taps ≡ self.old.taps }
    {
        unbroken_is_wired();
        self.advance(inputs, outputs);
    }

    // One tick of the sites and taps.
    fn advance(&mut self, inputs: &[bool], outputs: &mut [bool])
        requires { length outputs.old ≡ length self.old.taps }
        ensures state { self.new ≡ next_state self.old inputs.now }
        ensures outputs { outputs.new ≡ tap_pulses self.old inputs.now }
    {
        write_inputs(&mut self.pulses, self.inputs.as_slice(), inputs);
        turn(
            self.tick,
            self.plan.wakes.get(self.tick as usize),
            self.plan.from_inputs.as_slice(),
            self.inputs.len(),
            any_pulse(inputs),
            &mut self.sites,
            &mut self.pulses,
        );
        write_shown(self.tick, &self.pulses, self.plan.shown.as_slice(), outputs);
        self.tick = next_tick(self.tick, self.phases);
    }
}

/// The next tick modulo the phases.
fn next_tick(tick: u32, phases: u32) -> u32
    requires { tick < phases }
    ensures value { result ≡ (tick + 1) % phases }
    ensures below { result < phases }
{
    if tick + 1 == phases { 0 } else { tick + 1 }
}

// Whether any input pulses.
fn any_pulse(row: &[bool]) -> bool
    ensures { result ≡ false → (input : ℕ) → slice_index_or row.now input false ≡ false }
{
    row.iter().any(|pulse| *pulse)
}
