//! The elements of a netlist, traced in order: what drives each wire, and the gates so far.

ghost use Rattle.std.specs.Prelude.{◌≡◌, ◌<◌, ◌^◌, length, map, OnOk, IfOk};
ghost use Rattle.pulse_net.specs.Unfolding.{Unfolding, nothing_unfolded, driver_of, make_driven, pass_dro, add_gate, unfold_cell, unfold_element, end_of, dro_driver};

use crate::net::{Element, Outlet};
use cell_lib::{Cell, is_dro};
use gate_net::{Driver, End, GateRow, Gates};
use indexmap::IndexMap;
use net_base::{List, NoMemory};
use std::alloc::Global;
use std::marker::Model;

/// What is known when some elements are traced.
#[derive(Drop)]
pub(crate) struct Trace {
    // What drives each wire so far.
    wires: IndexMap<u32, Driver>,
    // The gates so far, each with its stage.
    gates: Gates,
    stages: List<u32>,
    // The driver of each DRO passed.
    dros: List<Driver>,
}

impl Model for Trace {
    ghost use Rattle.pulse_net.specs.Unfolding.{Unfolding};

    ghost Value = { Unfolding };

    ghost view = { λ trace. record { wires = trace.wires.entries; gates = trace.gates; stages = trace.stages; dros = trace.dros } };
}

impl Trace {
    /// Nothing traced, and room for `most` wires.
    pub(crate) fn with_room(alloc: Global, most: usize) -> Result<Trace, NoMemory>
        ensures { IfOk result (λ trace. trace ≡ nothing_unfolded) }
    {
        Ok(Trace {
            wires: IndexMap::with_capacity(alloc, most)?,
            gates: Gates::new(alloc),
            stages: List::new(alloc),
            dros: List::new(alloc),
        })
    }

    /// Makes a wire with its driver; a wire is made once, so the first time counts.
    pub(crate) fn make(&mut self, wire: u32, driver: Driver) -> Result<(), NoMemory>
        ensures { OnOk result (self.new ≡ make_driven wire driver self.old) }
    {
        if self.wires.contains_key(&wire) {
            return Ok(());
        }
        self.wires.insert(wire, driver)?;
        Ok(())
    }

    /// A DRO hands its driver on, and is counted.
    fn pass_dro(&mut self, out: u32, driver: Driver) -> Result<(), NoMemory>
        ensures { OnOk result (self.new ≡ pass_dro out driver self.old) }
    {
        self.dros.push(driver)?;
        self.make(out, driver)
    }

    /// A cell that is no DRO is a gate of its own, and drives its wire.
    fn add_gate(
        &mut self,
        cell: Cell,
        stage: u32,
        out: u32,
        pins: List<Driver>,
    ) -> Result<(), NoMemory>
        requires { length self.old.gates < 2 ^ 31 }
        ensures { OnOk result (self.new ≡ add_gate cell stage out pins self.old) }
    {
        let place = self.gates.len() as u32;
        self.gates.push(GateRow { cell, pins })?;
        self.stages.push(stage)?;
        self.make(out, Driver::Gate(place))
    }

    /// Traces a clocked element. Only a gate keeps its drivers, so a DRO takes no memory for a list of them.
    fn pass_cell(
        &mut self,
        alloc: Global,
        cell: Cell,
        stage: u32,
        out: u32,
        pins: &[u32],
    ) -> Result<(), NoMemory>
        requires { length self.old.gates < 2 ^ 31 }
        ensures { OnOk result (self.new ≡ unfold_cell cell stage out (map (driver_of self.old.wires) pins.now) self.old) }
    {
        if is_dro(cell) {
            let driver = dro_driver(&self.wires, pins);
            self.pass_dro(out, driver)
        } else {
            let drivers = traced_drivers(alloc, &self.wires, pins)?;
            self.add_gate(cell, stage, out, drivers)
        }
    }

    /// Traces an element.
    pub(crate) fn pass_element(&mut self, alloc: Global, element: &Element) -> Result<(), NoMemory>
        requires { length self.old.gates < 2 ^ 31 }
        ensures { OnOk result (self.new ≡ unfold_element element.now self.old) }
    {
        match element {
            Element::Clocked {
                cell,
                stage,
                pins,
                out,
            } => self.pass_cell(alloc, *cell, *stage, *out, pins.as_slice()),
            Element::Split { from, left, right } => {
                let driver = driver_of(&self.wires, *from);
                self.make(*left, driver)?;
                self.make(*right, driver)
            }
        }
    }

    /// What the outputs give, in order.
    pub(crate) fn ends_of(&self, alloc: Global, outlets: &[Outlet]) -> Result<List<End>, NoMemory>
        ensures { IfOk result (λ ends. ends ≡ map (end_of self.now.wires) outlets.now) }
    {
        ends_of(alloc, &self.wires, outlets)
    }

    /// The stages of the gates, in order.
    pub(crate) fn stages(&self) -> &List<u32>
        ensures { result.now ≡ self.now.stages }
    {
        &self.stages
    }

    /// How many DROs were passed.
    pub(crate) fn dro_count(&self) -> u64
        ensures { result ≡ length self.now.dros }
    {
        self.dros.len() as u64
    }

    /// The gates, at the end.
    pub(crate) fn into_gates(self) -> Gates
        ensures { result ≡ self.gates }
    {
        let Trace { gates, .. } = self;
        gates
    }
}

/// The driver of a DRO: that of its pin.
fn dro_driver(wires: &IndexMap<u32, Driver>, pins: &[u32]) -> Driver
    ensures { result ≡ dro_driver (map (driver_of wires.now.entries) pins.now) }
{
    match pins {
        [pin, ..] => driver_of(wires, *pin),
        [] => Driver::Input(0),
    }
}

/// The driver of a wire.
fn driver_of(wires: &IndexMap<u32, Driver>, wire: u32) -> Driver
    ensures { result ≡ driver_of wires.now.entries wire }
{
    match wires.get(&wire) {
        Some(driver) => *driver,
        None => Driver::Input(0),
    }
}

/// The drivers of pins, from the left.
fn traced_drivers(
    alloc: Global,
    wires: &IndexMap<u32, Driver>,
    pins: &[u32],
) -> Result<List<Driver>, NoMemory>
    ensures { IfOk result (λ drivers. drivers ≡ map (driver_of wires.now.entries) pins.now) }
{
    let mut drivers = List::new(alloc);
    for pin in pins {
        drivers.push(driver_of(wires, *pin))?;
    }
    Ok(drivers)
}

/// What an output gives.
fn end_of(wires: &IndexMap<u32, Driver>, outlet: Outlet) -> End
    ensures { result ≡ end_of wires.now.entries outlet }
{
    match outlet {
        Outlet::Zero => End::Zero,
        Outlet::One => End::One,
        Outlet::Wire(wire) => End::From(driver_of(wires, wire)),
    }
}

/// What outputs give, in order.
fn ends_of(
    alloc: Global,
    wires: &IndexMap<u32, Driver>,
    outlets: &[Outlet],
) -> Result<List<End>, NoMemory>
    ensures { IfOk result (λ ends. ends ≡ map (end_of wires.now.entries) outlets.now) }
{
    let mut ends = List::new(alloc);
    for outlet in outlets {
        ends.push(end_of(wires, *outlet))?;
    }
    Ok(ends)
}
