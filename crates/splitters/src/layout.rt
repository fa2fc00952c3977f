//! What is laid out so far: elements, and the wires of pins.

ghost use Rattle.std.specs.Prelude.{◌≡◌, ◌<◌, ◌≤◌, ◌+◌, ◌*◌, ◌-◌, ◌^◌, [], All, IfOk, OnOk, length, take, drop, replicate};
ghost use Rattle.splitters.specs.Spread.{spread_wires};
ghost use Rattle.splitters.specs.Elements.{Layout, take_wires, with_cell, with_spread, with_last, with_tap, with_dro, with_chain};

use crate::spread::spread;
use cell_lib::Cell;
use net_base::{List, NoMemory};
use pulse_net::Element;
use std::alloc::Global;
use std::marker::Model;

/// The elements so far, in order, and the wire of each pin that has one.
#[derive(Drop)]
pub(crate) struct Layout {
    next: u32,
    elements: Vec<Element>,
    taken: Vec<u32>,
}

impl Model for Layout {
    ghost use Rattle.splitters.specs.Elements.{Layout as LaidOut};

    ghost Value = { LaidOut };

    ghost view = { λ layout. record { next = layout.next; elements = layout.elements.items; taken = layout.taken.items } };
}

// Each pin takes its wire.
fn take_wires(taken: &mut Vec<u32>, pins: &[u32], wires: &[u32])
    requires each { length wires.now ≡ length pins.now }
    requires below { All (λ pin. pin < length taken.old.items) pins.now }
    ensures value { taken.new.items ≡ take_wires pins.now wires.now taken.old.items }
    ensures count { length taken.new.items ≡ length taken.old.items }
{
    for (i, pin) in pins.iter().enumerate() {
        taken[*pin as usize] = wires[i];
    }
}

impl Layout {
    /// Nothing is laid out, and the wires below `next` are the inputs'.
    pub(crate) fn new(alloc: Global, next: u32, pins: usize) -> Result<Layout, NoMemory>
        ensures { IfOk result (λ layout. layout ≡ record { next = next; elements = []; taken = replicate pins 0 }) }
    {
        Ok(Layout {
            next,
            elements: Vec::new(alloc),
            taken: vec![in alloc; 0; pins]?,
        })
    }

    /// A clocked element that makes the next wire, and that wire.
    pub(crate) fn cell(&mut self, cell: Cell, stage: u32, pins: List<u32>) -> Result<u32, NoMemory>
        requires { self.old.next + 1 < 2 ^ 32 }
        ensures ok { OnOk result (self.new ≡ with_cell cell stage pins self.old) }
        ensures wire { IfOk result (λ wire. wire ≡ self.old.next) }
    {
        let out = self.next;
        self.next = out + 1;
        self.elements.push(Element::Clocked {
            cell,
            stage,
            pins,
            out,
        })?;
        Ok(out)
    }

    /// The wires of `count` pins from one on.
    pub(crate) fn wires(
        &self,
        alloc: Global,
        pin: usize,
        count: usize,
    ) -> Result<List<u32>, NoMemory>
        requires { pin + count ≤ length self.now.taken }
        ensures { IfOk result (λ wires. wires ≡ take count (drop pin self.now.taken)) }
    {
        List::from_slice(alloc, &self.taken.as_slice()[pin..pin + count])
    }

    /// The wires of all pins, in the order of pins.
    pub(crate) fn taken(&self) -> &[u32]
        ensures { result.now ≡ self.now.taken }
    {
        self.taken.as_slice()
    }

    /// The elements in order.
    pub(crate) fn into_elements(self) -> List<Element>
        ensures { result ≡ self.elements }
    {
        let Layout { elements, .. } = self;
        List::from_vec(elements)
    }

    // Spreads a wire over targets, and answers their wires.
    fn spread(&mut self, alloc: Global, wire: u32, targets: usize) -> Result<Vec<u32>, NoMemory>
        requires { self.old.next + 2 * targets < 2 ^ 32 }
        ensures ok { OnOk result (self.new ≡ with_spread wire targets self.old) }
        ensures wires { IfOk result (λ wires. wires.items ≡ spread_wires wire self.old.next targets) }
        ensures count { IfOk result (λ wires. length wires.items ≡ targets) }
    {
        let count = targets as u32;
        let mut wires = Vec::with_capacity(alloc, targets)?;
        spread(&mut self.elements, &mut wires, wire, self.next, count)?;
        self.next += 2 * count.saturating_sub(1);
        Ok(wires)
    }

    // The last wire of a chain is spread over its pins.
    fn lay_last(&mut self, alloc: Global, wire: u32, pins: &[u32]) -> Result<(), NoMemory>
        requires below { All (λ pin. pin < length self.old.taken) pins.now }
        requires room { (with_last wire pins.now self.old).next + 2 < 2 ^ 32 }
        ensures ok { OnOk result (self.new ≡ with_last wire pins.now self.old) }
        ensures pins { OnOk result (length self.new.taken ≡ length self.old.taken) }
    {
        let wires = self.spread(alloc, wire, pins.len())?;
        take_wires(&mut self.taken, pins, wires.as_slice());
        Ok(())
    }

    // A wire is spread over the next DRO, at a stage, and pins. The wire that the DRO makes.
    fn lay_dro(
        &mut self,
        alloc: Global,
        stage: u32,
        wire: u32,
        pins: &[u32],
    ) -> Result<u32, NoMemory>
        requires below { All (λ pin. pin < length self.old.taken) pins.now }
        requires room { (with_dro stage wire pins.now self.old).next + 2 < 2 ^ 32 }
        ensures ok { OnOk result (self.new ≡ with_dro stage wire pins.now self.old) }
        ensures wire { IfOk result (λ out. out ≡ (with_tap wire pins.now self.old).next) }
        ensures pins { OnOk result (length self.new.taken ≡ length self.old.taken) }
    {
        let wires = self.spread(alloc, wire, pins.len() + 1)?;
        take_wires(&mut self.taken, pins, &wires.as_slice()[1..]);
        let from = List::from_slice(alloc, &[wires[0]])?;
        self.cell(Cell::Dro, stage, from)
    }

    /// The chain of a driver from its wire and stage, each DRO n stages behind the last.
    pub(crate) fn lay_chain(
        &mut self,
        alloc: Global,
        n: u32,
        mut stage: u32,
        mut wire: u32,
        taps: &[List<u32>],
    ) -> Result<(), NoMemory>
        requires below { All (λ pins. All (λ pin. pin < length self.old.taken) pins) taps.now }
        requires fits { stage + n * (length taps.now - 1) < 2 ^ 32 }
        requires room { (with_chain n stage wire taps.now self.old).next + 2 < 2 ^ 32 }
        ensures ok { OnOk result (self.new ≡ with_chain n stage wire taps.now self.old) }
        ensures pins { OnOk result (length self.new.taken ≡ length self.old.taken) }
    {
        for (k, pins) in taps.iter().enumerate() {
            if k + 1 < taps.len() {
                stage += n;
                wire = self.lay_dro(alloc, stage, wire, pins.as_slice())?;
            } else {
                self.lay_last(alloc, wire, pins.as_slice())?;
            }
        }
        Ok(())
    }
}
