//! Gate netlists.

ghost use Rattle.std.specs.Prelude.{◌≡◌, ◌<◌, ◌+◌, ◌^◌, length, IfOk, OnOk, OnErr};
ghost use Rattle.gate_net.specs.Rows.{gate_place, IsFirstPlace};
ghost use Rattle.gate_net.specs.Net.{IsGate, IsGateNet, IsEndThere, bare_net, with_gate, with_output};

use crate::{Driver, End, GateRow, Gates};
use cell_lib::Cell;
use net_base::{List, NoMemory};
use std::alloc::Global;

/// A netlist of clocked gates: how many inputs it has, its gates in order, and what each output gives.
#[derive(Debug, Drop)]
pub struct GateNet {
    /// How many inputs there are.
    pub inputs: u32,
    /// The gates in order, each behind its drivers.
    pub gates: Gates,
    /// What each output gives, in order.
    pub outputs: List<End>,
}

impl GateNet {
    /// The netlist of `inputs` inputs, without gates and outputs. It takes no memory.
    pub fn new(alloc: Global, inputs: u32) -> GateNet
        ensures value { result ≡ bare_net inputs }
        ensures net { IsGateNet result }
    {
        GateNet {
            inputs,
            gates: Gates::new(alloc),
            outputs: List::new(alloc),
        }
    }

    /// The number of the first gate with this cell and these drivers; where there is none, one is added at the end.
    /// After `NoMemory` the netlist is unchanged, and the pins are gone.
    pub fn gate(&mut self, cell: Cell, pins: List<Driver>) -> Result<u32, NoMemory>
        requires net { IsGateNet self.old }
        requires row { IsGate self.old.inputs (length self.old.gates) (record { cell = cell; pins = pins }) }
        requires room { length self.old.gates + 1 < 2 ^ 31 }
        ensures place { IfOk result (λ k. k ≡ gate_place (record { cell = cell; pins = pins }) self.old.gates) }
        ensures first { IfOk result (λ k. IsFirstPlace (record { cell = cell; pins = pins }) self.new.gates k) }
        ensures ok { OnOk result (self.new ≡ with_gate self.old (record { cell = cell; pins = pins })) }
        ensures err { OnErr result (self.new ≡ self.old) }
        ensures net { IsGateNet self.new }
    {
        let row = GateRow { cell, pins };
        if let Some(place) = self.gates.find(&row) {
            return Ok(place);
        }
        let place = self.gates.len() as u32;
        self.gates.push(row)?;
        Ok(place)
    }

    /// Adds an output. After `NoMemory` the netlist is unchanged.
    pub fn output(&mut self, end: End) -> Result<(), NoMemory>
        requires net { IsGateNet self.old }
        requires there { IsEndThere self.old.inputs (length self.old.gates) end }
        requires room { length self.old.outputs + 1 < 2 ^ 31 }
        ensures ok { OnOk result (self.new ≡ with_output self.old end) }
        ensures err { OnErr result (self.new ≡ self.old) }
        ensures net { IsGateNet self.new }
    {
        self.outputs.push(end)
    }
}
