//! The laws on gate netlists. A law takes nothing and does nothing: its clause is the law.

ghost use Rattle.gate_net.specs.Net.{AddedGatesKeepNets};
ghost use Rattle.gate_net.specs.Order.{AscendingKeepsDrivers};
ghost use Rattle.gate_net.specs.Values.{GatesFollowDrivers, LaterGatesKeepValues};

/// A gate behind its drivers, added at the end, leaves a well-formed netlist well formed.
pub fn added_gates_keep_nets()
    ensures { AddedGatesKeepNets }
{}

/// What `ascending` answers is in ascending order, and it is the same pins, each as often.
pub fn ascending_keeps_drivers()
    ensures { AscendingKeepsDrivers }
{}

/// In a well-formed netlist a gate has the value that its drivers give it, among the values of all gates.
pub fn gates_follow_drivers()
    ensures { GatesFollowDrivers }
{}

/// Gates that are added later don't change the values of those before.
pub fn later_gates_keep_values()
    ensures { LaterGatesKeepValues }
{}
