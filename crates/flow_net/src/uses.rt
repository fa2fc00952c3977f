//! The uses of drivers, in the order of pins.

ghost use Rattle.std.specs.Prelude.{◌≡◌, ◌++◌, ◌+◌, ◌^◌, ◌<◌, IfOk, OnOk, length, map};
ghost use Rattle.std.specs.List.{flat_map};
ghost use Rattle.gate_net.specs.Net.{IsGateNet, end_drivers};
ghost use Rattle.flow_net.specs.Uses.{use_by, gate_uses, uses_of};

use gate_net::{Driver, End, GateNet, GateRow};
use net_base::NoMemory;
use std::alloc::Global;

/// A use of a driver.
#[derive(Clone, Copy, Debug)]
pub struct Use {
    /// The driver.
    pub driver: Driver,
    /// The vertex of the user.
    pub user: u32,
}

// Adds the uses by one gate.
fn push_uses(uses: &mut Vec<Use>, pins: &[Driver], user: u32) -> Result<(), NoMemory>
    ensures { OnOk result (uses.new.items ≡ uses.old.items ++ map (use_by user) pins.now) }
{
    for pin in pins {
        uses.push(Use { driver: *pin, user })?;
    }
    Ok(())
}

// Adds the uses by gates, the first of which is vertex 1.
fn push_gate_uses(uses: &mut Vec<Use>, rows: &[GateRow]) -> Result<(), NoMemory>
    requires { length rows.now < 2 ^ 31 }
    ensures { OnOk result (uses.new.items ≡ uses.old.items ++ gate_uses 1 rows.now) }
{
    let mut user = 1;
    for row in rows {
        push_uses(uses, row.pins.as_slice(), user)?;
        user += 1;
    }
    Ok(())
}

// Adds the uses by the sink.
fn push_output_uses(uses: &mut Vec<Use>, outputs: &[End], sink: u32) -> Result<(), NoMemory>
    ensures { OnOk result (uses.new.items ≡ uses.old.items ++ map (use_by sink) (flat_map end_drivers outputs.now)) }
{
    for end in outputs {
        push_output_use(uses, *end, sink)?;
    }
    Ok(())
}

fn push_output_use(uses: &mut Vec<Use>, end: End, sink: u32) -> Result<(), NoMemory>
    ensures { OnOk result (uses.new.items ≡ uses.old.items ++ map (use_by sink) (end_drivers end)) }
{
    if let End::From(driver) = end {
        uses.push(Use { driver, user: sink })?;
    }
    Ok(())
}

/// All uses of a netlist, in the order of pins.
pub(crate) fn all_uses(alloc: Global, net: &GateNet) -> Result<Vec<Use>, NoMemory>
    requires { IsGateNet net.now }
    ensures { IfOk result (λ uses. uses.items ≡ uses_of net.now) }
{
    let mut uses = Vec::new(alloc);
    push_gate_uses(&mut uses, net.gates.as_slice())?;
    push_output_uses(
        &mut uses,
        net.outputs.as_slice(),
        net.gates.len() as u32 + 1,
    )?;
    Ok(uses)
}
