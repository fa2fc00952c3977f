//! The names of a design, for the netlist.

ghost use Rattle.std.specs.Prelude.{◌≡◌, ◌<◌, All, length, map, IfOk};
ghost use Rattle.blif_model.specs.Regular.{IsRegular};
ghost use Rattle.blif_model.specs.Order.{name_of};
ghost use Rattle.synth.specs.Meaning as spec;

use blif_model::Design;
use net_base::{List, Name, NoMemory};
use pulse_net::Names;
use std::alloc::Global;

// The name of a signal.
fn signal_name(design: &Design, signal: u32) -> Result<Name, NoMemory>
    requires { signal < length design.now.names }
    ensures { IfOk result (λ name. name ≡ name_of design.now signal) }
{
    design.names.name(signal).clone()
}

// The names of these signals.
fn signal_names(alloc: Global, design: &Design, signals: &[u32]) -> Result<List<Name>, NoMemory>
    requires { All (λ signal. signal < length design.now.names) signals.now }
    ensures { IfOk result (λ names. names ≡ map (name_of design.now) signals.now) }
{
    let mut names = Vec::with_capacity(alloc, signals.len())?;
    for signal in signals {
        names.push(signal_name(design, *signal)?)?;
    }
    Ok(List::from_vec(names))
}

/// The names of the model, the inputs and the outputs.
pub(crate) fn names_of(alloc: Global, design: &Design) -> Result<Names, NoMemory>
    requires { IsRegular design.now }
    ensures { IfOk result (λ names. names ≡ spec.names_of design.now) }
{
    let inputs = signal_names(alloc, design, design.inputs.as_slice())?;
    let outputs = signal_names(alloc, design, design.outputs.as_slice())?;
    let model = design.name.clone()?;
    Ok(Names {
        model,
        inputs,
        outputs,
    })
}
