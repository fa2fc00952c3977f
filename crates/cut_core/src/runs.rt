//! The machine over a list of events.

ghost use Rattle.std.specs.Prelude.{◌≡◌, IfOk};
ghost use Rattle.net_base.specs.Graph.{IsProper};
ghost use Rattle.cut_core.specs.Machine.{state_after};
ghost use Rattle.cut_core.specs.Cores.{states_of, IsCoreOf};

use crate::event::Event;
use crate::machine::Core;
use net_base::{Graph, NoMemory};
use std::alloc::Global;

/// The core of a graph after these events, in order. Events that the machine doesn't allow are skipped.
pub fn run(alloc: Global, graph: &Graph, events: &[Event]) -> Result<Core, NoMemory>
    requires { IsProper graph.now }
    ensures core { IfOk result (λ core. IsCoreOf graph.now core) }
    ensures state { IfOk result (λ core. states_of core ≡ state_after graph.now events.now) }
{
    let mut core = Core::new(alloc, graph)?;
    for event in events {
        core.step(graph, *event);
    }
    Ok(core)
}
