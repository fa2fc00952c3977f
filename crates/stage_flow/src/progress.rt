//! The rounds, one after the other.

ghost use Rattle.std.specs.Prelude.{◌≡◌, ◌+◌, ◌<◌, IfOk, OnOk, OnErr};
ghost use Rattle.stage_flow.specs.Rounds.{flow_after, no_units as the_flow_of_nothing};
ghost use Rattle.stage_flow.specs.Given.{IsNetwork, ArePotentials, AreIncidences};

use crate::arcs::Arcs;
use crate::incidence::Incidence;
use crate::potentials::{first_potentials, negated};
use crate::search::find_labels;
use crate::senders::sender;
use crate::sending::send;
use crate::tight::PathRoom;
use flow_net::{Flow, Net, Units};
use net_base::{List, NoMemory};
use std::alloc::Global;

/// How far the rounds have come.
#[derive(Debug, Drop)]
pub struct Progress {
    /// The flow so far.
    pub flow: Flow,
    /// One number per vertex: no residual arc is longer than the potential rises on it.
    pub potentials: List<i64>,
    /// How many rounds were made, and so how many units were sent.
    pub sent: u32,
    // The arcs at each vertex, which no round changes.
    pub(crate) incidence: Incidence,
}

/// The flow of no round.
pub(crate) fn no_units(alloc: Global, net: &Net) -> Result<Flow, NoMemory>
    ensures { IfOk result (λ flow. flow ≡ the_flow_of_nothing net.now) }
{
    let none = Units {
        forward: 0,
        back: 0,
    };
    let pins = vec![in alloc; none; net.pins.len()]?;
    Ok(Flow {
        pins: List::from_vec(pins),
    })
}

impl Progress {
    /// No round: no unit was sent.
    pub fn start(alloc: Global, net: &Net) -> Result<Progress, NoMemory>
        requires { IsNetwork net.now }
        ensures flow { IfOk result (λ progress. progress.flow ≡ flow_after net.now 0) }
        ensures potentials { IfOk result (λ progress. ArePotentials net.now progress.flow progress.potentials) }
        ensures sent { IfOk result (λ progress. progress.sent ≡ 0) }
        ensures arcs { IfOk result (λ progress. AreIncidences net.now progress.incidence) }
    {
        let flow = no_units(alloc, net)?;
        let potentials = first_potentials(alloc, net)?;
        let incidence = Incidence::new(alloc, net)?;
        Ok(Progress {
            flow,
            potentials,
            sent: 0,
            incidence,
        })
    }

    /// One round more. Asked for: a network that `net_of` answers (`net`), its flow of so many rounds (`flow`), any potentials that
    /// fit it (`potentials`), that a round is left (`more`), and the arcs at each vertex (`arcs`), which `start` makes and no round
    /// changes. After `NoMemory` nothing changed.
    pub fn round(&mut self, alloc: Global, net: &Net) -> Result<(), NoMemory>
        requires net { IsNetwork net.now }
        requires flow { self.old.flow ≡ flow_after net.now self.old.sent }
        requires potentials { ArePotentials net.now self.old.flow self.old.potentials }
        requires more { self.old.sent < net.now.drivers }
        requires arcs { AreIncidences net.now self.old.incidence }
        ensures flow { OnOk result (self.new.flow ≡ flow_after net.now (self.old.sent + 1)) }
        ensures potentials { OnOk result (ArePotentials net.now self.new.flow self.new.potentials) }
        ensures sent { OnOk result (self.new.sent ≡ self.old.sent + 1) }
        ensures arcs { OnOk result (AreIncidences net.now self.new.incidence) }
        ensures err { OnErr result (self.new ≡ self.old) }
    {
        let arcs = Arcs::new(net, &self.incidence);
        let labels = find_labels(alloc, &arcs, &self.flow, &self.potentials)?;
        let potentials = negated(alloc, labels.far.as_slice())?;
        let from = sender(net, self.sent);
        let mut room = PathRoom::new(alloc, net)?;
        send(alloc, &arcs, &labels, &[], from, &mut self.flow, &mut room)?;
        self.potentials = potentials;
        self.sent += 1;
        Ok(())
    }
}
