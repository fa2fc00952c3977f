//! All rounds, and the least epochs.

ghost use Rattle.std.specs.Prelude.{◌≡◌, ◌≤◌, ◌<◌, ◌+◌, ℕ, pos, false, length, IfOk, OnOk};
ghost use Rattle.flow_net.specs.Epochs.{epoch_at, dro_count as count_of};
ghost use Rattle.flow_net.specs.Flows.{IsFullFlow, flow_value};
ghost use Rattle.stage_flow.specs.Residual.{vertex_count};
ghost use Rattle.stage_flow.specs.Rounds.{flow_after, rounds_of};
ghost use Rattle.stage_flow.specs.LawsOfWalks.{AreLabels};
ghost use Rattle.stage_flow.specs.LeastEpochs.{AreLeastEpochs};
ghost use Rattle.stage_flow.specs.RoundEpochs.{least_epochs as the_least_epochs};
ghost use Rattle.stage_flow.specs.Passes.{mark_at};
ghost use Rattle.stage_flow.specs.Keeping.{IsInOrder};
ghost use Rattle.stage_flow.specs.Given.{IsNetwork, ArePotentials, AreIncidences, at_vertex, count_at};

use crate::arcs::Arcs;
use crate::epochs::{epochs_from, epochs_without_pins};
use crate::incidence::Incidence;
use crate::mender::Mender;
use crate::potentials::{first_potentials, negated};
use crate::progress::no_units;
use crate::search::{Labels, find_labels, find_lengths};
use crate::senders::sender;
use crate::sending::send;
use crate::tight::PathRoom;
use flow_net::{Epochs, Flow, Net, dro_count};
use net_base::{List, NoMemory};
use std::alloc::Global;

/// A flow, epochs, and how many DROs they need.
#[derive(Debug, Drop)]
pub struct Solved {
    /// The flow of the rounds.
    pub flow: Flow,
    /// The least optimal epochs.
    pub epochs: Epochs,
    /// Their DRO count, which is the flow's value.
    pub count: u64,
}

// Makes all rounds, as many as there are drivers, and answers potentials that fit the flow they make: how far vertices are by labels,
// negated. The labels are kept from round to round, with those marked that rounds left stale.
fn make_rounds(
    alloc: Global,
    arcs: &Arcs<'_>,
    flow: &mut Flow,
    first: Labels,
    room: &mut PathRoom,
    mender: &mut Mender,
) -> Result<List<i64>, NoMemory>
    requires net { IsNetwork arcs.now }
    requires flow { flow.old ≡ flow_after arcs.now 0 }
    requires labels { AreLabels arcs.now flow.old (at_vertex first.far) (count_at first.hops) }
    requires each { (length first.far ≡ vertex_count arcs.now) × (length first.hops ≡ vertex_count arcs.now) }
    requires room { length room.old.reached.marks.items ≡ vertex_count arcs.now }
    requires order { IsInOrder arcs.now mender.old }
    requires none { (vertex : ℕ) → mark_at mender.old.marks.items vertex ≡ false }
    ensures flow { OnOk result (flow.new ≡ rounds_of arcs.now) }
    ensures potentials { IfOk result (λ potentials. ArePotentials arcs.now flow.new potentials) }
{
    let net = arcs.net();
    let mut labels = first;
    let mut sent = 0;
    while sent < net.drivers {
        let from = sender(net, sent);
        labels = mender.ready(arcs, flow, labels, from)?;
        send(
            alloc,
            arcs,
            &labels,
            mender.marks.as_slice(),
            from,
            flow,
            room,
        )?;
        mender.spoil(alloc, arcs, flow, &labels, room.path.as_slice(), from)?;
        sent += 1;
    }
    negated(alloc, labels.far.as_slice())
}

// A flow, and potentials that fit it.
#[derive(Drop)]
struct Rounds {
    flow: Flow,
    potentials: List<i64>,
}

// The flow of all rounds. Where there is no driver, there is none to make.
fn all_rounds(alloc: Global, net: &Net, incidence: &Incidence) -> Result<Rounds, NoMemory>
    requires net { IsNetwork net.now }
    requires incidence { AreIncidences net.now incidence.now }
    ensures flow { IfOk result (λ rounds. rounds.flow ≡ rounds_of net.now) }
    ensures potentials { IfOk result (λ rounds. ArePotentials net.now rounds.flow rounds.potentials) }
{
    let mut flow = no_units(alloc, net)?;
    let potentials = first_potentials(alloc, net)?;
    if net.drivers == 0 {
        return Ok(Rounds { flow, potentials });
    }
    let arcs = Arcs::new(net, incidence);
    let first = find_labels(alloc, &arcs, &flow, &potentials)?;
    let mut room = PathRoom::new(alloc, net)?;
    let mut mender = Mender::new(alloc, net)?;
    let potentials = make_rounds(alloc, &arcs, &mut flow, first, &mut room, &mut mender)?;
    Ok(Rounds { flow, potentials })
}

// The least optimal epochs, after all rounds: by the lengths of longest walks from the source.
fn least_epochs(
    alloc: Global,
    net: &Net,
    incidence: &Incidence,
    rounds: &Rounds,
) -> Result<Epochs, NoMemory>
    requires net { IsNetwork net.now }
    requires full { IsFullFlow net.now rounds.now.flow }
    requires potentials { ArePotentials net.now rounds.now.flow rounds.now.potentials }
    requires arcs { AreIncidences net.now incidence.now }
    ensures epochs { IfOk result (λ epochs. AreLeastEpochs net.now epochs) }
    ensures value { IfOk result (λ epochs. flow_value net.now rounds.now.flow ≡ pos (count_of net.now epochs)) }
    ensures low { IfOk result (λ epochs. (vertex : ℕ) → epoch_at epochs vertex < vertex_count net.now) }
{
    if net.pins.is_empty() {
        return epochs_without_pins(alloc, net);
    }
    let arcs = Arcs::new(net, incidence);
    let labels = find_lengths(alloc, &arcs, &rounds.flow, &rounds.potentials)?;
    epochs_from(alloc, net, labels.far.as_slice())
}

/// The flow of the rounds, the least optimal epochs, and their DRO count.
pub fn solve(alloc: Global, net: &Net) -> Result<Solved, NoMemory>
    requires { IsNetwork net.now }
    ensures flow { IfOk result (λ solved. solved.flow ≡ rounds_of net.now) }
    ensures full { IfOk result (λ solved. IsFullFlow net.now solved.flow) }
    ensures epochs { IfOk result (λ solved. AreLeastEpochs net.now solved.epochs) }
    ensures lengths { IfOk result (λ solved. solved.epochs ≡ the_least_epochs net.now) }
    ensures count { IfOk result (λ solved. solved.count ≡ count_of net.now solved.epochs) }
    ensures value { IfOk result (λ solved. flow_value net.now solved.flow ≡ pos solved.count) }
    ensures low { IfOk result (λ solved. (vertex : ℕ) → epoch_at solved.epochs vertex < vertex_count net.now) }
{
    let incidence = Incidence::new(alloc, net)?;
    let rounds = all_rounds(alloc, net, &incidence)?;
    let epochs = least_epochs(alloc, net, &incidence, &rounds)?;
    let count = dro_count(alloc, net, &epochs)?;
    Ok(Solved {
        flow: rounds.flow,
        epochs,
        count,
    })
}
