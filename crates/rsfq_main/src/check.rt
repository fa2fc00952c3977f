//! The command `check`: whether a netlist is valid and has the fewest DROs, as its flow shows.

ghost use Rattle.std.specs.Prelude.{◌≡◌, ◌≤◌, Ok, IfOk, codes, length};
ghost use Rattle.net_base.specs.Answers.{Gives};
ghost use Rattle.flow_net.specs.Epochs.{HasFewestDros, dro_count};
ghost use Rattle.flow_net.specs.Network.{HasNetwork};
ghost use Rattle.pulse_net.specs.Formed.{IsFormed};
ghost use Rattle.pulse_net.specs.Balance.{unfolded_network};
ghost use Rattle.pulse_net.specs.Unfolding.{unfolded as unfolded_of};
ghost use Rattle.pulse_net.specs.Validity.{IsValid};
ghost use Rattle.pulse_net.specs.Dros.{dros as dros_of};
ghost use Rattle.netlist_text.specs.Read.{line_count};
ghost use Rattle.netlist_text.specs.declared.reading.TheConstants.{MAX_BYTES};
ghost use Rattle.rsfq_main.specs.Check.{check_of, examined, examined_line, judged, told, HasFewest, IsCertified};
ghost use Rattle.rsfq_main.specs.Summary as text;
ghost use Rattle.rsfq_main.specs.Outcomes.{Answers};

use crate::fault::Fault;
use crate::objection::{ExamineFault, Objection};
use crate::refusing::{denied, no_netlist};
use crate::summary::count_line;
use flow_cert::{Verdict, verify};
use flow_net::{Flow, net_of};
use net_base::List;
use netlist_text::{TextReadFault, read};
use pulse_net::{PulseNet, Unfolded, unfold, valid};
use std::alloc::Global;

// How many DROs there are, where a flow shows that these are the fewest that the gates need, or the first objection.
fn judge(alloc: Global, unfolded: &Unfolded, flow: &Flow) -> Result<u64, ExamineFault>
    requires network { HasNetwork unfolded.now.gates unfolded.now.phases }
    requires each { length unfolded.now.epochs.gates ≡ length unfolded.now.gates.gates }
    ensures judged { Gives (λ dros. Ok dros) told result (judged unfolded.now flow.now) }
    ensures fewest { IfOk result (λ dros. HasFewestDros (unfolded_network unfolded.now) unfolded.now.epochs) }
    ensures count { IfOk result (λ dros. (dros ≡ unfolded.now.dros) × (dros ≡ dro_count (unfolded_network unfolded.now) unfolded.now.epochs)) }
{
    let network = net_of(alloc, &unfolded.gates, &unfolded.phases)?;
    let dros = unfolded.dros;
    match verify(alloc, &network, &unfolded.epochs, flow)? {
        Verdict::Fewest(count) if count == dros => Ok(dros),
        Verdict::Fewest(count) => Err(ExamineFault::Objects(Objection::Differs { dros, count })),
        Verdict::Bad(cause) => Err(ExamineFault::Objects(Objection::Shows(cause))),
    }
}

// How many DROs a netlist has, where it is valid and no valid netlist of its gates at its phases has fewer, or the first objection.
fn examine(alloc: Global, net: &PulseNet, flow: &Flow) -> Result<u64, ExamineFault>
    requires formed { IsFormed net.now }
    requires few { line_count net.now flow.now ≤ MAX_BYTES }
    ensures examined { Gives (λ dros. Ok dros) told result (examined net.now flow.now) }
    ensures fewest { IfOk result (λ _. HasFewest net.now) }
    ensures count { IfOk result (λ dros. dros ≡ dros_of net.now.elements) }
{
    valid(alloc, net)?;
    let unfolded = unfold(alloc, net)?;
    judge(alloc, &unfolded, flow)
}

// What is written of a netlist, or the fault of an answer that is no.
fn examined_line(alloc: Global, net: &PulseNet, flow: &Flow) -> Result<List<u8>, Fault>
    requires formed { IsFormed net.now }
    requires few { line_count net.now flow.now ≤ MAX_BYTES }
    ensures { Answers (examined_line net.now flow.now) (λ bytes. HasFewest net.now × (bytes ≡ text.count_line (codes "fewest") (dros_of net.now.elements))) result }
{
    match examine(alloc, net, flow) {
        Ok(dros) => match count_line(alloc, b"fewest", dros) {
            Ok(line) => Ok(line),
            Err(_) => Err(Fault::NoMemory),
        },
        Err(ExamineFault::Objects(objection)) => Err(denied(alloc, &objection)),
        Err(ExamineFault::NoMemory) => Err(Fault::NoMemory),
    }
}

/// How many DROs the netlist of a text has, where it is valid and no valid netlist of its gates at its phases has fewer, as its flow
/// shows; else the fault of the text, or of an answer that is no. The text is within the limit.
pub fn check(alloc: Global, text: &[u8]) -> Result<List<u8>, Fault>
    requires { length text.now ≤ MAX_BYTES }
    ensures { Answers (check_of text.now) (IsCertified text.now) result }
{
    match read(alloc, text) {
        Ok((net, flow)) => examined_line(alloc, &net, &flow),
        Err(TextReadFault::Text(fault)) => Err(no_netlist(alloc, &fault)),
        Err(TextReadFault::NoMemory) => Err(Fault::NoMemory),
    }
}
