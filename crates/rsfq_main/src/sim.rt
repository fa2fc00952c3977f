//! The command `sim`: what is read at the outputs of a netlist for each of the rows of input bits behind it.

ghost use Rattle.std.specs.Prelude.{◌≡◌, ◌≤◌, ◌^◌, ◌<◌, length};
ghost use Rattle.netlist_text.specs.Read.{line_count};
ghost use Rattle.pulse_net.specs.Formed.{IsFormed};
ghost use Rattle.pulse_net.specs.Validity.{IsValid};
ghost use Rattle.pulse_sim.specs.Reading.{lines_read};
ghost use Rattle.netlist_text.specs.declared.reading.TheConstants.{MAX_BYTES};
ghost use Rattle.rsfq_main.specs.Sim.{sim_of, lines_behind, lines_of as the_lines_of, AreLinesFor, IsSimulated};
ghost use Rattle.rsfq_main.specs.Outcomes.{Answers};

use crate::fault::Fault;
use crate::refusing::{broken, no_netlist, no_rows};
use net_base::List;
use netlist_text::{Prefix, TextReadFault, read_prefix};
use pulse_net::{PulseNet, ValidFault, valid};
use pulse_sim::{RowsFault, read_rows, run_rows};
use std::alloc::Global;

// What is read for rows on a netlist, unless it isn't valid.
fn lines_of(alloc: Global, net: &PulseNet, rows: &List<List<bool>>) -> Result<List<u8>, Fault>
    requires formed { IsFormed net.now }
    requires few_inputs { length net.now.inputs < 2 ^ 31 }
    requires few_elements { length net.now.elements < 2 ^ 31 }
    requires few_outputs { length net.now.outputs < 2 ^ 31 }
    ensures { Answers (the_lines_of net.now rows.now) (λ bytes. IsValid net.now × (bytes ≡ lines_read net.now rows.now)) result }
{
    match valid(alloc, net) {
        Ok(()) => match run_rows(alloc, net, rows) {
            Ok(lines) => Ok(List::from_vec(lines)),
            Err(_) => Err(Fault::NoMemory),
        },
        Err(ValidFault::Invalid(invalid)) => Err(broken(alloc, &invalid)),
        Err(ValidFault::NoMemory) => Err(Fault::NoMemory),
    }
}

// What is read for the rows behind a netlist that was read.
fn behind(alloc: Global, prefix: &Prefix, behind: &[u8]) -> Result<List<u8>, Fault>
    requires formed { IsFormed prefix.now.net }
    requires lines { (prefix.now.lines ≡ line_count prefix.now.net prefix.now.flow) × (prefix.now.lines ≤ MAX_BYTES) }
    ensures { Answers (lines_behind prefix.now behind.now) (AreLinesFor prefix.now.net behind.now prefix.now.lines) result }
{
    let inputs = prefix.net.inputs.len() as u32;
    match read_rows(alloc, behind, inputs, prefix.lines + 1) {
        Ok(rows) => lines_of(alloc, &prefix.net, &rows),
        Err(RowsFault::Row(fault)) => Err(no_rows(alloc, &fault)),
        Err(RowsFault::NoMemory) => Err(Fault::NoMemory),
    }
}

/// What is read at the outputs of the netlist at the front of a text, for each of the rows behind it, a line each; else the fault of the
/// text, of the rows, or of a netlist that isn't valid. The text is within the limit.
pub fn sim(alloc: Global, text: &[u8]) -> Result<List<u8>, Fault>
    requires { length text.now ≤ MAX_BYTES }
    ensures { Answers (sim_of text.now) (IsSimulated text.now) result }
{
    match read_prefix(alloc, text) {
        Ok(prefix) => behind(alloc, &prefix, &text[prefix.bytes..]),
        Err(TextReadFault::Text(fault)) => Err(no_netlist(alloc, &fault)),
        Err(TextReadFault::NoMemory) => Err(Fault::NoMemory),
    }
}
