//! The faults of what refuses a netlist text. Their notes are made here, before anything is written, so want of memory for one is
//! `NoMemory` like any other.

ghost use Rattle.std.specs.Prelude.{◌≡◌, ◌⊎◌};
ghost use Rattle.rsfq_main.specs.declared.fault.Fault.TheVariants.{NoMemory as OutOfMemory};
ghost use Rattle.rsfq_main.specs.Faults.{Text, Rows, Broken, Denied, fault_of};

use crate::fault::Fault;
use crate::netlist_notes::{invalid_note, objection_note, row_note, text_note};
use crate::objection::Objection;
use net_base::{List, NoMemory};
use netlist_text::TextFault;
use pulse_net::Invalid;
use pulse_sim::RowFault;
use std::alloc::Global;

/// The fault of a text that is no netlist text.
pub fn no_netlist(alloc: Global, fault: &TextFault) -> Fault
    ensures { (result ≡ fault_of (Text fault.now)) ⊎ (result ≡ OutOfMemory) }
{
    match text_note(alloc, fault) {
        Ok(note) => Fault::Refused(note),
        Err(_) => Fault::NoMemory,
    }
}

/// The fault of rows of which one is none.
pub fn no_rows(alloc: Global, fault: &RowFault) -> Fault
    ensures { (result ≡ fault_of (Rows fault.now)) ⊎ (result ≡ OutOfMemory) }
{
    match row_note(alloc, fault) {
        Ok(note) => Fault::Refused(note),
        Err(_) => Fault::NoMemory,
    }
}

/// The fault of a netlist that isn't valid, where that is no question.
pub fn broken(alloc: Global, invalid: &Invalid) -> Fault
    ensures { (result ≡ fault_of (Broken invalid.now)) ⊎ (result ≡ OutOfMemory) }
{
    match invalid_note(alloc, invalid) {
        Ok(note) => Fault::Refused(note),
        Err(_) => Fault::NoMemory,
    }
}

/// The fault of an answer that is no.
pub fn denied(alloc: Global, objection: &Objection) -> Fault
    ensures { (result ≡ fault_of (Denied objection.now)) ⊎ (result ≡ OutOfMemory) }
{
    match objection_note(alloc, objection) {
        Ok(note) => Fault::Denied(note),
        Err(_) => Fault::NoMemory,
    }
}
