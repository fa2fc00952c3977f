//! What ends a run before its output is written whole, with the status and the note of each.

ghost use Rattle.std.specs.Prelude.{◌≡◌, ◌⊎◌};
ghost use Rattle.rsfq_main.specs.declared.fault.Fault.TheVariants.{NoMemory as OutOfMemory};
ghost use Rattle.rsfq_main.specs.Faults.{Synthesis, fault_status, fault_line, fault_of};

use crate::notes::note_of;
use crate::status::Status;
use net_base::List;
use std::alloc::Global;
use synth::SynthFault;

/// The fault of a text that has no netlist. Its note is made here, before anything is written, so want of memory for it is
/// `NoMemory` like any other.
pub fn refused(alloc: Global, fault: &SynthFault) -> Fault
    ensures { (result ≡ fault_of (Synthesis fault.now)) ⊎ (result ≡ OutOfMemory) }
{
    match note_of(alloc, fault) {
        Ok(note) => Fault::Refused(note),
        Err(_) => Fault::NoMemory,
    }
}

/// What ended a run.
#[derive(Debug, Drop)]
pub enum Fault {
    /// The words are no command.
    Usage,
    /// A read failed.
    Read,
    /// The text has more bytes than the limit.
    TooLong,
    /// The text is refused for what it says; why, in a line.
    Refused(List<u8>),
    /// The answer is no; why, in a line.
    Denied(List<u8>),
    /// A write failed, or took nothing.
    Write,
    /// Memory ran out.
    NoMemory,
}

impl Fault {
    /// Its status.
    pub fn status(&self) -> Status
        ensures { result ≡ fault_status self.now }
    {
        match self {
            Fault::Usage => Status::Usage,
            Fault::Read => Status::ReadFault,
            Fault::TooLong | Fault::Refused(_) => Status::Refused,
            Fault::Denied(_) => Status::No,
            Fault::Write => Status::WriteFault,
            Fault::NoMemory => Status::NoMemory,
        }
    }

    /// Its note, a line.
    pub fn line(&self) -> &[u8]
        ensures { result.now ≡ fault_line self.now }
    {
        match self {
            Fault::Usage => b"usage: COMMAND [KEY=VALUE ...]\n",
            Fault::Read => b"read fault\n",
            Fault::TooLong => b"text too long\n",
            Fault::Refused(note) | Fault::Denied(note) => note.as_slice(),
            Fault::Write => b"write fault\n",
            Fault::NoMemory => b"no memory\n",
        }
    }
}
