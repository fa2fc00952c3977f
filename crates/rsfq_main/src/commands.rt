//! What each command reads, and what it makes of its text. A new command is a new arm of each function here.

ghost use Rattle.std.specs.Prelude.{◌≡◌, false};
ghost use Rattle.rsfq_main.specs.Words.{IsInRange};
ghost use Rattle.rsfq_main.specs.Commands.{limit_of, is_too_long};
ghost use Rattle.rsfq_main.specs.Outcomes.{IsMade};

use crate::bench::bench;
use crate::check::check;
use crate::fault::Fault;
use crate::map::map;
use crate::sim::sim;
use crate::words::Command;
use blif_read::MAX_TEXT_BYTES;
use gen_blif::{adder, gen_};
use net_base::List;
use netlist_text::MAX_BYTES;
use std::alloc::Global;

impl Command {
    /// The bytes of the command's text at most; None where it reads no text.
    pub fn limit(self) -> Option<usize>
        ensures { result ≡ limit_of self }
    {
        match self {
            Command::Map(_) => Some(MAX_TEXT_BYTES),
            Command::Check | Command::Sim => Some(MAX_BYTES),
            Command::Gen(..) | Command::GenAdder(_) | Command::Bench(..) => None,
        }
    }

    /// What the command makes of a text within its limit: all the bytes of its output, or the fault of a refusal.
    pub fn made(self, alloc: Global, text: &[u8]) -> Result<List<u8>, Fault>
        requires in_range { IsInRange self }
        requires within { is_too_long (limit_of self) text.now ≡ false }
        ensures { IsMade self text.now result }
    {
        match self {
            Command::Map(n) => map(alloc, text, n),
            Command::Check => check(alloc, text),
            Command::Sim => sim(alloc, text),
            Command::Gen(seed, tables) => match gen_(alloc, seed, tables) {
                Ok(text) => Ok(List::from_vec(text)),
                Err(_) => Err(Fault::NoMemory),
            },
            Command::GenAdder(bits) => match adder(alloc, bits) {
                Ok(text) => Ok(List::from_vec(text)),
                Err(_) => Err(Fault::NoMemory),
            },
            Command::Bench(seed, tables, n) => bench(alloc, seed, tables, n),
        }
    }
}
