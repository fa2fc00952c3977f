//! The command `map`: a BLIF text becomes a netlist text.

ghost use Rattle.std.specs.Prelude.{◌≤◌};
ghost use Rattle.phase_rule.specs.declared.level.TheConstants.{MAX_PHASES};
ghost use Rattle.rsfq_main.specs.Commands.{netlist_for as what_becomes_of, netlist_text, ServesText, SpellsMeaning};
ghost use Rattle.rsfq_main.specs.Outcomes.{Answers};

use crate::fault::{Fault, refused};
use blif_read::MAX_TEXT_BYTES;
use net_base::List;
use netlist_text::write;
use std::alloc::Global;
use synth::{Made, synth};

/// The netlist of a text with n phases, 1 to `MAX_PHASES`, or the fault of what refuses it first. A text that is too long is
/// refused here too, since a generated one has passed no reader.
pub fn netlist_for(alloc: Global, text: &[u8], n: u32) -> Result<Made, Fault>
    requires some { 1 ≤ n }
    requires few { n ≤ MAX_PHASES }
    ensures { Answers (what_becomes_of n text.now) (λ made. ServesText n text.now made.net made.flow) result }
{
    if text.len() > MAX_TEXT_BYTES {
        return Err(Fault::TooLong);
    }
    match synth(alloc, text, n) {
        Ok(made) => Ok(made),
        Err(fault) => Err(refused(alloc, &fault)),
    }
}

/// The netlist text of a text with n phases, 1 to `MAX_PHASES`.
pub fn map(alloc: Global, text: &[u8], n: u32) -> Result<List<u8>, Fault>
    requires some { 1 ≤ n }
    requires few { n ≤ MAX_PHASES }
    ensures { Answers (netlist_text n text.now) (SpellsMeaning n text.now) result }
{
    match netlist_for(alloc, text, n) {
        Ok(made) => match write(alloc, &made.net, &made.flow) {
            Ok(bytes) => Ok(List::from_vec(bytes)),
            Err(_) => Err(Fault::NoMemory),
        },
        Err(fault) => Err(fault),
    }
}
