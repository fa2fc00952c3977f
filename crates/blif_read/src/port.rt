//! Inputs and outputs, which are listed alike.

ghost use Rattle.std.specs.Prelude.{◌≡◌, ◌<◌, ◌≤◌, ◌+◌, ◌^◌, ◌++◌, [], ◌∷◌, length, All, OnOk};
ghost use Rattle.net_base.specs.Name.{IsNameByte};
ghost use Rattle.blif_model.specs.Names.{number_of, with_name};
ghost use Rattle.blif_read.specs.Answers.{Finds};
ghost use Rattle.blif_read.specs.Words.{further_tokens};
ghost use Rattle.blif_read.specs.Signals.{signals_of, with_names};
ghost use Rattle.blif_read.specs.Faults as spec;

use crate::fault::{BlifKind, LineFault};
use crate::line::CleanLine;
use blif_model::{MAX_INPUTS, MAX_OUTPUTS, NameTable};
use indexmap::IndexSet;
use net_base::MAX_NAME_BYTES;

/// What an `.inputs` or an `.outputs` line lists.
#[derive(Clone, Copy, Debug, PartialEq, Eq)]
pub(crate) enum Port {
    /// Inputs.
    Input,
    /// Outputs.
    Output,
}

impl Port {
    // What a signal is that is listed already.
    fn duplicate(self) -> BlifKind
        ensures { result ≡ spec.duplicate_of self }
    {
        match self {
            Port::Input => BlifKind::DuplicateInput,
            Port::Output => BlifKind::DuplicateOutput,
        }
    }

    // What one more signal is than there may be.
    fn too_many(self) -> BlifKind
        ensures { result ≡ spec.too_many_of self }
    {
        match self {
            Port::Input => BlifKind::TooManyInputs,
            Port::Output => BlifKind::TooManyOutputs,
        }
    }

    // How many signals there may be.
    fn most(self) -> u32
        ensures { result ≡ spec.most_of self }
    {
        match self {
            Port::Input => MAX_INPUTS,
            Port::Output => MAX_OUTPUTS,
        }
    }
}

// Lists the signal of a token.
fn list_token(
    port: Port,
    names: &mut NameTable,
    listed: &mut IndexSet<u32>,
    token: &[u8],
) -> Result<(), LineFault>
    requires some { 0 < length token.now }
    requires visible { All IsNameByte token.now }
    requires few { length names.old < 2 ^ 31 }
    requires listed { length listed.old.keys ≤ spec.most_of port }
    ensures fault { Finds result (spec.token_fault port names.old listed.old.keys token.now) }
    ensures names { OnOk result (names.new ≡ with_name token.now names.old) }
    ensures listed { OnOk result (listed.new.keys ≡ listed.old.keys ++ number_of token.now names.old ∷ []) }
    ensures few { OnOk result (length listed.new.keys ≤ spec.most_of port) }
{
    if token.len() > MAX_NAME_BYTES {
        return Err(LineFault::Kind(BlifKind::NameTooLong));
    }
    let number = names.number(token)?;
    if listed.contains(&number) {
        return Err(LineFault::Kind(port.duplicate()));
    }
    if listed.len() == port.most() as usize {
        return Err(LineFault::Kind(port.too_many()));
    }
    listed.insert_full(number)?;
    Ok(())
}

/// Lists the signals of all further tokens of a line.
pub(crate) fn list_signals(
    port: Port,
    names: &mut NameTable,
    listed: &mut IndexSet<u32>,
    line: &CleanLine,
) -> Result<(), LineFault>
    requires names { length names.old < 2 ^ 30 }
    requires listed { length listed.old.keys ≤ spec.most_of port }
    ensures fault { Finds result (spec.listing_fault port names.old listed.old.keys (further_tokens line.now.tokens)) }
    ensures names { OnOk result (names.new ≡ with_names (further_tokens line.now.tokens) names.old) }
    ensures listed { OnOk result (listed.new.keys ≡ listed.old.keys ++ signals_of (further_tokens line.now.tokens) names.old) }
{
    for place in 1..line.len() {
        list_token(port, names, listed, line.token(place))?;
    }
    Ok(())
}
