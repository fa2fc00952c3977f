//! The table of a `.names` line.

ghost use Rattle.std.specs.Prelude.{◌≡◌, ◌<◌, ◌≤◌, ◌+◌, ◌^◌, length, IfOk, OnOk};
ghost use Rattle.std.specs.List.{list_any};
ghost use Rattle.blif_read.specs.Answers.{Finds};
ghost use Rattle.blif_read.specs.Faults.{◌when◌};
ghost use Rattle.blif_read.specs.Signals.{is_long, signals_of, with_names};
ghost use Rattle.blif_read.specs.State as spec;
ghost use Rattle.blif_read.specs.Words.{further_tokens};
ghost use Rattle.blif_read.specs.declared.fault.BlifKind.TheVariants.{NameTooLong};

use crate::fault::{BlifKind, LineFault};
use crate::line::CleanLine;
use blif_model::{MAX_PINS, NameTable, Table};
use net_base::{List, MAX_NAME_BYTES};
use std::alloc::Global;

/// The signals of all further tokens of a line, in order.
pub(crate) fn number_signals(
    alloc: Global,
    names: &mut NameTable,
    line: &CleanLine,
) -> Result<Vec<u32>, LineFault>
    requires names { length names.old < 2 ^ 30 }
    requires few { length line.now.tokens ≤ MAX_PINS + 2 }
    ensures fault { Finds result (NameTooLong when list_any is_long (further_tokens line.now.tokens)) }
    ensures names { OnOk result (names.new ≡ with_names (further_tokens line.now.tokens) names.old) }
    ensures signals { IfOk result (λ signals. signals.items ≡ signals_of (further_tokens line.now.tokens) names.old) }
{
    let mut signals = Vec::with_capacity(alloc, line.len())?;
    for place in 1..line.len() {
        let token = line.token(place);
        if token.len() > MAX_NAME_BYTES {
            return Err(LineFault::Kind(BlifKind::NameTooLong));
        }
        signals.push(names.number(token)?)?;
    }
    Ok(signals)
}

/// The table of these signals, without rows: the last is the target, and those before are the pins.
pub(crate) fn table_of(alloc: Global, line: u32, signals: Vec<u32>) -> Table
    requires { 0 < length signals.items }
    ensures { result ≡ spec.table_of line signals.items }
{
    let mut pins = signals;
    let last = pins.len() - 1;
    let target = pins[last];
    pins.truncate(last);
    Table {
        line,
        pins: List::from_vec(pins),
        target,
        rows: List::new(alloc),
        on: true,
    }
}
