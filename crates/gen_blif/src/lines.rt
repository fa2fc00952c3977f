//! Lines of a BLIF text.

ghost use Rattle.std.specs.Prelude.{◌≡◌, ◌++◌, ◌+◌, ◌<◌, ◌^◌, ◌∷◌, [], OnOk, codes, decimal};
ghost use Rattle.gen_blif.specs.Lines as spec;

use itoa::Buffer;
use net_base::NoMemory;

/// A signal: a letter and a number.
#[derive(Clone, Copy)]
pub(crate) struct Signal {
    pub(crate) letter: u8,
    pub(crate) number: u32,
}

// A space and the signal's name.
pub(crate) fn push_signal(out: &mut Vec<u8>, signal: Signal) -> Result<(), NoMemory>
    ensures { OnOk result (out.new.items ≡ out.old.items ++ spec.field (spec.name_of signal.letter signal.number)) }
{
    out.extend_from_slice(b" ")?;
    out.push(signal.letter)?;
    out.extend_from_slice(Buffer::new().format(signal.number).as_bytes())
}

// A space and the names of signals of one letter, `count` of them from a number on.
pub(crate) fn push_signals(
    out: &mut Vec<u8>,
    letter: u8,
    first: u32,
    count: u32,
) -> Result<(), NoMemory>
    requires { first + count < 2 ^ 32 }
    ensures { OnOk result (out.new.items ≡ out.old.items ++ spec.fields letter first count) }
{
    let mut number = first;
    let mut left = count;
    while left > 0 {
        push_signal(out, Signal { letter, number })?;
        number += 1;
        left -= 1;
    }
    Ok(())
}

// The line of a table's pins and its target.
#[tactic(auto, unfolding(crate::specs::Lines::names_line))]
pub(crate) fn push_names(out: &mut Vec<u8>, signals: &[Signal]) -> Result<(), NoMemory>
    ensures { OnOk result (out.new.items ≡ out.old.items ++ spec.names_line signals.now) }
{
    out.extend_from_slice(b".names")?;
    for signal in signals {
        push_signal(out, *signal)?;
    }
    out.extend_from_slice(b"\n")
}
