//! The words of the command line, read by hand.

ghost use Rattle.std.specs.Prelude.{◌≡◌, ◌≤◌, IfSome, Option, ℕ, length, map, string_bytes};
ghost use Rattle.gen_blif.specs.declared.random.TheConstants.{MAX_TABLES};
ghost use Rattle.gen_blif.specs.declared.ripple_carry.TheConstants.{MAX_BITS};
ghost use Rattle.phase_rule.specs.declared.level.TheConstants.{MAX_PHASES};
ghost use Rattle.rsfq_main.specs.Words as spec;

use crate::keys::{Key, words_spell_numbers};

/// What the program is asked to do.
#[derive(Clone, Copy, Debug, PartialEq, Eq)]
pub enum Command {
    /// Reads a BLIF text and writes the netlist of its tables. It holds the number of phases, 1 to `MAX_PHASES`.
    Map(u32),
    /// Reads a netlist text, and writes how many DROs it has, if it is valid and they are the fewest.
    Check,
    /// Reads a netlist text and rows of input bits, and writes what is read at the outputs for each row.
    Sim,
    /// Writes the BLIF text of a generated design: its seed, and its tables, 1 to `MAX_TABLES`.
    Gen(u64, u32),
    /// Writes the BLIF text of an adder of so many bits, 1 to `MAX_BITS`.
    GenAdder(u32),
    /// Writes the summary of a generated design's netlist: its seed, its tables, 1 to `MAX_TABLES`, and the number of
    /// phases, 1 to `MAX_PHASES`.
    Bench(u64, u32, u32),
}

// `map`, with the words behind it.
fn map_of(words: &[String]) -> Option<Command>
    ensures command { result ≡ spec.map_with (spec.given Key.Phases (map string_bytes words.now)) (map string_bytes words.now) }
    ensures in_range { IfSome result spec.IsInRange }
{
    match Key::Phases.given(words) {
        None if words.is_empty() => Some(Command::Map(1)),
        Some(phases) if words.len() == 1 => Some(Command::Map(phases as u32)),
        _ => None,
    }
}

// A command that has no keys, with the words behind it.
fn alone(command: Command, words: &[String]) -> Option<Command>
    requires { spec.IsInRange command }
    ensures command { result ≡ spec.of_words 0 (map string_bytes words.now) command }
    ensures in_range { IfSome result spec.IsInRange }
{
    if words.is_empty() {
        Some(command)
    } else {
        None
    }
}

// `gen`, with the words behind it.
fn gen_of(words: &[String]) -> Option<Command>
    ensures command { result ≡ spec.gen_with (spec.given Key.Adder (map string_bytes words.now))
        (spec.given Key.Seed (map string_bytes words.now)) (spec.given Key.Tables (map string_bytes words.now)) (map string_bytes words.now) }
    ensures in_range { IfSome result spec.IsInRange }
{
    if let Some(bits) = Key::Adder.given(words) {
        return if words.len() == 1 {
            Some(Command::GenAdder(bits as u32))
        } else {
            None
        };
    }
    let seed = Key::Seed.given(words)?;
    let tables = Key::Tables.given(words)?;
    if words.len() == 2 {
        Some(Command::Gen(seed, tables as u32))
    } else {
        None
    }
}

// `bench`, with the words behind it.
fn bench_of(words: &[String]) -> Option<Command>
    ensures command { result ≡ spec.bench_with (spec.given Key.Seed (map string_bytes words.now))
        (spec.given Key.Tables (map string_bytes words.now)) (spec.given Key.Phases (map string_bytes words.now)) (map string_bytes words.now) }
    ensures in_range { IfSome result spec.IsInRange }
{
    let seed = Key::Seed.given(words)?;
    let tables = Key::Tables.given(words)?;
    match Key::Phases.given(words) {
        None if words.len() == 2 => Some(Command::Bench(seed, tables as u32, 1)),
        Some(phases) if words.len() == 3 => {
            Some(Command::Bench(seed, tables as u32, phases as u32))
        }
        _ => None,
    }
}

/// The command that the words spell, the program's own name not among them: `map`, alone for one phase or with
/// `phases=N`; `check` and `sim`, each alone; `gen` with `seed=S` and `tables=T` in either order, or with `adder=B` alone; `bench` with a seed and tables, alone
/// for one phase or with phases, in any order. None of all other words.
#[tactic(auto, unfolding(crate::specs::Words::command_of))]
pub fn command_of(words: &[String]) -> Option<Command>
    ensures command { result ≡ spec.command_of (map string_bytes words.now) }
    ensures in_range { IfSome result spec.IsInRange }
{
    // Which words give a key a number, said apart from their reading.
    words_spell_numbers();
    match words {
        [command, words @ ..] if command.as_str() == "map" => map_of(words),
        [command, words @ ..] if command.as_str() == "check" => alone(Command::Check, words),
        [command, words @ ..] if command.as_str() == "sim" => alone(Command::Sim, words),
        [command, words @ ..] if command.as_str() == "gen" => gen_of(words),
        [command, words @ ..] if command.as_str() == "bench" => bench_of(words),
        _ => None,
    }
}
