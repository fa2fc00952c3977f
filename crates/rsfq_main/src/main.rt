//! The program `rsfq`: a command's words, a text on standard input, an output on standard output.
//!
//! `run` does all that the program does, over any source and any sinks; `main` only hands it the real ones. Its clauses
//! speak of any command, by what `specs/Commands.antt` says of each. `map` takes BLIF texts of tables, with 1 to 16 clock
//! phases, and writes the netlist that synthesis (`synth`) makes of them, or notes what refuses the text first: a line and what
//! is wrong with it, a signal, a table on a cycle, or a number. `check` takes netlist texts, whoever made them, and writes how many
//! DROs the netlist has where it is valid and its flow shows that these are the fewest; else the answer is no, and the note says
//! why. `sim` takes a netlist text with rows of input bits behind it, and writes what is read at the outputs for each row. `gen`
//! reads nothing, and writes the BLIF text of a generated design; `bench` reads nothing either, and sums up the netlist that `map`
//! would write for such a text.
//!
//! Promised by `run`: the bytes that it writes are those of the command's output, whole on Done and a proper front of them
//! on WriteFault (`written`). On Done they mean what they should (`meant`): those of `map` spell a valid netlist with the design's
//! names, on which for every list of input rows the value read at each output is the value of the text's tables, and whose gates, at
//! their phases, need no fewer DROs at any epochs, as the flow lines show; of `check` the text spells a valid netlist, its DROs
//! are as many as the bytes say, and no valid netlist of the same gates and phases has fewer; of `sim` the text spells a valid
//! netlist with rows behind it, and the bytes are what is read there. Right words, an accepted text and no counted fault or stall
//! give Done, or NoMemory (`complete`); to `check` each text that `map` has written is an accepted one, if it isn't too long (the law
//! `netlists_pass_check`). Each status has its cause (`usage`,
//! `refused`, `no`, `asked`, `write_fault`; of a failed read `source`), and leaves the source (`source`, `unread`), the
//! sink (`unwritten`, `appended`, `sink_counts`) and the notes (`silent`, `noted`, `notes_counts`) as it says. Private
//! steps: `command_of` (`command`, `in_range`) and the law `words_spell_numbers`, `note_of` and the notes of netlists,
//! `summary_of`, each with its one result.
//! Only tested, by runs of the program: that memory suffices where it is ample, and `main`'s own lines.
//! Not promised: that other gates or other phases wouldn't need fewer DROs; the depth of the stack, and time. That two netlists
//! never have the same text is a law of `netlist_text`.
//!
//! Read `specs/Run.antt` and `specs/Commands.antt`, then `specs/Words.antt` (the words), `specs/Check.antt` and `specs/Sim.antt`
//! (what is said of netlist texts), `specs/Notes.antt` and `specs/NetlistNotes.antt` (the notes), `specs/Summary.antt` (the
//! summary); what a netlist is and means stands in `synth` and `pulse_net`, and how it is spelled in `netlist_text`. The central
//! idea: the meaning is that of the layers, and is handed on; a refusal's note is made with it (`proofs/Refusals.antt`,
//! `proofs/NetlistRefusals.antt`), so that nothing is left that may fail once the first byte is written.
#![tactic(auto)]

mod bench;
mod check;
mod commands;
mod fault;
mod keys;
mod laws;
mod map;
mod netlist_notes;
mod notes;
mod objection;
mod refusing;
mod run;
mod sim;
mod status;
mod summary;
mod words;

use io_edge::{StdSink, StdSource};
use std::env;
use std::process::ExitCode;

/// The exit status where the words of the command line can't be had, as where one isn't text.
const NO_WORDS: u8 = 7;

// The words behind the program's own name, where std gives them.
fn words_of(rt: &HostRuntime) -> Option<Vec<String>> {
    let mut words = Vec::new(rt.alloc());
    for word in env::args(rt).ok()?.skip(1) {
        words.push(word).ok()?;
    }
    Some(words)
}

fn main(rt: HostRuntime) -> ExitCode {
    let Some(words) = words_of(&rt) else {
        return ExitCode::from(NO_WORDS);
    };
    // What is said of runs together, apart from each.
    laws::netlists_pass_check();
    // Standard output goes unwrapped, so that Done means that the system took every byte.
    let mut source = StdSource::new(rt.stdin());
    let mut sink = StdSink::new(rt.stdout());
    let mut notes = StdSink::new(rt.stderr());
    let status = run::run(
        rt.alloc(),
        words.as_slice(),
        &mut source,
        &mut sink,
        &mut notes,
    );
    ExitCode::from(status.number())
}
