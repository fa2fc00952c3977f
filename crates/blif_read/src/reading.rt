//! The design of a text.

ghost use Rattle.std.specs.Prelude.{◌≡◌, ◌≤◌, true, length, Ok, IfOk, OnOk};
ghost use Rattle.net_base.specs.Answers.{Gives};
ghost use Rattle.blif_lex.specs.LogicalLines.{is_given};
ghost use Rattle.blif_model.specs.Regular.{IsRegular};
ghost use Rattle.blif_read.specs.Answers.{read_told};
ghost use Rattle.blif_read.specs.Clean.{IsCleanUnlessBad};
ghost use Rattle.blif_read.specs.Reading as spec;
ghost use Rattle.blif_read.specs.Readers.{IsSound, state_of};
ghost use Rattle.blif_read.specs.State.{start};
ghost use Rattle.blif_read.specs.Words.{line_at, lines_in};

use crate::fault::{BlifFault, BlifKind, ReadFault};
use crate::line::CleanLine;
use crate::reader::Reader;
use blif_lex::{LogicalLine, LogicalLines, MAX_TEXT_BYTES};
use blif_model::Design;
use std::alloc::Global;

// Reads a line, which may be bad.
#[tactic(auto, unfolding(crate::specs::Reading::reads))]
fn read_line(
    alloc: Global,
    reader: &mut Reader,
    text: &[u8],
    line: &LogicalLine,
) -> Result<(), ReadFault>
    requires given { is_given line.now ≡ true }
    requires clean { IsCleanUnlessBad text.now line.now }
    requires sound { IsSound (state_of reader.old) }
    ensures { Gives (λ _. Ok (state_of reader.new)) read_told result (spec.reads (line_at text.now line.now) (state_of reader.old)) }
{
    if line.bad {
        return Err(ReadFault::Blif(BlifFault {
            line: line.line,
            kind: BlifKind::BadByte,
        }));
    }
    match reader.read_line(alloc, &CleanLine::new(text, line)) {
        Ok(()) => Ok(()),
        Err(fault) => Err(fault.at_line(line.line)),
    }
}

// Reads all lines, up to the first that has a fault.
fn read_lines(alloc: Global, reader: &mut Reader, text: &[u8]) -> Result<(), ReadFault>
    requires short { length text.now ≤ MAX_TEXT_BYTES }
    requires start { state_of reader.old ≡ start }
    ensures lines { Gives (λ _. Ok (state_of reader.new)) read_told result (spec.reads_lines (lines_in text.now) start) }
    ensures sound { OnOk result (IsSound (state_of reader.new)) }
{
    let mut lines = LogicalLines::new(text);
    while let Some(line) = lines.next(alloc)? {
        read_line(alloc, reader, text, &line)?;
    }
    Ok(())
}

/// The design of a text, or its first line that has a fault, with the first that it has in the order of the profile.
#[tactic(auto, unfolding(crate::specs::Reading::design_of))]
pub fn read(alloc: Global, text: &[u8]) -> Result<Design, ReadFault>
    requires { length text.now ≤ MAX_TEXT_BYTES }
    ensures reads { Gives (λ design. Ok design) read_told result (spec.design_of text.now) }
    ensures regular { IfOk result IsRegular }
{
    let mut reader = Reader::new(alloc)?;
    read_lines(alloc, &mut reader, text)?;
    let design = reader.into_design(alloc)?;
    Ok(design)
}
