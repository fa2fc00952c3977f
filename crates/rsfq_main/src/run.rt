//! The top call: words and bytes in, bytes and a status out.

ghost use Rattle.std.specs.Prelude.{◌≡◌, ◌≢◌, ◌↔◌, None, List, ℕ, false, map, string_bytes, IsOk, IfOk, IfErr};
ghost use Rattle.io_edge.specs.Counts.{AreLater, Rose};
ghost use Rattle.io_edge.specs.WriteAll.{FailedOrStalled};
ghost use Rattle.rsfq_main.specs.declared.fault.Fault.TheVariants.{Write};
ghost use Rattle.rsfq_main.specs.Words.{command_of as command_in};
ghost use Rattle.rsfq_main.specs.Commands.{is_too_long, output_of, IsMeant};
ghost use Rattle.rsfq_main.specs.Faults.{outcome_status, fault_status, fault_line};
ghost use Rattle.rsfq_main.specs.Outcomes.{IsInput, IsOutcome, OverText};
ghost use Rattle.rsfq_main.specs.Run.{ComesExactly, IsDoneOrNoMemory, Asks, LeavesSource, read_limit, IsUnwritten, TakesOutput, Writes, WritesMeaning, Appends, IsNoteOf, TakesLine};

use crate::fault::Fault;
use crate::status::Status;
use crate::words::command_of;
use io_edge::{ReadAllFault, Sink, Source, read_all, write_all_of};
use net_base::List;
use std::alloc::Global;

// The whole text of the source, up to the limit; none where there is no limit, since then no text is read.
fn input<S: Source>(alloc: Global, limit: Option<usize>, source: &mut S) -> Result<List<u8>, Fault>
    ensures input { IsInput limit (S.left source.old) result }
    ensures source { LeavesSource limit (outcome_status result) (S.left source.old) (S.left source.new) (S.faults source.old) (S.faults source.new) }
    ensures within { IfOk result (λ text. is_too_long limit text ≡ false) }
    ensures unread { limit ≡ None → source.new ≡ source.old }
{
    let Some(most) = limit else {
        return Ok(List::new(alloc));
    };
    match read_all(alloc, source, most) {
        Ok(text) => Ok(List::from_vec(text)),
        Err(ReadAllFault::ReadFault) => Err(Fault::Read),
        Err(ReadAllFault::TooLong) => Err(Fault::TooLong),
        Err(ReadAllFault::NoMemory) => Err(Fault::NoMemory),
    }
}

// The whole output, before anything is written, or what ends the run.
fn output<S: Source>(alloc: Global, words: &[String], source: &mut S) -> Result<List<u8>, Fault>
    ensures outcome { IsOutcome (command_in (map string_bytes words.now)) (S.left source.old) result }
    ensures source { LeavesSource (read_limit (command_in (map string_bytes words.now))) (outcome_status result)
        (S.left source.old) (S.left source.new) (S.faults source.old) (S.faults source.new) }
    ensures asked { IfErr result (λ fault. fault_status fault ≡ Status.No → Asks (command_in (map string_bytes words.now))) }
    ensures unread { read_limit (command_in (map string_bytes words.now)) ≡ None → source.new ≡ source.old }
{
    let Some(command) = command_of(words) else {
        return Err(Fault::Usage);
    };
    let text = input(alloc, command.limit(), source)?;
    command.made(alloc, text.as_slice())
}

// Writes the note of what ended the run, and answers its status. A fault of the notes is dropped.
fn tell<N: Sink>(notes: &mut N, fault: &Fault) -> Status
    ensures status { result ≡ fault_status fault.now }
    ensures told { TakesLine (N.taken notes.old) (N.taken notes.new) (fault_line fault.now)
        (FailedOrStalled (N.counts notes.old) (N.counts notes.new)) }
    ensures counts { AreLater (N.counts notes.old) (N.counts notes.new) }
{
    let _ = write_all_of(notes, fault.line());
    fault.status()
}

// Writes the output, notes it where that failed, and answers the status.
fn write<K: Sink, N: Sink>(sink: &mut K, notes: &mut N, output: &[u8]) -> Status
    ensures taken { TakesOutput result output.now (K.taken sink.old) (K.taken sink.new) }
    ensures write_fault { result ≡ Status.WriteFault → FailedOrStalled (K.counts sink.old) (K.counts sink.new) }
    ensures sink_counts { AreLater (K.counts sink.old) (K.counts sink.new) }
    ensures silent { result ≡ Status.Done → notes.new ≡ notes.old }
    ensures told { result ≡ Status.WriteFault → TakesLine (N.taken notes.old) (N.taken notes.new) (fault_line Write)
        (FailedOrStalled (N.counts notes.old) (N.counts notes.new)) }
    ensures notes_counts { AreLater (N.counts notes.old) (N.counts notes.new) }
{
    match write_all_of(sink, output) {
        Ok(()) => Status::Done,
        Err(_) => tell(notes, &Fault::Write),
    }
}

/// Does all that the program does: reads the command from the words, the text from the source, writes the output to
/// the sink and, where the status isn't Done, one line to the notes.
///
/// The program's own name isn't among the words. On Done the sink has taken the command's output, which means what
/// `IsMeant` says of the command. On WriteFault it has taken a proper front of that, and on every other status, want of
/// memory too, nothing: all memory is taken before the first write. A fault of the notes changes nothing else. The
/// clauses on content are of sources and sinks that tell theirs.
pub fn run<S: Source, K: Sink, N: Sink>(
    alloc: Global,
    words: &[String],
    source: &mut S,
    sink: &mut K,
    notes: &mut N,
) -> Status
    // When each status comes. The words are no command; there is no output for the text; the answer is no.
    ensures usage { result ≡ Status.Usage ↔ (command_in (map string_bytes words.now) ≡ None) }
    ensures refused { OverText (command_in (map string_bytes words.now)) (S.left source.old)
        (λ command text. ComesExactly Status.Refused result (output_of command text)) }
    ensures no { OverText (command_in (map string_bytes words.now)) (S.left source.old)
        (λ command text. ComesExactly Status.No result (output_of command text)) }
    ensures asked { result ≡ Status.No → Asks (command_in (map string_bytes words.now)) }
    ensures write_fault { result ≡ Status.WriteFault → FailedOrStalled (K.counts sink.old) (K.counts sink.new) }
    // Right words, an accepted text, and no counted fault or stall.
    ensures complete { OverText (command_in (map string_bytes words.now)) (S.left source.old)
        (λ command text. IsOk (output_of command text) → (Rose (S.faults source.old) (S.faults source.new) → ⊥)
        → (FailedOrStalled (K.counts sink.old) (K.counts sink.new) → ⊥) → IsDoneOrNoMemory result) }

    // What the source is left with, and when it is to blame.
    ensures source { LeavesSource (read_limit (command_in (map string_bytes words.now))) result
        (S.left source.old) (S.left source.new) (S.faults source.old) (S.faults source.new) }
    ensures unread { read_limit (command_in (map string_bytes words.now)) ≡ None → source.new ≡ source.old }

    // What the sink has taken: the bytes of the output, to the last one, and their meaning.
    ensures unwritten { IsUnwritten result → sink.new ≡ sink.old }
    ensures written { OverText (command_in (map string_bytes words.now)) (S.left source.old)
        (λ command text. Writes result (K.taken sink.old) (K.taken sink.new) (output_of command text)) }
    ensures meant { OverText (command_in (map string_bytes words.now)) (S.left source.old)
        (λ command text. WritesMeaning result (K.taken sink.old) (K.taken sink.new) (IsMeant command text)) }
    ensures appended { Appends (K.taken sink.old) (K.taken sink.new) }
    ensures sink_counts { AreLater (K.counts sink.old) (K.counts sink.new) }

    // What the notes have taken.
    ensures silent { result ≡ Status.Done → notes.new ≡ notes.old }
    ensures noted { result ≢ Status.Done → (line : List ℕ)
        × IsNoteOf result (command_in (map string_bytes words.now)) (S.left source.old) line
        × TakesLine (N.taken notes.old) (N.taken notes.new) line (FailedOrStalled (N.counts notes.old) (N.counts notes.new)) }
    ensures notes_counts { AreLater (N.counts notes.old) (N.counts notes.new) }
{
    match output(alloc, words, source) {
        Ok(output) => write(sink, notes, output.as_slice()),
        Err(fault) => tell(notes, &fault),
    }
}
