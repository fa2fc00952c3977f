//! Running the rows of a text through a simulator, and what is then read at the outputs.

ghost use Rattle.std.specs.Prelude.{◌≡◌, ℕ, ◌+◌, ◌*◌, ◌++◌, ◌||◌, [], ◌∷◌, List, Bool, false, length, map, drop, replicate, slice_index_or, IfOk, OnOk};
ghost use Rattle.pulse_net.specs.declared.net.PulseNet.{PulseNet as Netlist};
ghost use Rattle.pulse_net.specs.Validity.{IsValid};
ghost use Rattle.pulse_sim.specs.Simulators.{SimState, StandsFor};
ghost use Rattle.pulse_sim.specs.Reading.{digit, line_read, lines_read};
ghost use Rattle.pulse_sim.specs.Running.{seen_before, HasRun, Feeds, with_shown};

use crate::sim::Sim;
use net_base::{List, NoMemory};
use pulse_net::PulseNet;
use std::alloc::Global;

fn digit(bit: bool) -> u8
    ensures { result ≡ digit bit }
{
    if bit { b'1' } else { b'0' }
}

// Writes a line of what was read.
fn push_line(text: &mut Vec<u8>, read: &[bool]) -> Result<(), NoMemory>
    ensures { OnOk result (text.new.items ≡ text.old.items ++ (map digit read.now ++ 10 ∷ [])) }
{
    for bit in read {
        text.push(digit(*bit))?;
    }
    text.push(b'\n')?;
    Ok(())
}

// Nothing is read before the first tick of an epoch.
fn clear(read: &mut [bool])
    ensures { read.new ≡ replicate (length read.old) false }
{
    for bit in read.iter_mut() {
        *bit = false;
    }
}

fn either(pulse: bool, bit: bool) -> bool
    ensures { result ≡ (pulse || bit) }
{
    pulse || bit
}

// An output is read where it pulsed before or pulses now.
fn add_shown(read: &mut [bool], shown: &[bool])
    requires { length read.old ≡ length shown.now }
    ensures { read.new ≡ with_shown shown.now read.old }
{
    for (at, pulse) in shown.iter().enumerate() {
        read[at] = either(*pulse, read[at]);
    }
}

// One tick, of which the outputs are read.
fn step(sim: &mut Sim, row: &[bool], shown: &mut [bool], read: &mut [bool])
    requires shown { length shown.old ≡ length sim.old.taps }
    requires read { length read.old ≡ length sim.old.taps }
    ensures taps { sim.new.taps ≡ sim.old.taps }
    ensures run { (net : Netlist) (rows : List (List Bool)) (tick window : ℕ) → IsValid net → HasRun net rows tick sim.old → Feeds net rows tick row.now → read.old ≡ seen_before net rows tick window → HasRun net rows (tick + 1) sim.new × (read.new ≡ seen_before net rows (tick + 1) (window + 1)) }
{
    sim.tick(row, shown);
    add_shown(read, shown);
}

// One epoch, with a row at its first tick. Of its ticks all outputs are read.
fn run_epoch(sim: &mut Sim, phases: u32, row: &[bool], shown: &mut [bool], read: &mut [bool])
    requires shown { length shown.old ≡ length sim.old.taps }
    requires read { length read.old ≡ length sim.old.taps }
    ensures taps { sim.new.taps ≡ sim.old.taps }
    ensures run { (net : Netlist) (rows : List (List Bool)) (epoch : ℕ) → IsValid net → phases ≡ net.phases → HasRun net rows (net.phases * epoch) sim.old → row.now ≡ slice_index_or rows epoch [] → HasRun net rows (net.phases * (epoch + 1)) sim.new × (read.new ≡ seen_before net rows (net.phases * (epoch + 1)) net.phases) }
{
    clear(read);
    step(sim, row, shown, read);
    for phase in 1..phases {
        step(sim, &[], shown, read);
    }
}

// The first row that is left, or no pulse where none is.
fn first_of(left: &[List<bool>]) -> &[bool]
    ensures { result.now ≡ slice_index_or left.now 0 [] }
{
    match left {
        [row, ..] => row.as_slice(),
        [] => &[],
    }
}

// The rows behind the first.
fn rest_of(left: &[List<bool>]) -> &[List<bool>]
    ensures { result.now ≡ drop 1 left.now }
{
    match left {
        [_, rest @ ..] => rest,
        [] => left,
    }
}

// The lines of all rows: as many epochs without one as the latency is above 1, and then a line for each epoch.
fn write_lines(
    text: &mut Vec<u8>,
    sim: &mut Sim,
    net: &PulseNet,
    rows: &[List<bool>],
    shown: &mut [bool],
    read: &mut [bool],
) -> Result<(), NoMemory>
    requires valid { IsValid net.now }
    requires stands { StandsFor net.now sim.old [] }
    requires shown { length shown.old ≡ length sim.old.taps }
    requires read { length read.old ≡ length sim.old.taps }
    ensures { OnOk result (text.new.items ≡ text.old.items ++ lines_read net.now rows.now) }
{
    let mut left = rows;
    for epoch in 0..net.latency - 1 {
        run_epoch(sim, net.phases, first_of(left), shown, read);
        left = rest_of(left);
    }
    for row in 0..rows.len() {
        run_epoch(sim, net.phases, first_of(left), shown, read);
        left = rest_of(left);
        push_line(text, read)?;
    }
    Ok(())
}

/// The text of the values that are read at the outputs of a valid netlist: a line for each row, with as many characters `0`
/// and `1` as there are outputs. A row that is shorter than the inputs has no pulse on the rest of them. Only `NoMemory` is
/// an error.
pub fn run_rows(alloc: Global, net: &PulseNet, rows: &List<List<bool>>) -> Result<Vec<u8>, NoMemory>
    requires valid { IsValid net.now }
    ensures lines { IfOk result (λ text. text.items ≡ lines_read net.now rows.now) }
{
    let mut text = Vec::new(alloc);
    if !rows.is_empty() {
        let mut sim = Sim::new(alloc, net)?;
        let mut shown = vec![in alloc; false; sim.output_count()]?;
        let mut read = vec![in alloc; false; sim.output_count()]?;
        write_lines(
            &mut text,
            &mut sim,
            net,
            rows.as_slice(),
            &mut shown,
            &mut read,
        )?;
    }
    Ok(text)
}
