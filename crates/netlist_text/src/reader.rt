//! The lines of the body, read one at a time.

ghost use Rattle.std.specs.Prelude.{◌≡◌, ◌≢◌, IfOk};
ghost use Rattle.netlist_text.specs.Scanning as scan;
ghost use Rattle.netlist_text.specs.Read.{said};
ghost use Rattle.netlist_text.specs.Lines.{Body, no_net, no_flow};
ghost use Rattle.netlist_text.specs.declared.word.Word.TheVariants as words;

use crate::line::{clocked, input, output, splitter, units};
use crate::part::Part;
use crate::word::Word;
use cell_lib::Cell;
use flow_net::Flow;
use net_base::{List, Name, NoMemory};
use pulse_net::{Names, PulseNet};
use std::alloc::Global;

/// A netlist and a flow so far, in a text of a format.
#[derive(Drop)]
pub(crate) struct Reader {
    /// 1, or 2 where there may be majority cells.
    pub(crate) format: u32,
    /// The netlist so far.
    pub(crate) net: PulseNet,
    /// The flow so far.
    pub(crate) flow: Flow,
}

// The least format that has a line for a cell.
fn format_for(cell: Cell) -> u32
    ensures { result ≡ scan.format_for cell }
{
    match cell {
        Cell::Maj => 2,
        _ => 1,
    }
}

impl Reader {
    /// Behind a header.
    pub(crate) fn new(alloc: Global, format: u32, model: Name, phases: u32, latency: u32) -> Reader
        ensures { said result ≡ Body format (no_net model phases latency) no_flow }
    {
        Reader {
            format,
            net: PulseNet {
                names: Names {
                    model,
                    inputs: List::new(alloc),
                    outputs: List::new(alloc),
                },
                phases,
                latency,
                inputs: List::new(alloc),
                elements: List::new(alloc),
                outputs: List::new(alloc),
            },
            flow: Flow {
                pins: List::new(alloc),
            },
        }
    }

    fn takes_outputs(&self) -> bool
        ensures { result ≡ scan.takes_outputs self.now.flow }
    {
        self.flow.pins.is_empty()
    }

    fn takes_elements(&self) -> bool
        ensures { result ≡ scan.takes_elements self.now.net self.now.flow }
    {
        self.net.outputs.is_empty() && self.takes_outputs()
    }

    fn takes_inputs(&self) -> bool
        ensures { result ≡ scan.takes_inputs self.now.net self.now.flow }
    {
        self.net.elements.is_empty() && self.takes_elements()
    }

    // Reads what stands behind the word `input`; None where the line doesn't fit.
    #[tactic(auto, unfolding(crate::specs::Scanning::body_line_at))]
    fn read_input<'a>(
        &mut self,
        alloc: Global,
        bytes: &Part<'a>,
    ) -> Result<Option<Part<'a>>, NoMemory>
        ensures { IfOk result (λ read. scan.seen (said self.new) read
            ≡ scan.stepped (said self.old) (scan.body_line_at words.Input self.old.format self.old.net self.old.flow bytes.now)) }
    {
        if !self.takes_inputs() {
            return Ok(None);
        }
        let Some((read, next)) = input(bytes) else {
            return Ok(None);
        };
        let name = Name::of(alloc, read.0.bytes())?;
        self.net.names.inputs.push(name)?;
        self.net.inputs.push(read.1)?;
        Ok(Some(next))
    }

    // Reads what stands behind a cell's word.
    #[tactic(auto, unfolding(crate::specs::Scanning::body_line_at))]
    fn read_clocked<'a>(
        &mut self,
        alloc: Global,
        cell: Cell,
        bytes: &Part<'a>,
    ) -> Result<Option<Part<'a>>, NoMemory>
        ensures { IfOk result (λ read. scan.seen (said self.new) read
            ≡ scan.stepped (said self.old) (scan.body_line_at (words.Clocked cell) self.old.format self.old.net self.old.flow bytes.now)) }
    {
        if !(self.takes_elements() && format_for(cell) <= self.format) {
            return Ok(None);
        }
        let Some((element, next)) = clocked(alloc, cell, bytes)? else {
            return Ok(None);
        };
        self.net.elements.push(element)?;
        Ok(Some(next))
    }

    // Reads what stands behind the word `split`.
    #[tactic(auto, unfolding(crate::specs::Scanning::body_line_at))]
    fn read_splitter<'a>(&mut self, bytes: &Part<'a>) -> Result<Option<Part<'a>>, NoMemory>
        ensures { IfOk result (λ read. scan.seen (said self.new) read
            ≡ scan.stepped (said self.old) (scan.body_line_at words.Split self.old.format self.old.net self.old.flow bytes.now)) }
    {
        if !(self.takes_elements() && 1 <= self.format) {
            return Ok(None);
        }
        let Some((element, next)) = splitter(bytes) else {
            return Ok(None);
        };
        self.net.elements.push(element)?;
        Ok(Some(next))
    }

    // Reads what stands behind the word `output`.
    #[tactic(auto, unfolding(crate::specs::Scanning::body_line_at))]
    fn read_output<'a>(
        &mut self,
        alloc: Global,
        bytes: &Part<'a>,
    ) -> Result<Option<Part<'a>>, NoMemory>
        ensures { IfOk result (λ read. scan.seen (said self.new) read
            ≡ scan.stepped (said self.old) (scan.body_line_at words.Output self.old.format self.old.net self.old.flow bytes.now)) }
    {
        if !self.takes_outputs() {
            return Ok(None);
        }
        let Some((read, next)) = output(bytes) else {
            return Ok(None);
        };
        let name = Name::of(alloc, read.0.bytes())?;
        self.net.names.outputs.push(name)?;
        self.net.outputs.push(read.1)?;
        Ok(Some(next))
    }

    // Reads what stands behind the word `flow`.
    #[tactic(auto, unfolding(crate::specs::Scanning::body_line_at))]
    fn read_units<'a>(&mut self, bytes: &Part<'a>) -> Result<Option<Part<'a>>, NoMemory>
        ensures { IfOk result (λ read. scan.seen (said self.new) read
            ≡ scan.stepped (said self.old) (scan.body_line_at words.Flow self.old.format self.old.net self.old.flow bytes.now)) }
    {
        let Some((units, next)) = units(bytes) else {
            return Ok(None);
        };
        self.flow.pins.push(units)?;
        Ok(Some(next))
    }

    /// Reads what stands behind the word of a line; None where the line doesn't fit.
    #[tactic(auto, unfolding(crate::specs::Scanning::body_line_at))]
    pub(crate) fn read_line<'a>(
        &mut self,
        alloc: Global,
        word: Word,
        bytes: &Part<'a>,
    ) -> Result<Option<Part<'a>>, NoMemory>
        requires { word ≢ words.End }
        ensures { IfOk result (λ read. scan.seen (said self.new) read
            ≡ scan.stepped (said self.old) (scan.body_line_at word self.old.format self.old.net self.old.flow bytes.now)) }
    {
        match word {
            Word::Input => self.read_input(alloc, bytes),
            Word::Clocked(cell) => self.read_clocked(alloc, cell, bytes),
            Word::Split => self.read_splitter(bytes),
            Word::Output => self.read_output(alloc, bytes),
            Word::Flow => self.read_units(bytes),
            Word::End => Ok(None),
        }
    }
}
