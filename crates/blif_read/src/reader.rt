//! What is read so far, and what each kind of line adds.

ghost use Rattle.std.specs.Prelude.{◌≡◌, ◌<◌, false, Some, length, All, IfOk, OnOk};
ghost use Rattle.net_base.specs.Name.{IsNameByte};
ghost use Rattle.net_base.specs.Answers.{Tells};
ghost use Rattle.blif_read.specs.Answers.{Finds, line_told};
ghost use Rattle.blif_read.specs.Faults.{fault_of};
ghost use Rattle.blif_read.specs.Readers.{IsReady, state_of};
ghost use Rattle.blif_read.specs.State as spec;
ghost use Rattle.blif_read.specs.Words as words;
ghost use Rattle.blif_read.specs.declared.fault.BlifKind.TheVariants as kind;
ghost use Rattle.blif_read.specs.declared.word.Word.TheVariants as word;

use crate::fault::{BlifKind, LineFault};
use crate::line::CleanLine;
use crate::port::{Port, list_signals};
use crate::row::add_row;
use crate::table::{number_signals, table_of};
use crate::word::{Word, word_of};
use blif_model::{Design, MAX_PINS, MAX_TABLES, NameTable, Table};
use indexmap::IndexSet;
use net_base::{List, MAX_NAME_BYTES, Name, NoMemory};
use std::alloc::Global;

/// A design so far. Contracts see it as a state of the definition (`state_of` of `specs/Readers.antt`).
#[derive(Drop)]
pub(crate) struct Reader {
    name: Name,
    names: NameTable,
    inputs: IndexSet<u32>,
    outputs: IndexSet<u32>,
    tables: List<Table>,
    // The current table.
    table: Option<Table>,
    has_model: bool,
    has_end: bool,
}

// The name that a `.model` line gives.
fn model_name<'a>(line: &CleanLine<'a>) -> &'a [u8]
    ensures bytes { result.now ≡ spec.model_name line.now.tokens }
    ensures some { 0 < length result.now }
    ensures visible { All IsNameByte result.now }
{
    if line.len() < 2 {
        b"top"
    } else {
        line.token(1)
    }
}

// The fault of a word that isn't read here.
fn unsupported(alloc: Global, token: &[u8]) -> LineFault
    requires word { words.word_of token.now ≡ word.Unsupported }
    requires some { 0 < length token.now }
    requires visible { All IsNameByte token.now }
    ensures { Tells (line_told result) (Some (kind.Unsupported token.now)) }
{
    match Name::of(alloc, token) {
        Ok(word) => LineFault::Kind(BlifKind::Unsupported(word)),
        Err(_) => LineFault::NoMemory,
    }
}

impl Reader {
    /// Before the first line: a model named `top`.
    pub(crate) fn new(alloc: Global) -> Result<Reader, NoMemory>
        ensures { IfOk result (λ reader. state_of reader ≡ spec.start) }
    {
        let name = Name::of(alloc, b"top")?;
        Ok(Reader {
            name,
            names: NameTable::new(alloc),
            inputs: IndexSet::new(alloc),
            outputs: IndexSet::new(alloc),
            tables: List::new(alloc),
            table: None,
            has_model: false,
            has_end: false,
        })
    }

    // Ends the current table.
    fn close(&mut self) -> Result<(), NoMemory>
        ensures { OnOk result (state_of self.new ≡ spec.closed (state_of self.old)) }
    {
        match self.table.take() {
            Some(table) => self.tables.push(table),
            None => Ok(()),
        }
    }

    #[tactic(auto, unfolding(crate::specs::Faults::fault_of, crate::specs::State::with_line))]
    fn read_model(&mut self, alloc: Global, line: &CleanLine) -> Result<(), LineFault>
        requires { IsReady line.now (state_of self.old) }
        ensures fault { Finds result (fault_of word.Model line.now (state_of self.old)) }
        ensures state { OnOk result (state_of self.new ≡ spec.with_line word.Model line.now (state_of self.old)) }
    {
        if self.has_model || self.has_end {
            return Err(LineFault::Kind(BlifKind::SecondModel));
        }
        let name = model_name(line);
        if name.len() > MAX_NAME_BYTES {
            return Err(LineFault::Kind(BlifKind::NameTooLong));
        }
        self.close()?;
        self.name = Name::of(alloc, name)?;
        self.has_model = true;
        Ok(())
    }

    #[tactic(auto, unfolding(crate::specs::Faults::fault_of, crate::specs::State::with_line))]
    fn read_inputs(&mut self, line: &CleanLine) -> Result<(), LineFault>
        requires open { self.old.has_end ≡ false }
        requires ready { IsReady line.now (state_of self.old) }
        ensures fault { Finds result (fault_of word.Inputs line.now (state_of self.old)) }
        ensures state { OnOk result (state_of self.new ≡ spec.with_line word.Inputs line.now (state_of self.old)) }
    {
        self.close()?;
        list_signals(Port::Input, &mut self.names, &mut self.inputs, line)
    }

    #[tactic(auto, unfolding(crate::specs::Faults::fault_of, crate::specs::State::with_line))]
    fn read_outputs(&mut self, line: &CleanLine) -> Result<(), LineFault>
        requires open { self.old.has_end ≡ false }
        requires ready { IsReady line.now (state_of self.old) }
        ensures fault { Finds result (fault_of word.Outputs line.now (state_of self.old)) }
        ensures state { OnOk result (state_of self.new ≡ spec.with_line word.Outputs line.now (state_of self.old)) }
    {
        self.close()?;
        list_signals(Port::Output, &mut self.names, &mut self.outputs, line)
    }

    #[tactic(auto, unfolding(crate::specs::Faults::fault_of, crate::specs::State::with_line))]
    fn read_names(&mut self, alloc: Global, line: &CleanLine) -> Result<(), LineFault>
        requires open { self.old.has_end ≡ false }
        requires ready { IsReady line.now (state_of self.old) }
        ensures fault { Finds result (fault_of word.Names line.now (state_of self.old)) }
        ensures state { OnOk result (state_of self.new ≡ spec.with_line word.Names line.now (state_of self.old)) }
    {
        self.close()?;
        if self.tables.len() == MAX_TABLES as usize {
            return Err(LineFault::Kind(BlifKind::TooManyTables));
        }
        let signals = line.len() - 1;
        if signals == 0 {
            return Err(LineFault::Kind(BlifKind::NoTarget));
        }
        if signals > MAX_PINS as usize + 1 {
            return Err(LineFault::Kind(BlifKind::TooManyPins));
        }
        let signals = number_signals(alloc, &mut self.names, line)?;
        self.table = Some(table_of(alloc, line.number(), signals));
        Ok(())
    }

    #[tactic(auto, unfolding(crate::specs::Faults::fault_of, crate::specs::State::with_line))]
    fn read_end(&mut self, line: &CleanLine) -> Result<(), LineFault>
        requires open { self.old.has_end ≡ false }
        requires ready { IsReady line.now (state_of self.old) }
        ensures fault { Finds result (fault_of word.End line.now (state_of self.old)) }
        ensures state { OnOk result (state_of self.new ≡ spec.with_line word.End line.now (state_of self.old)) }
    {
        self.close()?;
        self.has_end = true;
        Ok(())
    }

    #[tactic(auto, unfolding(crate::specs::Faults::fault_of, crate::specs::State::with_line))]
    fn read_row(&mut self, alloc: Global, line: &CleanLine) -> Result<(), LineFault>
        requires open { self.old.has_end ≡ false }
        requires ready { IsReady line.now (state_of self.old) }
        ensures fault { Finds result (fault_of word.Row line.now (state_of self.old)) }
        ensures state { OnOk result (state_of self.new ≡ spec.with_line word.Row line.now (state_of self.old)) }
    {
        match &mut self.table {
            Some(table) => add_row(alloc, table, line),
            None => Err(LineFault::Kind(BlifKind::RowOutsideTable)),
        }
    }

    /// Reads a line.
    pub(crate) fn read_line(&mut self, alloc: Global, line: &CleanLine) -> Result<(), LineFault>
        requires { IsReady line.now (state_of self.old) }
        ensures fault { Finds result (fault_of (words.word_of (words.first_token line.now.tokens)) line.now (state_of self.old)) }
        ensures state { OnOk result (state_of self.new
            ≡ spec.with_line (words.word_of (words.first_token line.now.tokens)) line.now (state_of self.old)) }
    {
        match word_of(line.token(0)) {
            Word::Model => self.read_model(alloc, line),
            _ if self.has_end => Err(LineFault::Kind(BlifKind::AfterEnd)),
            Word::Inputs => self.read_inputs(line),
            Word::Outputs => self.read_outputs(line),
            Word::Names => self.read_names(alloc, line),
            Word::End => self.read_end(line),
            Word::Unsupported => Err(unsupported(alloc, line.token(0))),
            Word::Unknown => Err(LineFault::Kind(BlifKind::UnknownWord)),
            Word::Row => self.read_row(alloc, line),
        }
    }

    /// The design, when no line is left.
    pub(crate) fn into_design(self, alloc: Global) -> Result<Design, NoMemory>
        ensures { IfOk result (λ design. design ≡ spec.design_so_far (state_of self)) }
    {
        let mut reader = self;
        reader.close()?;
        let inputs = List::from_slice(alloc, reader.inputs.as_slice())?;
        let outputs = List::from_slice(alloc, reader.outputs.as_slice())?;
        let Reader {
            name,
            names,
            tables,
            ..
        } = reader;
        Ok(Design {
            name,
            names,
            inputs,
            outputs,
            tables,
        })
    }
}
