//! What the lines of an AIGER text say, line by line.

ghost use Rattle.std.specs.Prelude.{◌≡◌, ◌<◌, ◌++◌, ◌∷◌, [], length, OnOk, Some};
ghost use Rattle.aiger_text.specs.Drafts as drafts;
ghost use Rattle.aiger_text.specs.Drafts.{flaw_of, named_at, no_lines, put_symbol, section_of};
ghost use Rattle.aiger_text.specs.inner.Steps.{parts_of, ReadsLine, ReadsSymbol};

use crate::cuts::split_word;
use crate::header::{Header, Section};
use crate::numbers::{LineNumbers, number_of, numbers_in};
use crate::variables::Variables;
use aig_blast::{Gate, Lit};
use kw_base::fault_number::{
    MALFORMED_AIGER, NO_VARIABLE, RESET_LEFT_OUT, VARIABLE_DEFINED_TWICE, VARIABLE_TOO_GREAT,
};
use kw_base::texts::without_blanks;
use kw_bits::{Failure, Text};
use std::alloc::Global;

/// What the lines so far say: the variables that they define, the symbols of inputs, latches and outputs, the literals
/// and resets of latches, the literals of outputs, and the gates.
#[derive(Drop)]
pub(crate) struct Draft {
    pub(crate) variables: Variables,
    pub(crate) inputs: Vec<Option<Text>>,
    pub(crate) latches: Vec<Option<Text>>,
    pub(crate) outputs: Vec<Option<Text>>,
    pub(crate) nexts: Vec<Lit>,
    pub(crate) resets: Vec<bool>,
    pub(crate) lits: Vec<Lit>,
    pub(crate) gates: Vec<Gate>,
}

impl Draft {
    /// What no line says of this text. It takes no memory.
    pub(crate) fn of_text(alloc: Global, text: &[u8]) -> Draft
        ensures { parts_of result ≡ no_lines }
    {
        Draft {
            variables: Variables::of_text(alloc, text),
            inputs: Vec::new(alloc),
            latches: Vec::new(alloc),
            outputs: Vec::new(alloc),
            nexts: Vec::new(alloc),
            resets: Vec::new(alloc),
            lits: Vec::new(alloc),
            gates: Vec::new(alloc),
        }
    }

    /// What the next line is for.
    pub(crate) fn section(&self, header: &Header) -> Section
        ensures { result ≡ section_of header.now (parts_of self.now) }
    {
        if (self.inputs.len() as u64) < header.inputs {
            return Section::Input;
        }
        if (self.latches.len() as u64) < header.latches {
            return Section::Latch;
        }
        if (self.outputs.len() as u64) < header.outputs {
            return Section::Output;
        }
        if (self.gates.len() as u64) < header.gates {
            return Section::Gate;
        }
        Section::Symbol
    }

    /// Takes what one more line says.
    pub(crate) fn add_line(
        &mut self,
        alloc: Global,
        header: &Header,
        line: &[u8],
    ) -> Result<(), Failure<u32>>
        ensures { ReadsLine result (drafts.with_line header.now (parts_of self.old) line.now) (parts_of self.new) }
    {
        match self.section(header) {
            Section::Input => self.add_input(header, numbers_in(line)),
            Section::Latch => self.add_latch(header, numbers_in(line)),
            Section::Output => self.add_output(header, numbers_in(line)),
            Section::Gate => self.add_gate(header, numbers_in(line)),
            Section::Symbol => self.add_symbol(alloc, line),
        }
    }

    fn add_input(&mut self, header: &Header, numbers: LineNumbers) -> Result<(), Failure<u32>>
        ensures { ReadsLine result (drafts.with_input header.now (parts_of self.old) numbers) (parts_of self.new) }
    {
        match numbers {
            LineNumbers::One(lit) => self.add_input_of(header, lit),
            LineNumbers::Two(_, _) => Err(Failure::Why(MALFORMED_AIGER)),
            LineNumbers::Three(_, _, _) => Err(Failure::Why(MALFORMED_AIGER)),
            LineNumbers::Other => Err(Failure::Why(MALFORMED_AIGER)),
        }
    }

    fn add_input_of(&mut self, header: &Header, lit: Lit) -> Result<(), Failure<u32>>
        ensures { ReadsLine result (drafts.input_by header.now (parts_of self.old) lit) (parts_of self.new) }
    {
        if let Err(flaw) = self.define(header, lit, &[lit], 0) {
            return Err(flaw);
        }
        self.inputs.push(None)?;
        Ok(())
    }

    fn add_latch(&mut self, header: &Header, numbers: LineNumbers) -> Result<(), Failure<u32>>
        ensures { ReadsLine result (drafts.with_latch header.now (parts_of self.old) numbers) (parts_of self.new) }
    {
        match numbers {
            LineNumbers::Two(lit, next) => self.add_latch_of(header, lit, next, 0),
            LineNumbers::Three(lit, next, reset) => self.add_latch_of(header, lit, next, reset),
            LineNumbers::One(_) => Err(Failure::Why(MALFORMED_AIGER)),
            LineNumbers::Other => Err(Failure::Why(MALFORMED_AIGER)),
        }
    }

    fn add_latch_of(
        &mut self,
        header: &Header,
        lit: Lit,
        next: Lit,
        reset: u64,
    ) -> Result<(), Failure<u32>>
        ensures { ReadsLine result (drafts.latch_by header.now (parts_of self.old) lit next reset) (parts_of self.new) }
    {
        if let Err(flaw) = self.define(header, lit, &[lit, next], reset) {
            return Err(flaw);
        }
        self.latches.push(None)?;
        self.nexts.push(next)?;
        self.resets.push(reset == 1)?;
        Ok(())
    }

    fn add_output(&mut self, header: &Header, numbers: LineNumbers) -> Result<(), Failure<u32>>
        ensures { ReadsLine result (drafts.with_output header.now (parts_of self.old) numbers) (parts_of self.new) }
    {
        match numbers {
            LineNumbers::One(lit) => self.add_output_of(header, lit),
            LineNumbers::Two(_, _) => Err(Failure::Why(MALFORMED_AIGER)),
            LineNumbers::Three(_, _, _) => Err(Failure::Why(MALFORMED_AIGER)),
            LineNumbers::Other => Err(Failure::Why(MALFORMED_AIGER)),
        }
    }

    fn add_output_of(&mut self, header: &Header, lit: Lit) -> Result<(), Failure<u32>>
        ensures { ReadsLine result (drafts.output_by header.now (parts_of self.old) lit) (parts_of self.new) }
    {
        if has_above(header.most, &[lit]) {
            return Err(Failure::Why(VARIABLE_TOO_GREAT));
        }
        self.outputs.push(None)?;
        self.lits.push(lit)?;
        Ok(())
    }

    fn add_gate(&mut self, header: &Header, numbers: LineNumbers) -> Result<(), Failure<u32>>
        ensures { ReadsLine result (drafts.with_gate header.now (parts_of self.old) numbers) (parts_of self.new) }
    {
        match numbers {
            LineNumbers::Three(lit, left, right) => self.add_gate_of(header, lit, left, right),
            LineNumbers::One(_) => Err(Failure::Why(MALFORMED_AIGER)),
            LineNumbers::Two(_, _) => Err(Failure::Why(MALFORMED_AIGER)),
            LineNumbers::Other => Err(Failure::Why(MALFORMED_AIGER)),
        }
    }

    fn add_gate_of(
        &mut self,
        header: &Header,
        lit: Lit,
        left: Lit,
        right: Lit,
    ) -> Result<(), Failure<u32>>
        ensures { ReadsLine result (drafts.gate_by header.now (parts_of self.old) lit left right) (parts_of self.new) }
    {
        if let Err(flaw) = self.define(header, lit, &[lit, left, right], 0) {
            return Err(flaw);
        }
        self.gates.push(Gate { left, right })?;
        Ok(())
    }

    // Takes the variable of a literal that a line with these literals and this reset defines.
    fn define(
        &mut self,
        header: &Header,
        lit: Lit,
        lits: &[Lit],
        reset: u64,
    ) -> Result<(), Failure<u32>>
        ensures { ReadsLine result (drafts.unless (flaw_of header.now (parts_of self.old).variables lit lits.now reset) (drafts.defined (parts_of self.old) lit)) (parts_of self.new) }
    {
        if let Some(number) = least_fault(header, &self.variables, lit, lits, reset) {
            return Err(Failure::Why(number));
        }
        self.variables.add(lit / 2)?;
        Ok(())
    }

    fn add_symbol(&mut self, alloc: Global, line: &[u8]) -> Result<(), Failure<u32>>
        ensures { ReadsLine result (drafts.with_symbol (parts_of self.old) line.now) (parts_of self.new) }
    {
        let (word, rest) = split_word(line);
        let name = without_blanks(rest);
        let Some((kind, digits)) = word.split_first() else {
            return Err(Failure::Why(MALFORMED_AIGER));
        };
        let Some(index) = number_of(digits) else {
            return Err(Failure::Why(MALFORMED_AIGER));
        };
        if name.is_empty() {
            return Err(Failure::Why(MALFORMED_AIGER));
        }
        self.add_name(alloc, *kind, index, name)
    }

    // Takes the name of an input, latch or output.
    fn add_name(
        &mut self,
        alloc: Global,
        kind: u8,
        index: u64,
        name: &[u8],
    ) -> Result<(), Failure<u32>>
        ensures { ReadsLine result (drafts.symbol_by (parts_of self.old) kind index name.now) (parts_of self.new) }
    {
        match kind {
            b'i' => put_name(alloc, &mut self.inputs, index, name),
            b'l' => put_name(alloc, &mut self.latches, index, name),
            b'o' => put_name(alloc, &mut self.outputs, index, name),
            _ => Err(Failure::Why(MALFORMED_AIGER)),
        }
    }
}

// Puts a name at an index, if there is none yet.
fn put_name(
    alloc: Global,
    symbols: &mut Vec<Option<Text>>,
    index: u64,
    name: &[u8],
) -> Result<(), Failure<u32>>
    ensures { ReadsSymbol result (put_symbol symbols.old.items index name.now) symbols.new.items }
{
    if index >= symbols.len() as u64 {
        return Err(Failure::Why(MALFORMED_AIGER));
    }
    let place = index as usize;
    if symbols[place].is_some() {
        return Ok(());
    }
    let text = Text::from_slice(alloc, name)?;
    symbols[place] = Some(text);
    Ok(())
}

// The least fault of a line that defines a literal and has these literals and this reset.
fn least_fault(
    header: &Header,
    variables: &Variables,
    defined: Lit,
    lits: &[Lit],
    reset: u64,
) -> Option<u32>
    ensures { result ≡ flaw_of header.now variables.now defined lits.now reset }
{
    if has_above(header.most, lits) {
        return Some(VARIABLE_TOO_GREAT);
    }
    if variables.has(defined / 2) {
        return Some(VARIABLE_DEFINED_TWICE);
    }
    if defined < 2 || defined % 2 == 1 {
        return Some(NO_VARIABLE);
    }
    if reset > 1 {
        return Some(RESET_LEFT_OUT);
    }
    None
}

// Whether the variable of one of the literals is above the greatest.
fn has_above(most: u64, lits: &[Lit]) -> bool
    ensures { result ≡ drafts.has_above most lits.now }
{
    lits.iter().any(|lit| most < *lit / 2)
}
