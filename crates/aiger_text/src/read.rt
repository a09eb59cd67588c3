//! The reader of AIGER texts, from a text to its bit-level circuit or its first fault.

ghost use Rattle.std.specs.Prelude.{◌≡◌, ◌≤◌, ◌^◌, length, IfOk, OnOk, Ok, Err};
ghost use Rattle.kw_base.specs.Fault.{IfFault};
ghost use Rattle.aiger_text.specs.Acceptance.{accepted_text};
ghost use Rattle.aiger_text.specs.Cuts.{lines_of};
ghost use Rattle.aiger_text.specs.Drafts as drafts;
ghost use Rattle.aiger_text.specs.Drafts.{draft_from, draft_of, in_line, no_lines, with_line};
ghost use Rattle.aiger_text.specs.Meaning.{HasGraph};
ghost use Rattle.aiger_text.specs.Reading.{aig_by, aig_of, gates_of, lits_of, nexts_of, parts_by};
ghost use Rattle.aiger_text.specs.inner.Steps.{parts_of};
ghost use Rattle.aiger_text.specs.inner.Sound.{IsDraft};
ghost use Rattle.aig_blast.specs.Aigs.{IsAig};

use crate::cuts::next_stripped_line;
use crate::draft::Draft;
use crate::header::{Header, Section, header_of};
use crate::places::{all_placed, gates_placed, line_number, refusal};
use crate::runs::{latch_words, output_bits, words_of};
use aig_blast::{Aig, Gate, Lit};
use kw_base::Refusal;
use kw_base::fault_number::MALFORMED_AIGER;
use kw_bits::{Failure, NoMemory, Sequence};
use std::alloc::Global;

// The most variables of a graph.
const MOST_VARIABLES: usize = 1 << 60;

/// The bit-level circuit of an AIGER text, or the fault of its first line with one, each at the first column: 70 where
/// a line isn't of its form or is missing, 71 where a variable is above the greatest, 72 where it is defined already,
/// 73 where a defined literal is odd or a constant, 75 where a reset is neither 0 nor 1. If there is none of these,
/// then the first line by 74, where a variable is defined nowhere, or for a gate not before it. The circuit's run is that
/// of the text by its own literals.
pub fn read_aiger(alloc: Global, bytes: &[u8]) -> Result<Aig, Refusal>
    ensures text { IfOk result (HasGraph bytes.now) }
    ensures refused { IfFault result (λ fault. accepted_text bytes.now ≡ Err fault) }
    ensures aig { IfOk result (λ aig. aig_of bytes.now ≡ Ok aig) }
    ensures fault { IfFault result (λ fault. aig_of bytes.now ≡ Err fault) }
{
    let draft = read_draft(alloc, bytes)?;
    if draft.variables.len() > MOST_VARIABLES {
        return Err(Refusal::NoMemory);
    }
    let aig = to_aig(alloc, &draft)?;
    Ok(aig)
}

// What the lines of a text say.
fn read_draft(alloc: Global, bytes: &[u8]) -> Result<Draft, Refusal>
    ensures draft { IfOk result (λ draft. draft_of bytes.now ≡ Ok (parts_of draft)) }
    ensures fault { IfFault result (λ fault. draft_of bytes.now ≡ Err fault) }
{
    let Some(line) = next_stripped_line(bytes) else {
        return Err(refusal(MALFORMED_AIGER, 1));
    };
    let Some(header) = header_of(line.bytes) else {
        return Err(refusal(MALFORMED_AIGER, 1));
    };
    let draft = read_lines(alloc, &header, bytes, line.rest)?;
    Ok(draft)
}

// What the lines after a header say.
fn read_lines(alloc: Global, header: &Header, text: &[u8], bytes: &[u8]) -> Result<Draft, Refusal>
    ensures draft { IfOk result (λ draft. draft_from header.now no_lines 2 (lines_of bytes.now) ≡ Ok (parts_of draft)) }
    ensures fault { IfFault result (λ fault. draft_from header.now no_lines 2 (lines_of bytes.now) ≡ Err fault) }
{
    let mut draft = Draft::of_text(alloc, text);
    let mut number: u32 = 2;
    let mut rest = bytes;
    while let Some(line) = next_stripped_line(rest) {
        let section = draft.section(header);
        if is_end(section, line.bytes) {
            return Ok(draft);
        }
        add_line(alloc, &mut draft, header, line.bytes, number)?;
        number = number.saturating_add(1);
        rest = line.rest;
    }
    let last = draft.section(header);
    match last {
        Section::Symbol => Ok(draft),
        Section::Input => Err(refusal(MALFORMED_AIGER, number)),
        Section::Latch => Err(refusal(MALFORMED_AIGER, number)),
        Section::Output => Err(refusal(MALFORMED_AIGER, number)),
        Section::Gate => Err(refusal(MALFORMED_AIGER, number)),
    }
}

// Whether a line ends the text: it is `c`, and comes after the gates.
fn is_end(section: Section, line: &[u8]) -> bool
    ensures { result ≡ drafts.is_end section line.now }
{
    match section {
        Section::Symbol => line == b"c".as_slice(),
        Section::Input => false,
        Section::Latch => false,
        Section::Output => false,
        Section::Gate => false,
    }
}

// Takes what the line of this number says.
fn add_line(
    alloc: Global,
    draft: &mut Draft,
    header: &Header,
    line: &[u8],
    number: u32,
) -> Result<(), Refusal>
    ensures ok { OnOk result (with_line header.now (parts_of draft.old) line.now ≡ Ok (parts_of draft.new)) }
    ensures fault { IfFault result (λ fault. in_line (with_line header.now (parts_of draft.old) line.now) number ≡ Err fault) }
{
    match draft.add_line(alloc, header, line) {
        Ok(()) => Ok(()),
        Err(Failure::Why(fault)) => Err(refusal(fault, number)),
        Err(Failure::NoMemory) => Err(Refusal::NoMemory),
    }
}

// The bit-level circuit of what the lines of a text say.
fn to_aig(alloc: Global, draft: &Draft) -> Result<Aig, Refusal>
    requires draft { IsDraft (parts_of draft.now) }
    requires few { length draft.now.variables ≤ 2 ^ 60 }
    ensures aig { IfOk result (λ aig. aig_by (parts_of draft.now) ≡ Ok aig) }
    ensures fault { IfFault result (λ fault. aig_by (parts_of draft.now) ≡ Err fault) }
{
    let nexts = placed_nexts(alloc, draft)?;
    let lits = placed_lits(alloc, draft)?;
    let gates = placed_gates(alloc, draft)?;
    let next_lits = nexts.as_slice();
    let output_lits = lits.as_slice();
    let aig = in_words(alloc, draft, next_lits, output_lits, gates)?;
    Ok(aig)
}

// The next literals of the latches, whose lines come after those of the inputs.
fn placed_nexts(alloc: Global, draft: &Draft) -> Result<Vec<Lit>, Refusal>
    requires { length draft.now.variables ≤ 2 ^ 60 }
    ensures placed { IfOk result (λ placed. nexts_of (parts_of draft.now) ≡ Ok placed.items) }
    ensures fault { IfFault result (λ fault. nexts_of (parts_of draft.now) ≡ Err fault) }
{
    let variables = draft.variables.len() as u64;
    let inputs = draft.inputs.len() as u64;
    let first_line = line_number(2 + inputs);
    let lits = draft.nexts.as_slice();
    let placed = all_placed(alloc, &draft.variables, 1 + variables, first_line, lits)?;
    Ok(placed)
}

// The literals of the outputs, whose lines come after those of the latches.
fn placed_lits(alloc: Global, draft: &Draft) -> Result<Vec<Lit>, Refusal>
    requires draft { IsDraft (parts_of draft.now) }
    requires few { length draft.now.variables ≤ 2 ^ 60 }
    ensures placed { IfOk result (λ placed. lits_of (parts_of draft.now) ≡ Ok placed.items) }
    ensures fault { IfFault result (λ fault. lits_of (parts_of draft.now) ≡ Err fault) }
{
    let variables = draft.variables.len() as u64;
    let inputs = draft.inputs.len() as u64;
    let latches = draft.nexts.len() as u64;
    let first_line = line_number(2 + (inputs + latches));
    let lits = draft.lits.as_slice();
    let placed = all_placed(alloc, &draft.variables, 1 + variables, first_line, lits)?;
    Ok(placed)
}

// The gates, whose lines come after those of the outputs.
fn placed_gates(alloc: Global, draft: &Draft) -> Result<Vec<Gate>, Refusal>
    requires draft { IsDraft (parts_of draft.now) }
    requires few { length draft.now.variables ≤ 2 ^ 60 }
    ensures placed { IfOk result (λ placed. gates_of (parts_of draft.now) ≡ Ok placed.items) }
    ensures fault { IfFault result (λ fault. gates_of (parts_of draft.now) ≡ Err fault) }
{
    let inputs = draft.inputs.len() as u64;
    let latches = draft.nexts.len() as u64;
    let outputs = draft.lits.len() as u64;
    let sources = inputs + latches;
    let first_line = line_number(2 + sources + outputs);
    let gates = draft.gates.as_slice();
    let placed = gates_placed(alloc, &draft.variables, 1 + sources, first_line, gates)?;
    Ok(placed)
}

// The bit-level circuit of what the lines say, by literals and gates with places.
fn in_words(
    alloc: Global,
    draft: &Draft,
    nexts: &[Lit],
    lits: &[Lit],
    gates: Vec<Gate>,
) -> Result<Aig, NoMemory>
    requires draft { IsDraft (parts_of draft.now) }
    requires few { length draft.now.variables ≤ 2 ^ 60 }
    requires nexts { length nexts.now ≡ length (parts_of draft.now).nexts }
    requires lits { length lits.now ≡ length (parts_of draft.now).lits }
    requires aig { IsAig (parts_by (parts_of draft.now) nexts.now lits.now gates.items) }
    ensures { IfOk result (λ aig. aig ≡ parts_by (parts_of draft.now) nexts.now lits.now gates.items) }
{
    let inputs = words_of(alloc, b'i', draft.inputs.as_slice())?;
    let words = words_of(alloc, b'l', draft.latches.as_slice())?;
    let latches = latch_words(alloc, words.as_slice(), nexts, draft.resets.as_slice())?;
    let outputs = output_bits(alloc, draft.outputs.as_slice(), lits)?;
    Ok(Aig {
        inputs: Sequence::from_vec(inputs),
        latches: Sequence::from_vec(latches),
        outputs: Sequence::from_vec(outputs),
        gates: Sequence::from_vec(gates),
    })
}
